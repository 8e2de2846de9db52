// The lines of a session's text entered one behind the other: each line is counted, and the first that cannot be read or
// is refused ends it.
#![tactic(auto)]

ghost use Rattle.std.specs.Prelude.{◌≡◌};
ghost use Rattle.text.specs.Text.{InFront};
ghost use Rattle.text.specs.Pieces.{Laid};
ghost use Rattle.refusal.specs.Refusals.{number_of};
ghost use Rattle.entry.specs.Entries.{entry_of};
ghost use Rattle.enter.specs.Enter.{session_of};
ghost use Rattle.book.specs.Book.{one_more, progress_by, progress_of, tell_room, fault_pieces, told_pieces_by, tell_pieces_by, tell_text_by, tell_text};

use enter::Fault;
use refusal::{Numbered, Refusal};

// How far the lines were entered: the place behind the records, and how many lines were read.
#[derive(Clone, Copy)]
pub struct Progress {
    pub at: usize,
    pub count: u64,
}

// The line that ended it, and why. R is `Refusal`, or a number in its place.
#[derive(Clone, Copy)]
pub struct Ended<R = Refusal> {
    pub line: u64,
    pub fault: Fault<R>,
}

// One line more.
fn one_more(n: u64) -> u64
    ensures { result ≡ one_more n }
{
    n.saturating_add(1)
}

// A line, without its newline, after those that were read. The count stands still at its end, 2^64-1.
pub fn add(session: &mut [u8], progress: Progress, line: &[u8]) -> Result<Progress, Ended>
    ensures { (result ≡ progress_of session.old progress line.now) × (session.new ≡ session_of session.old progress.at (entry_of line.now)) }
{
    let count = one_more(progress.count);
    match enter::enter(session, progress.at, line) {
        Ok(at) => Ok(Progress { at, count }),
        Err(fault) => Err(Ended { line: count, fault }),
    }
}

// `add`, with the number of the refusal in place of the refusal.
pub fn add_by_number(
    session: &mut [u8],
    progress: Progress,
    line: &[u8],
) -> Result<Progress, Ended<u32>>
    ensures { (result ≡ progress_by number_of session.old progress line.now) × (session.new ≡ session_of session.old progress.at (entry_of line.now)) }
{
    let count = one_more(progress.count);
    match enter::enter_by_number(session, progress.at, line) {
        Ok(at) => Ok(Progress { at, count }),
        Err(fault) => Err(Ended { line: count, fault }),
    }
}

fn fault(buf: &mut [u8], line: u64, word: &[u8], n: u64) -> usize
    ensures { Laid buf.old 0 (fault_pieces line word.now n) buf.new result }
{
    let a = text::bytes(buf, 0, b"line ");
    let b = text::number(buf, a, line);
    let c = text::bytes(buf, b, word);
    let d = text::number(buf, c, n);
    text::byte(buf, d, b'\n')
}

fn told_end<R: Numbered>(buf: &mut [u8], ended: Ended<R>) -> usize
    ensures { Laid buf.old 0 (told_pieces_by R.its_number ended.line ended.fault) buf.new result }
{
    match ended.fault {
        Fault::Unread(word) => fault(buf, ended.line, b": unread ", word),
        Fault::Refused(r) => fault(buf, ended.line, b": refused ", r.to_number() as u64),
    }
}

fn told<R: Numbered>(buf: &mut [u8], t: Result<Progress, Ended<R>>) -> usize
    ensures { Laid buf.old 0 (tell_pieces_by R.its_number t) buf.new result }
{
    match t {
        Ok(_) => 0,
        Err(ended) => told_end(buf, ended),
    }
}

fn tell_either<R: Numbered>(t: Result<Progress, Ended<R>>, buf: &mut [u8]) -> Result<usize, Refusal>
    ensures { InFront tell_room (tell_text_by R.its_number t) buf.old buf.new result }
{
    if buf.len() < 64 {
        return Err(Refusal::NoRoom);
    }
    Ok(told(buf, t))
}

// What ended it as a line, newline and all, made at the front of a lent buffer: its length, which is 0 where nothing did,
// or 15 for a buffer of under 64 bytes, which stays as it was.
pub fn tell(t: Result<Progress, Ended>, buf: &mut [u8]) -> Result<usize, Refusal>
    ensures { InFront tell_room (tell_text t) buf.old buf.new result }
{
    tell_either(t, buf)
}

// `tell`, for a number in place of the refusal, whatever number it is.
pub fn tell_by_number(t: Result<Progress, Ended<u32>>, buf: &mut [u8]) -> Result<usize, Refusal>
    ensures { InFront tell_room (tell_text_by (λ n. n) t) buf.old buf.new result }
{
    tell_either(t, buf)
}

#[cfg(test)]
mod tests {
    use super::*;

    // Vehicle 2 is not allowed, which is 14.
    const REFUSED: &[u8] = b"mark 0 2 43110 -0.31";

    const BEGUN: Progress = Progress { at: 0, count: 6 };

    #[test]
    fn a_refused_line_ends_it_with_its_refusal(rt: HostRuntime) {
        let mut session = [7u8; 64];
        match add(&mut session, BEGUN, REFUSED) {
            Err(
                Ended {
                    line,
                    fault: Fault::Refused(refusal),
                },
            ) => {
                assert_eq!(rt; line, 7);
                assert_eq!(rt; refusal, Refusal::NotAllowed);
            }
            _ => assert!(rt; false, "the line was not refused"),
        }
    }

    #[test]
    fn a_refused_line_ends_it_with_its_number(rt: HostRuntime) {
        let mut session = [7u8; 64];
        match add_by_number(&mut session, BEGUN, REFUSED) {
            Err(
                Ended {
                    line,
                    fault: Fault::Refused(number),
                },
            ) => {
                assert_eq!(rt; line, 7);
                assert_eq!(rt; number, 14);
            }
            _ => assert!(rt; false, "the line was not refused"),
        }
    }

    #[test]
    fn a_refusal_and_its_number_are_told_alike(rt: HostRuntime) {
        let mut session = [7u8; 64];
        let mut told = [0u8; 64];
        let mut again = [0u8; 64];
        let n = tell(add(&mut session, BEGUN, REFUSED), &mut told);
        let m = tell_by_number(add_by_number(&mut session, BEGUN, REFUSED), &mut again);
        assert_eq!(rt; n, Ok(19));
        assert_eq!(rt; m, Ok(19));
        assert!(rt; told.starts_with(b"line 7: refused 14\n"));
        assert_eq!(rt; told, again);
    }
}
