// A line of a session's text entered: the record that it says is written behind those that are there.
#![tactic(auto)]

mod records;

ghost use Rattle.std.specs.Prelude.{◌≡◌};
ghost use Rattle.refusal.specs.Refusals.{number_of};
ghost use Rattle.entry.specs.Entries.{entry_of};
ghost use Rattle.enter.specs.Enter.{entry_written, entry_session, entered_by, entered_of, session_of};

use entry::Entry;
use records::{burn, mark, offset, state};
use refusal::Refusal;

// Why a line is not entered: a refusal of the record that it says, or the number of its first word that cannot be read. R is
// `Refusal`, or a number in its place.
#[derive(Clone, Copy)]
pub enum Fault<R = Refusal> {
    Refused(R),
    Unread(u64),
}

// The place behind the record, or where it was if the line says nothing.
fn enter_entry(buf: &mut [u8], at: usize, e: Entry) -> Result<usize, Refusal>
    ensures { (result ≡ entry_written buf.old at e) × (buf.new ≡ entry_session buf.old at e) }
{
    match e {
        Entry::Nothing => Ok(at),
        Entry::Offset(minutes) => offset(buf, at, minutes),
        Entry::State {
            time,
            vehicle,
            body,
            state: s,
        } => state(buf, at, time, vehicle, body, s),
        Entry::Burn {
            time,
            vehicle,
            change,
        } => burn(buf, at, time, vehicle, change),
        Entry::Mark {
            time,
            vehicle,
            range,
            rate,
        } => mark(buf, at, time, vehicle, range, rate),
    }
}

// The line, without its newline, entered into the session whose records end at a place of a lent buffer. All other bytes
// stay as they were, and all of them where the line cannot be read or is refused.
pub fn enter(buf: &mut [u8], at: usize, line: &[u8]) -> Result<usize, Fault>
    ensures { (result ≡ entered_of buf.old at (entry_of line.now)) × (buf.new ≡ session_of buf.old at (entry_of line.now)) }
{
    let e = entry::read(line).map_err(Fault::Unread)?;
    enter_entry(buf, at, e).map_err(Fault::Refused)
}

// `enter`, with the number of the refusal in place of the refusal.
pub fn enter_by_number(buf: &mut [u8], at: usize, line: &[u8]) -> Result<usize, Fault<u32>>
    ensures { (result ≡ entered_by number_of buf.old at (entry_of line.now)) × (buf.new ≡ session_of buf.old at (entry_of line.now)) }
{
    let e = entry::read(line).map_err(Fault::Unread)?;
    enter_entry(buf, at, e).map_err(|r| Fault::Refused(r.number()))
}

#[cfg(test)]
mod tests {
    use super::*;

    // Vehicle 2 is not allowed, which is 14.
    const REFUSED: &[u8] = b"mark 0 2 43110 -0.31";

    #[test]
    fn a_refused_line_is_given_its_refusal(rt: HostRuntime) {
        let mut session = [7u8; 64];
        match enter(&mut session, 0, REFUSED) {
            Err(Fault::Refused(refusal)) => assert_eq!(rt; refusal, Refusal::NotAllowed),
            _ => assert!(rt; false, "the line was not refused"),
        }
        assert_eq!(rt; session, [7u8; 64]);
    }

    #[test]
    fn a_refused_line_is_given_its_number(rt: HostRuntime) {
        let mut session = [7u8; 64];
        match enter_by_number(&mut session, 0, REFUSED) {
            Err(Fault::Refused(number)) => assert_eq!(rt; number, 14),
            _ => assert!(rt; false, "the line was not refused"),
        }
        assert_eq!(rt; session, [7u8; 64]);
    }

    #[test]
    fn a_line_with_a_missing_word_is_given_its_place(rt: HostRuntime) {
        let mut session = [7u8; 64];
        match enter(&mut session, 0, b"mark 0 1") {
            Err(Fault::Unread(word)) => assert_eq!(rt; word, 4),
            _ => assert!(rt; false, "the line was read"),
        }
    }
}
