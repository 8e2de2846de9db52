// The whole listing of a session: whole lines, as many as fit, into a large lent buffer, and where to go on.
#![tactic(auto)]

ghost use Rattle.std.specs.Prelude.{◌≤◌, ◌≡◌, length};
ghost use Rattle.report.specs.Listing.{is_done, step_at, step_of, Stepped, Fills, FillOf};

use refusal::Refusal;
use session::{Place, Reading};

// What the next line is: the heading, that of what stands at a place, or none.
#[derive(Clone, Copy)]
pub enum Next {
    Heading,
    At(Place),
    Done,
}

// How many bytes of the buffer are filled, and what comes next.
#[derive(Clone, Copy)]
pub struct Filled {
    pub length: usize,
    pub next: Next,
}

// The lines of the listing of s from `next` on, while 40 bytes are left in `out`.
pub fn fill(s: &[u8], next: Next, out: &mut [u8]) -> Result<Filled, Refusal>
    ensures { FillOf s.now next out.old out.new result }
{
    if out.len() < 40 {
        return Err(Refusal::NoRoom);
    }
    Ok(fill_lines(s, next, out))
}

fn fill_lines(s: &[u8], next: Next, out: &mut [u8]) -> Filled
    ensures { Fills s.now next out.old out.new result }
{
    let mut n = 0;
    let mut state = next;
    while out.len() - n >= 40 {
        if is_done(state) {
            break;
        }
        let t = step(s, state, &mut out[n..]);
        n += t.length;
        state = t.next;
    }
    Filled {
        length: n,
        next: state,
    }
}

pub fn is_done(next: Next) -> bool
    ensures { result ≡ is_done next }
{
    matches!(next, Next::Done)
}

// One line at the front of `line`, and what comes after it.
fn step(s: &[u8], next: Next, line: &mut [u8]) -> Filled
    requires { 40 ≤ length line.old }
    ensures { Stepped (step_of s.now next) line.old line.new result }
{
    match next {
        Next::Heading => {
            let length = lines::heading(line).unwrap_or(0);
            Filled {
                length,
                next: Next::At(Place { at: 0, offset: 0 }),
            }
        }
        Next::At(place) => step_at(s, place, line),
        Next::Done => Filled {
            length: 0,
            next: Next::Done,
        },
    }
}

fn step_at(s: &[u8], place: Place, line: &mut [u8]) -> Filled
    requires { 40 ≤ length line.old }
    ensures { Stepped (step_at s.now place) line.old line.new result }
{
    match session::read(place, s) {
        Reading::Record(r, behind) => {
            let length = lines::record_line(line, r, behind.offset).unwrap_or(0);
            Filled {
                length,
                next: Next::At(behind),
            }
        }
        Reading::Offset(after) => Filled {
            length: 0,
            next: Next::At(after),
        },
        Reading::End => Filled {
            length: 0,
            next: Next::Done,
        },
        Reading::Refused(refusal, at) => {
            let length = lines::refused_line(line, refusal.number() as u8, at.at as u64).unwrap_or(
                0,
            );
            Filled {
                length,
                next: Next::Done,
            }
        }
    }
}
