// The listing of a session as it comes: the line of each step of the stream's reader, made at the front of a lent line
// buffer. A step that gives no line makes one of no bytes.
#![tactic(auto)]

ghost use Rattle.std.specs.Prelude.{◌≡◌};
ghost use Rattle.text.specs.Text.{InFront};
ghost use Rattle.lines.specs.Lines.{line_room};
ghost use Rattle.follow.specs.Follow.{step_text, last_text, no_line};

use refusal::Refusal;
use stream::{Standing, Step};

// The line of a step: a record's, by the clock of its place, or that of a reader that has stopped.
pub fn step_line(buf: &mut [u8], step: Step) -> Result<usize, Refusal>
    ensures { InFront line_room (step_text step) buf.old buf.new result }
{
    match step {
        Step::Record(r, place, _) => {
            let offset = place.offset;
            lines::record_line(buf, r, offset)
        }
        Step::Offset(_, _) => no_line(buf),
        Step::Stopped(state) => last_line(buf, state),
    }
}

// The line of a reader that has no more to give: a refusal's.
pub fn last_line(buf: &mut [u8], state: Standing) -> Result<usize, Refusal>
    ensures { InFront line_room (last_text state) buf.old buf.new result }
{
    match state {
        Standing::Open(_, _) => no_line(buf),
        Standing::Refused(number, at) => lines::refused_line(buf, number, at as u64),
        Standing::Ended => no_line(buf),
    }
}

fn no_line(buf: &[u8]) -> Result<usize, Refusal>
    ensures { result ≡ no_line buf.now }
{
    if buf.len() < 40 {
        return Err(Refusal::NoRoom);
    }
    Ok(0)
}
