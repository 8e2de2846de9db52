// A session as text: each record twice, as a comment for people and as a line that can be written again.
#![tactic(auto)]

mod records;

ghost use Rattle.text.specs.Pieces.{Laid};
ghost use Rattle.std.specs.Prelude.{◌≡◌};
ghost use Rattle.script.specs.Script.{pieces_of, next_of, ShownAt};

use records::{offset_lines, record_lines};
use refusal::Refusal;
use session::{Place, Reading};

// How many bytes the lines of what was read have, and where to go on: behind a record, and nowhere behind a refusal and at
// the session's end, which has no line.
#[derive(Clone, Copy)]
pub struct Shown {
    pub length: usize,
    pub next: Option<Place>,
}

// The lines of what was read, at the front of a lent buffer.
fn lines_of(buf: &mut [u8], r: Reading) -> usize
    ensures { Laid buf.old 0 (pieces_of r) buf.new result }
{
    match r {
        Reading::Record(x, place) => {
            let o = place.offset;
            record_lines(buf, x, o)
        }
        Reading::Offset(place) => {
            let o = place.offset;
            offset_lines(buf, o)
        }
        Reading::End => 0,
        Reading::Refused(refusal, place) => {
            let at = place.at;
            lines::refused_at(buf, b"# refused ", refusal.number() as u64, at as u64)
        }
    }
}

fn next_of(r: Reading) -> Option<Place>
    ensures { result ≡ next_of r }
{
    match r {
        Reading::Record(_, place) | Reading::Offset(place) => Some(place),
        Reading::End | Reading::Refused(_, _) => None,
    }
}

// The lines of what stands at a place of a session, newlines and all, made at the front of a lent buffer: their length
// and the place behind, or 15 for a buffer of under 512 bytes, which stays as it was.
pub fn show_at(s: &[u8], place: Place, buf: &mut [u8]) -> Result<Shown, Refusal>
    ensures { ShownAt s.now place buf.old buf.new result }
{
    if buf.len() < 512 {
        return Err(Refusal::NoRoom);
    }
    let r = session::read(place, s);
    let length = lines_of(buf, r);
    Ok(Shown {
        length,
        next: next_of(r),
    })
}
