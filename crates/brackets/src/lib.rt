// A bracket as text, put into a lent buffer at a place: what stands behind `from` can be put behind the request as it is.
#![tactic(auto)]

ghost use Rattle.text.specs.Pieces.{Laid};
ghost use Rattle.brackets.specs.Brackets.{judgement_pieces, bracket_end_pieces, from_pieces, stopped_pieces};

use iterator::{Bracket, Judgement};

pub fn judgement(buf: &mut [u8], at: usize, j: Judgement) -> usize
    ensures { Laid buf.old at (judgement_pieces j) buf.new result }
{
    match j {
        Judgement::Low(t) => {
            let a = text::bytes(buf, at, b"low:");
            figures::bits(buf, a, t)
        }
        Judgement::High(t) => {
            let a = text::bytes(buf, at, b"high:");
            figures::bits(buf, a, t)
        }
        Judgement::Under => text::bytes(buf, at, b"under"),
        Judgement::Over => text::bytes(buf, at, b"over"),
    }
}

fn end(buf: &mut [u8], at: usize, n: i64, j: Judgement) -> usize
    ensures { Laid buf.old at (bracket_end_pieces n j) buf.new result }
{
    let a = text::byte(buf, at, b' ');
    let b = text::signed(buf, a, n);
    let c = text::byte(buf, b, b' ');
    judgement(buf, c, j)
}

fn from(buf: &mut [u8], at: usize, s: Bracket) -> usize
    ensures { Laid buf.old at (from_pieces s) buf.new result }
{
    let below = s.below;
    let above = s.above;
    let a = text::bytes(buf, at, b" from");
    let b = end(buf, a, s.lo, below);
    let c = end(buf, b, s.hi, above);
    let d = text::byte(buf, c, b' ');
    text::number(buf, d, s.count)
}

// The line of a solve that its limit stopped, at the front.
pub fn stopped(buf: &mut [u8], s: Bracket) -> usize
    ensures { Laid buf.old 0 (stopped_pieces s) buf.new result }
{
    let a = text::bytes(buf, 0, b"refused 29");
    let b = from(buf, a, s);
    text::byte(buf, b, b'\n')
}
