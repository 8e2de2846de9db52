// The answer of the constant-height burn as a line, put at the front of a lent buffer, whose room the caller tests: 512
// bytes hold every line. What is answered is the line's length.
#![tactic(auto)]

ghost use Rattle.text.specs.Pieces.{Laid};
ghost use Rattle.changes.specs.Changes.{closed_pieces, open_pieces, change_pieces, burn_pieces_by};

use burn::Burn;
use refusal::Numbered;
use vector::Vector;

fn closed(buf: &mut [u8], d: Vector, near: f64, far: f64) -> usize
    ensures { Laid buf.old 0 (closed_pieces d near far) buf.new result }
{
    let change = [d.x, d.y, d.z];
    let nearest = [near];
    let farthest = [far];
    let all = [d.x, d.y, d.z, near, far];
    let a = columns::labelled(buf, 0, b"change", &change);
    let b = columns::labelled(buf, a, b" closed near", &nearest);
    let c = columns::labelled(buf, b, b" far", &farthest);
    columns::end(buf, c, &all)
}

fn open(buf: &mut [u8], d: Vector, near: f64) -> usize
    ensures { Laid buf.old 0 (open_pieces d near) buf.new result }
{
    let change = [d.x, d.y, d.z];
    let nearest = [near];
    let all = [d.x, d.y, d.z, near];
    let a = columns::labelled(buf, 0, b"change", &change);
    let b = columns::labelled(buf, a, b" open near", &nearest);
    columns::end(buf, b, &all)
}

fn change(buf: &mut [u8], b: Burn) -> usize
    ensures { Laid buf.old 0 (change_pieces b) buf.new result }
{
    match b {
        Burn::Closed(change, near, far) => closed(buf, change, near, far),
        Burn::Open(change, near) => open(buf, change, near),
    }
}

// The burn's.
pub fn tell_burn<R: Numbered>(buf: &mut [u8], a: Result<Burn, R>) -> usize
    ensures { Laid buf.old 0 (burn_pieces_by R.its_number a) buf.new result }
{
    match a {
        Ok(b) => change(buf, b),
        Err(refusal) => columns::refused(buf, refusal),
    }
}
