// The answers of the thumbwheel and of the sight line as lines, each put at the front of a lent buffer, whose room the
// caller tests: 512 bytes hold every line. What is answered is the line's length.
#![tactic(auto)]

ghost use Rattle.text.specs.Pieces.{Laid};
ghost use Rattle.views.specs.Views.{direction_pieces, points_pieces, wheel_pieces_by, sight_pieces_by};

use refusal::Numbered;
use sight::Points;
use wheel::Direction;

fn direction(buf: &mut [u8], d: Direction) -> usize
    ensures { Laid buf.old 0 (direction_pieces d) buf.new result }
{
    let sine = [d.sine];
    let cosine = [d.cosine];
    let both = [d.sine, d.cosine];
    let a = columns::labelled(buf, 0, b"sine", &sine);
    let b = columns::labelled(buf, a, b" cosine", &cosine);
    columns::end(buf, b, &both)
}

fn points(buf: &mut [u8], p: Points) -> usize
    ensures { Laid buf.old 0 (points_pieces p) buf.new result }
{
    let f = p.first;
    let s = p.second;
    let k = [p.larger, p.smaller];
    let first = [f.x, f.y, f.z];
    let second = [s.x, s.y, s.z];
    let all = [p.larger, p.smaller, f.x, f.y, f.z, s.x, s.y, s.z];
    let a = columns::labelled(buf, 0, b"points k", &k);
    let b = columns::labelled(buf, a, b" first", &first);
    let c = columns::labelled(buf, b, b" second", &second);
    columns::end(buf, c, &all)
}

// The thumbwheel's.
pub fn tell_wheel<R: Numbered>(buf: &mut [u8], a: Result<Direction, R>) -> usize
    ensures { Laid buf.old 0 (wheel_pieces_by R.its_number a) buf.new result }
{
    match a {
        Ok(d) => direction(buf, d),
        Err(n) => columns::refused(buf, n),
    }
}

// The sight line's.
pub fn tell_sight<R: Numbered>(buf: &mut [u8], a: Result<Points, R>) -> usize
    ensures { Laid buf.old 0 (sight_pieces_by R.its_number a) buf.new result }
{
    match a {
        Ok(p) => points(buf, p),
        Err(n) => columns::refused(buf, n),
    }
}
