// The iterated solves' answers as lines, each put at the front of a lent buffer, whose room the caller tests: 512 bytes
// hold every line. What is answered is the line's length.
#![tactic(auto)]

ghost use Rattle.text.specs.Text.{Put};
ghost use Rattle.text.specs.Pieces.{Laid};
ghost use Rattle.solutions.specs.Solutions.{grade_text, count_pieces, times_pieces, graded_pieces, done_pieces, turned_pieces, orbit_pieces, transfer_pieces, advanced_pieces_by, transferred_pieces_by};

use refusal::{Numbered, Refusal};
use solve::{Advanced, Grade, Solution, Transferred};
use vector::{State, Vector};

fn put_grade(buf: &mut [u8], at: usize, g: Grade) -> usize
    ensures { Put buf.old at (grade_text g) buf.new result }
{
    match g {
        Grade::Closed => text::bytes(buf, at, b"closed"),
        Grade::Fair => text::bytes(buf, at, b"fair"),
        Grade::Rough => text::bytes(buf, at, b"rough"),
    }
}

fn put_count(buf: &mut [u8], n: i64, count: u64) -> usize
    ensures { Laid buf.old 0 (count_pieces n count) buf.new result }
{
    let a = text::bytes(buf, 0, b"done n ");
    let b = text::signed(buf, a, n);
    let c = text::bytes(buf, b, b" count ");
    text::number(buf, c, count)
}

fn put_times(buf: &mut [u8], at: usize, t: f64, err: f64) -> usize
    ensures { Laid buf.old at (times_pieces t err) buf.new result }
{
    let time = [t];
    let rest = [err];
    let a = columns::labelled(buf, at, b" time", &time);
    columns::labelled(buf, a, b" err", &rest)
}

fn put_graded(buf: &mut [u8], at: usize, x: Solution) -> usize
    ensures { Laid buf.old at (graded_pieces x) buf.new result }
{
    let grade = x.grade;
    let a = text::bytes(buf, at, b" grade ");
    let b = put_grade(buf, a, grade);
    put_times(buf, b, x.t, x.err)
}

fn put_done(buf: &mut [u8], x: Solution) -> usize
    ensures { Laid buf.old 0 (done_pieces x) buf.new result }
{
    let a = put_count(buf, x.n, x.count);
    put_graded(buf, a, x)
}

// The same with the turns taken off.
fn put_turned(buf: &mut [u8], x: Solution, turns: u64) -> usize
    ensures { Laid buf.old 0 (turned_pieces x turns) buf.new result }
{
    let a = put_count(buf, x.n, x.count);
    let b = text::bytes(buf, a, b" turns ");
    let c = text::number(buf, b, turns);
    put_graded(buf, c, x)
}

// The state that an advance found.
fn orbit(buf: &mut [u8], s: State, x: Solution, turns: u64) -> usize
    ensures { Laid buf.old 0 (orbit_pieces s x turns) buf.new result }
{
    let r = [s.rx, s.ry, s.rz];
    let v = [s.vx, s.vy, s.vz];
    let all = [x.t, x.err, s.rx, s.ry, s.rz, s.vx, s.vy, s.vz];
    let a = put_turned(buf, x, turns);
    let b = columns::labelled(buf, a, b" r", &r);
    let c = columns::labelled(buf, b, b" v", &v);
    columns::end(buf, c, &all)
}

// The velocity that a transfer needs.
fn velocity(buf: &mut [u8], v: Vector, x: Solution) -> usize
    ensures { Laid buf.old 0 (transfer_pieces v x) buf.new result }
{
    let three = [v.x, v.y, v.z];
    let all = [x.t, x.err, v.x, v.y, v.z];
    let a = put_done(buf, x);
    let b = columns::labelled(buf, a, b" v", &three);
    columns::end(buf, b, &all)
}

// Kepler's answer.
pub fn tell_advance<R: Numbered>(buf: &mut [u8], a: Advanced<R>) -> usize
    ensures { Laid buf.old 0 (advanced_pieces_by R.its_number a) buf.new result }
{
    match a {
        Advanced::Found(s, x, turns) => orbit(buf, s, x, turns),
        Advanced::TooLong => columns::refused(buf, Refusal::TooLong),
        Advanced::NotFinished(s) => brackets::stopped(buf, s),
        Advanced::Refused(n) => columns::refused(buf, n),
    }
}

// Lambert's answer.
pub fn tell_transfer<R: Numbered>(buf: &mut [u8], a: Transferred<R>) -> usize
    ensures { Laid buf.old 0 (transferred_pieces_by R.its_number a) buf.new result }
{
    match a {
        Transferred::Found(v, x) => velocity(buf, v, x),
        Transferred::TooLong => columns::refused(buf, Refusal::TooLong),
        Transferred::TooShort => columns::refused(buf, Refusal::TooShort),
        Transferred::NotFinished(s) => brackets::stopped(buf, s),
        Transferred::Refused(n) => columns::refused(buf, n),
    }
}
