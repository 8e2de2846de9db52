// The line that the desk gives for a reason, put at the front of a lent buffer, whose room the caller tests: 512 bytes
// hold every line. What is answered is the line's length.
#![tactic(auto)]

ghost use Rattle.text.specs.Pieces.{Laid};
ghost use Rattle.reasons.specs.Lines.{test_pieces, stop_pieces, because_pieces, neighbour_pieces, timed_pieces, between_pieces, reason_pieces_by};

use iterator::Bracket;
use reason::{Neighbours, Reason, Stop};
use refusal::Numbered;
use table::Entry;

fn test<R: Numbered>(buf: &mut [u8], word: &[u8], e: Entry<R>) -> usize
    ensures { Laid buf.old 0 (test_pieces R.its_number word.now e) buf.new result }
{
    let a = text::bytes(buf, 0, b"refused ");
    let b = text::number(buf, a, e.refusal.to_number() as u64);
    let c = text::bytes(buf, b, word);
    let d = limits::failed(buf, c, e);
    text::byte(buf, d, b'\n')
}

fn stop<R: Numbered>(buf: &mut [u8], at: usize, s: Stop<R>) -> usize
    ensures { Laid buf.old at (stop_pieces s) buf.new result }
{
    match s {
        Stop::EndOfGrid => text::bytes(buf, at, b"end of grid"),
        Stop::Test(e) => limits::failed(buf, at, e),
    }
}

fn because<R: Numbered>(buf: &mut [u8], at: usize, s: Stop<R>) -> usize
    ensures { Laid buf.old at (because_pieces s) buf.new result }
{
    let a = text::bytes(buf, at, b" because ");
    let b = stop(buf, a, s);
    text::byte(buf, b, b'\n')
}

// Neighbours of which one has no time.
fn neighbours<R: Numbered>(buf: &mut [u8], lo: &[u8], b: Bracket, s: Stop<R>) -> usize
    ensures { Laid buf.old 0 (neighbour_pieces lo.now b s) buf.new result }
{
    let below = b.below;
    let above = b.above;
    let x = ends::end(buf, 0, lo, b.lo, below);
    let y = ends::end(buf, x, b" hi", b.hi, above);
    let z = text::bytes(buf, y, b" count ");
    let k = text::number(buf, z, b.count);
    because(buf, k, s)
}

fn timed(buf: &mut [u8], at: usize, end: &[u8], n: i64, t: f64) -> usize
    ensures { Laid buf.old at (timed_pieces end.now n t) buf.new result }
{
    let time = [t];
    let a = text::bytes(buf, at, end);
    let b = text::signed(buf, a, n);
    columns::labelled(buf, b, b" time", &time)
}

fn between(buf: &mut [u8], n: Neighbours) -> usize
    ensures { Laid buf.old 0 (between_pieces n) buf.new result }
{
    let times = [n.below, n.above];
    let a = timed(buf, 0, b"solved lo ", n.lo, n.below);
    let b = timed(buf, a, b" hi ", n.hi, n.above);
    let c = text::bytes(buf, b, b" count ");
    let d = text::number(buf, c, n.count);
    columns::end(buf, d, &times)
}

// The line of a reason.
pub fn tell<R: Numbered>(buf: &mut [u8], r: Reason<R>) -> usize
    ensures { Laid buf.old 0 (reason_pieces_by R.its_number r) buf.new result }
{
    match r {
        Reason::Test(e) => test(buf, b" ", e),
        Reason::Amiss(a) => ends::amiss(buf, a),
        Reason::TooShort(b, s) => neighbours(buf, b"refused 8 lo", b, s),
        Reason::TooLong(b, s) => neighbours(buf, b"refused 7 lo", b, s),
        Reason::Range(e) => test(buf, b" because ", e),
        Reason::NotFinished(b) => brackets::stopped(buf, b),
        Reason::Settings(n) => columns::refused(buf, n),
        Reason::Between(n) => between(buf, n),
        Reason::Solved => text::bytes(buf, 0, b"solved\n"),
    }
}
