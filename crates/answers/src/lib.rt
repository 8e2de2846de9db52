// The other routines' answers as lines, each put at the front of a lent buffer, whose room the caller tests: 512 bytes
// hold every line. What is answered is the line's length.
#![tactic(auto)]

ghost use Rattle.text.specs.Pieces.{Laid};
ghost use Rattle.answers.specs.Answers.{one_pieces, closed_pieces, point_pieces};
ghost use Rattle.answers.specs.Answers.{answer_pieces_by, tried_pieces_by, timed_pieces_by, apsides_pieces_by};

use apsides::Apsides;
use iterator::Tried;
use refusal::{Numbered, Refusal};
use theta::TransferTime;

// A name and one number.
fn one(buf: &mut [u8], name: &[u8], x: f64) -> usize
    ensures { Laid buf.old 0 (one_pieces name.now x) buf.new result }
{
    let xs = [x];
    let a = columns::labelled(buf, 0, name, &xs);
    columns::end(buf, a, &xs)
}

// The apsides of a closed orbit.
fn closed(buf: &mut [u8], near: f64, far: f64) -> usize
    ensures { Laid buf.old 0 (closed_pieces near far) buf.new result }
{
    let first = [near];
    let second = [far];
    let both = [near, far];
    let a = columns::labelled(buf, 0, b"closed near", &first);
    let b = columns::labelled(buf, a, b" far", &second);
    columns::end(buf, b, &both)
}

// A trial's point.
fn point(buf: &mut [u8], n: i64) -> usize
    ensures { Laid buf.old 0 (point_pieces n) buf.new result }
{
    let a = text::bytes(buf, 0, b"point ");
    let b = text::signed(buf, a, n);
    text::byte(buf, b, b'\n')
}

// The root's, c's and s's.
pub fn tell_number<R: Numbered>(buf: &mut [u8], a: Result<f64, R>) -> usize
    ensures { Laid buf.old 0 (answer_pieces_by R.its_number a) buf.new result }
{
    match a {
        Ok(x) => one(buf, b"value", x),
        Err(n) => columns::refused(buf, n),
    }
}

// The trial's.
pub fn tell_trial<R: Numbered>(buf: &mut [u8], a: Tried<R>) -> usize
    ensures { Laid buf.old 0 (tried_pieces_by R.its_number a) buf.new result }
{
    match a {
        Tried::Point(n) => point(buf, n),
        Tried::NoneLeft => text::bytes(buf, 0, b"none\n"),
        Tried::Refused(n) => columns::refused(buf, n),
    }
}

// Time-Theta's.
pub fn tell_time<R: Numbered>(buf: &mut [u8], a: TransferTime<R>) -> usize
    ensures { Laid buf.old 0 (timed_pieces_by R.its_number a) buf.new result }
{
    match a {
        TransferTime::Time(x) => one(buf, b"time", x.time),
        TransferTime::TooLong => columns::refused(buf, Refusal::TooLong),
        TransferTime::TooShort => columns::refused(buf, Refusal::TooShort),
        TransferTime::Refused(n) => columns::refused(buf, n),
    }
}

// Periapo's.
pub fn tell_apsides<R: Numbered>(buf: &mut [u8], a: Apsides<R>) -> usize
    ensures { Laid buf.old 0 (apsides_pieces_by R.its_number a) buf.new result }
{
    match a {
        Apsides::Closed(near, far) => closed(buf, near, far),
        Apsides::Open(near) => one(buf, b"open near", near),
        Apsides::Refused(n) => columns::refused(buf, n),
    }
}
