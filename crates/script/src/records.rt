// The lines themselves, each put at the front of a lent buffer, whose room the caller tests: 512 bytes hold them all.
ghost use Rattle.text.specs.Pieces.{Laid};
ghost use Rattle.lines.specs.Days.{local_of};
ghost use Rattle.script.specs.Script.{day_pieces, who_pieces, head_pieces, front_pieces, back_pieces, body_pieces, record_pieces, offset_pieces};

use columns::Style;
use lines::day_of;
use session::{Kind, Record};

// The day and the cs by the local clock, which begin a comment.
fn put_day(buf: &mut [u8], time: i64, offset: i16) -> usize
    ensures { Laid buf.old 0 (day_pieces (local_of time offset)) buf.new result }
{
    let d = day_of(time, offset);
    let day = d.day;
    let cs = d.cs;
    let a = text::bytes(buf, 0, b"# day ");
    let b = text::signed(buf, a, day);
    let c = text::bytes(buf, b, b" cs ");
    let e = text::number(buf, c, cs);
    text::bytes(buf, e, b": ")
}

// The kind and the vehicle.
fn who(buf: &mut [u8], at: usize, k: Kind, vehicle: u8) -> usize
    ensures { Laid buf.old at (who_pieces k vehicle) buf.new result }
{
    let a = lines::name(buf, at, k);
    let b = text::bytes(buf, a, b" of vehicle ");
    text::number(buf, b, vehicle as u64)
}

// What begins the line that can be written again.
fn head(buf: &mut [u8], at: usize, k: Kind, time: i64, vehicle: u8) -> usize
    ensures { Laid buf.old at (head_pieces k time vehicle) buf.new result }
{
    let a = lines::name(buf, at, k);
    let b = text::byte(buf, a, b' ');
    let c = text::signed(buf, b, time);
    let d = text::byte(buf, c, b' ');
    text::number(buf, d, vehicle as u64)
}

// The comment, and what begins the line behind it.
fn front(buf: &mut [u8], time: i64, offset: i16, k: Kind, vehicle: u8, xs: &[f64]) -> usize
    ensures { Laid buf.old 0 (front_pieces time offset k vehicle xs.now) buf.new result }
{
    let a = put_day(buf, time, offset);
    let b = who(buf, a, k, vehicle);
    let c = columns::row(buf, b, Style::Places, xs);
    let d = text::byte(buf, c, b'\n');
    head(buf, d, k, time, vehicle)
}

// The bits, which end that line.
fn back(buf: &mut [u8], at: usize, xs: &[f64]) -> usize
    ensures { Laid buf.old at (back_pieces xs.now) buf.new result }
{
    let a = columns::row(buf, at, Style::Bits, xs);
    text::byte(buf, a, b'\n')
}

fn body(buf: &mut [u8], at: usize, n: u8) -> usize
    ensures { Laid buf.old at (body_pieces n) buf.new result }
{
    let a = text::byte(buf, at, b' ');
    text::number(buf, a, n as u64)
}

// A record, by the clock of its session.
pub fn record_lines(buf: &mut [u8], r: Record, offset: i16) -> usize
    ensures { Laid buf.old 0 (record_pieces offset r) buf.new result }
{
    match r {
        Record::State(x) => {
            let s = x.state;
            let xs = [s.rx, s.ry, s.rz, s.vx, s.vy, s.vz];
            let a = front(buf, x.time, offset, Kind::State, x.vehicle, &xs);
            let b = body(buf, a, x.body);
            back(buf, b, &xs)
        }
        Record::Burn(x) => {
            let d = x.change;
            let xs = [d.x, d.y, d.z];
            let a = front(buf, x.time, offset, Kind::Burn, x.vehicle, &xs);
            back(buf, a, &xs)
        }
        Record::Mark(x) => {
            let xs = [x.range, x.rate];
            let a = front(buf, x.time, offset, Kind::Mark, x.vehicle, &xs);
            back(buf, a, &xs)
        }
    }
}

pub fn offset_lines(buf: &mut [u8], minutes: i16) -> usize
    ensures { Laid buf.old 0 (offset_pieces minutes) buf.new result }
{
    let z = minutes as i64;
    let a = text::bytes(buf, 0, b"# offset ");
    let b = text::signed(buf, a, z);
    let c = text::bytes(buf, b, b" minutes\noffset ");
    let d = text::signed(buf, c, z);
    text::byte(buf, d, b'\n')
}
