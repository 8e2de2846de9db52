// The lines themselves: the heading, a record's and a refusal's.
ghost use Rattle.session.specs.Kinds.{name_of};
ghost use Rattle.text.specs.Text.{InFront, Put};
ghost use Rattle.text.specs.Pieces.{Laid};
ghost use Rattle.lines.specs.Days.{local_of};
ghost use Rattle.lines.specs.Lines.{line_room, heading_text, clock_pieces, stamp_pieces, event_pieces, record_text, refused_pieces, refused_text};

use crate::day::day_of;
use refusal::Refusal;
use session::{Kind, Record};

pub fn heading(buf: &mut [u8]) -> Result<usize, Refusal>
    ensures { InFront line_room heading_text buf.old buf.new result }
{
    if buf.len() < 40 {
        return Err(Refusal::NoRoom);
    }
    Ok(text::bytes(buf, 0, b"day cs vehicle kind\n"))
}

// The line of a record, its day and cs by the local clock.
pub fn record_line(buf: &mut [u8], r: Record, offset: i16) -> Result<usize, Refusal>
    ensures { InFront line_room (record_text offset r) buf.old buf.new result }
{
    if buf.len() < 40 {
        return Err(Refusal::NoRoom);
    }
    match r {
        Record::State(x) => Ok(event(buf, x.time, offset, x.vehicle, Kind::State)),
        Record::Burn(x) => Ok(event(buf, x.time, offset, x.vehicle, Kind::Burn)),
        Record::Mark(x) => Ok(event(buf, x.time, offset, x.vehicle, Kind::Mark)),
    }
}

// The name of a kind.
pub fn name(buf: &mut [u8], at: usize, k: Kind) -> usize
    ensures { Put buf.old at (name_of k) buf.new result }
{
    match k {
        Kind::State => text::bytes(buf, at, b"state"),
        Kind::Burn => text::bytes(buf, at, b"burn"),
        Kind::Mark => text::bytes(buf, at, b"mark"),
    }
}

// The day and the cs by the local clock.
fn clock(buf: &mut [u8], time: i64, offset: i16) -> usize
    ensures { Laid buf.old 0 (clock_pieces (local_of time offset)) buf.new result }
{
    let d = day_of(time, offset);
    let day = d.day;
    let cs = d.cs;
    let a = text::signed(buf, 0, day);
    let b = text::byte(buf, a, b' ');
    let c = text::number(buf, b, cs);
    text::byte(buf, c, b' ')
}

// What begins the line of a record: when, which vehicle, and what.
pub fn stamp(buf: &mut [u8], time: i64, offset: i16, vehicle: u8, k: Kind) -> usize
    ensures { Laid buf.old 0 (stamp_pieces (local_of time offset) vehicle k) buf.new result }
{
    let a = clock(buf, time, offset);
    let b = text::number(buf, a, vehicle as u64);
    let c = text::byte(buf, b, b' ');
    name(buf, c, k)
}

fn event(buf: &mut [u8], time: i64, offset: i16, vehicle: u8, k: Kind) -> usize
    ensures { Laid buf.old 0 (event_pieces (local_of time offset) vehicle k) buf.new result }
{
    let a = stamp(buf, time, offset, vehicle, k);
    text::byte(buf, a, b'\n')
}

// A refusal's number and the place of it, behind the words that begin the line.
pub fn refused_at(buf: &mut [u8], words: &[u8], number: u64, at: u64) -> usize
    ensures { Laid buf.old 0 (refused_pieces words.now number at) buf.new result }
{
    let a = text::bytes(buf, 0, words);
    let b = text::number(buf, a, number);
    let c = text::bytes(buf, b, b" at ");
    let d = text::number(buf, c, at);
    text::byte(buf, d, b'\n')
}

// The number is one byte: beside the twenty digits that a place can have, a line of 40 bytes holds no more than seven.
pub fn refused_line(buf: &mut [u8], number: u8, at: u64) -> Result<usize, Refusal>
    ensures { InFront line_room (refused_text number at) buf.old buf.new result }
{
    if buf.len() < 40 {
        return Err(Refusal::NoRoom);
    }
    Ok(refused_at(buf, b"refused ", number as u64, at))
}
