// The lines of a replay, each put at the front of a lent buffer, whose room the caller tests: 512 bytes hold every line.
// What is answered is the line's length.
#![tactic(auto)]

ghost use Rattle.text.specs.Text.{Put};
ghost use Rattle.text.specs.Pieces.{Laid};
ghost use Rattle.lines.specs.Days.{local_of};
ghost use Rattle.tracks.specs.Tracks.{heading_pieces, answer_pieces_by, event_pieces_by, record_pieces_by, about_text, flight_pieces, vehicle_pieces};

use flight::Flight;
use refusal::Numbered;
use replay::Answer;
use session::{Kind, Record};

pub fn heading(buf: &mut [u8]) -> usize
    ensures { Laid buf.old 0 heading_pieces buf.new result }
{
    text::bytes(buf, 0, b"day cs vehicle kind result\n")
}

fn answer<R: Numbered>(buf: &mut [u8], at: usize, x: Answer<R>) -> usize
    ensures { Laid buf.old at (answer_pieces_by R.its_number x) buf.new result }
{
    match x {
        Answer::Set => text::bytes(buf, at, b" set\n"),
        Answer::Done => text::bytes(buf, at, b" done\n"),
        Answer::Off(d) => {
            let one = [d];
            let a = columns::labelled(buf, at, b" off", &one);
            columns::end(buf, a, &one)
        }
        Answer::Refused(refusal) => {
            let a = text::bytes(buf, at, b" refused ");
            let b = text::number(buf, a, refusal.to_number() as u64);
            text::byte(buf, b, b'\n')
        }
    }
}

fn event<R: Numbered>(
    buf: &mut [u8],
    time: i64,
    offset: i16,
    vehicle: u8,
    k: Kind,
    x: Answer<R>,
) -> usize
    ensures { Laid buf.old 0 (event_pieces_by R.its_number (local_of time offset) vehicle k x) buf.new result }
{
    let a = lines::stamp(buf, time, offset, vehicle, k);
    answer(buf, a, x)
}

// A record by the local clock, and what it came to.
pub fn record<R: Numbered>(buf: &mut [u8], r: Record, offset: i16, x: Answer<R>) -> usize
    ensures { Laid buf.old 0 (record_pieces_by R.its_number offset r x) buf.new result }
{
    match r {
        Record::State(y) => event(buf, y.time, offset, y.vehicle, Kind::State, x),
        Record::Burn(y) => event(buf, y.time, offset, y.vehicle, Kind::Burn, x),
        Record::Mark(y) => event(buf, y.time, offset, y.vehicle, Kind::Mark, x),
    }
}

fn about(buf: &mut [u8], at: usize, body: u8) -> usize
    ensures { Put buf.old at (about_text body) buf.new result }
{
    if body == 0 {
        text::bytes(buf, at, b" earth at ")
    } else {
        text::bytes(buf, at, b" moon at ")
    }
}

fn flight(buf: &mut [u8], at: usize, f: Flight) -> usize
    ensures { Laid buf.old at (flight_pieces f) buf.new result }
{
    let s = f.state;
    let three = [s.rx, s.ry, s.rz];
    let rate = [s.vx, s.vy, s.vz];
    let all = [s.rx, s.ry, s.rz, s.vx, s.vy, s.vz];
    let a = about(buf, at, f.body);
    let b = text::signed(buf, a, f.time);
    let c = columns::labelled(buf, b, b" r", &three);
    let d = columns::labelled(buf, c, b" v", &rate);
    columns::end(buf, d, &all)
}

// Where a vehicle is at last, its time as recorded.
pub fn vehicle(buf: &mut [u8], number: u64, x: Option<Flight>) -> usize
    ensures { Laid buf.old 0 (vehicle_pieces number x) buf.new result }
{
    let a = text::bytes(buf, 0, b"vehicle ");
    let b = text::number(buf, a, number);
    match x {
        None => text::bytes(buf, b, b" unset\n"),
        Some(f) => flight(buf, b, f),
    }
}
