// What a line says as a record. A number that its field cannot hold is not allowed, like any other over its limit.
ghost use Rattle.std.specs.Prelude.{◌≡◌};
ghost use Rattle.writer.specs.Write.{written_of, buffer_of, offset_written, offset_buffer};
ghost use Rattle.enter.specs.Enter.{state_record, burn_record, mark_record};

use refusal::Refusal;
use session::{BurnRecord, MarkRecord, Record, StateRecord};
use vector::{State, Vector};

pub fn offset(buf: &mut [u8], at: usize, minutes: i64) -> Result<usize, Refusal>
    ensures { (result ≡ offset_written buf.old at minutes) × (buf.new ≡ offset_buffer buf.old at minutes) }
{
    let minutes = i16::try_from(minutes).map_err(|_| Refusal::NotAllowed)?;
    writer::write_offset(buf, at, minutes)
}

pub fn state(
    buf: &mut [u8],
    at: usize,
    time: i64,
    vehicle: u64,
    body: u64,
    state: State,
) -> Result<usize, Refusal>
    ensures { (result ≡ written_of buf.old at (state_record time vehicle body state)) × (buf.new ≡ buffer_of buf.old at (state_record time vehicle body state)) }
{
    let vehicle = u8::try_from(vehicle).map_err(|_| Refusal::NotAllowed)?;
    let body = u8::try_from(body).map_err(|_| Refusal::NotAllowed)?;
    writer::write(
        buf,
        at,
        Record::State(StateRecord {
            vehicle,
            body,
            time,
            state,
        }),
    )
}

pub fn burn(
    buf: &mut [u8],
    at: usize,
    time: i64,
    vehicle: u64,
    change: Vector,
) -> Result<usize, Refusal>
    ensures { (result ≡ written_of buf.old at (burn_record time vehicle change)) × (buf.new ≡ buffer_of buf.old at (burn_record time vehicle change)) }
{
    let vehicle = u8::try_from(vehicle).map_err(|_| Refusal::NotAllowed)?;
    writer::write(
        buf,
        at,
        Record::Burn(BurnRecord {
            vehicle,
            time,
            change,
        }),
    )
}

pub fn mark(
    buf: &mut [u8],
    at: usize,
    time: i64,
    vehicle: u64,
    range: f64,
    rate: f64,
) -> Result<usize, Refusal>
    ensures { (result ≡ written_of buf.old at (mark_record time vehicle range rate)) × (buf.new ≡ buffer_of buf.old at (mark_record time vehicle range rate)) }
{
    let vehicle = u8::try_from(vehicle).map_err(|_| Refusal::NotAllowed)?;
    writer::write(
        buf,
        at,
        Record::Mark(MarkRecord {
            vehicle,
            time,
            range,
            rate,
        }),
    )
}
