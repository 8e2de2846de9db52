// Records written into a lent buffer.
ghost use Rattle.std.specs.Prelude.{◌≤◌, ◌≡◌, length};
ghost use Rattle.session.specs.Offset.{offset_bytes};
ghost use Rattle.lent.specs.Given.{GivenWholes, bytes_after};
ghost use Rattle.library_records.specs.Records.{count_from, record_from, written_told, write_in, record_written, written, offset_in};

use lent::{number_at, put_wholes, state_in, vector_in};
use refusal::Refusal;
use session::{BurnRecord, MarkRecord, Record, StateRecord};

pub fn count_from(k: u64) -> usize
    ensures { result ≡ count_from k }
{
    if k == 1 {
        return 6;
    }
    if k == 2 {
        return 3;
    }
    2
}

pub fn record_from(k: u64, vehicle: u8, body: u8, time: i64, numbers: &[f64]) -> Record
    ensures { result ≡ record_from k vehicle body time numbers.now }
{
    if k == 1 {
        let state = state_in(numbers);
        return Record::State(StateRecord {
            vehicle,
            body,
            time,
            state,
        });
    }
    if k == 2 {
        let change = vector_in(numbers);
        return Record::Burn(BurnRecord {
            vehicle,
            time,
            change,
        });
    }
    let range = number_at(numbers, 0);
    let rate = number_at(numbers, 1);
    Record::Mark(MarkRecord {
        vehicle,
        time,
        range,
        rate,
    })
}

fn give_written(a: Result<usize, Refusal>, whole: &mut [u64]) -> u32
    requires { 1 ≤ length whole.old }
    ensures { GivenWholes (written_told a) whole.old whole.new result }
{
    match a {
        Ok(n) => {
            let zs = [n as u64];
            put_wholes(whole, &zs);
            0
        }
        Err(n) => n.number(),
    }
}

pub fn cabin_write(
    buf: &mut [u8],
    at: usize,
    kind: u64,
    vehicle: u8,
    body: u8,
    time: i64,
    numbers: &[f64],
    whole: &mut [u64],
) -> u32
    ensures { (GivenWholes (write_in buf.old at kind vehicle body time numbers.now whole.old) whole.old whole.new result) × (buf.new ≡ bytes_after (write_in buf.old at kind vehicle body time numbers.now whole.old) (record_written buf.old at (record_from kind vehicle body time numbers.now)) buf.old) }
{
    if whole.len() < 1 {
        return 15;
    }
    if kind < 1 {
        return 13;
    }
    if kind > 3 {
        return 13;
    }
    if numbers.len() < count_from(kind) {
        return 15;
    }
    let r = record_from(kind, vehicle, body, time, numbers);
    give_written(writer::write(buf, at, r), whole)
}

pub fn cabin_write_offset(buf: &mut [u8], at: usize, minutes: i16, whole: &mut [u64]) -> u32
    ensures { (GivenWholes (offset_in buf.old at minutes whole.old) whole.old whole.new result) × (buf.new ≡ bytes_after (offset_in buf.old at minutes whole.old) (written buf.old at 8 (offset_bytes minutes)) buf.old) }
{
    if whole.len() < 1 {
        return 15;
    }
    give_written(writer::write_offset(buf, at, minutes), whole)
}
