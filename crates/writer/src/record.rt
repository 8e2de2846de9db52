// A record written: its tests, its header from the kind on, its payload behind the header, and its length last.
ghost use Rattle.std.specs.Prelude.{◌+◌, ◌≤◌, ◌≡◌, length};
ghost use Rattle.session.specs.Kinds.{kind_number, record_length};
ghost use Rattle.session.specs.Layout.{kind_in, vehicle_in, byte_in, time_in, bytes_of};
ghost use Rattle.session.specs.Decode.{allowed_in};
ghost use Rattle.text.specs.Text.{Stands};
ghost use Rattle.writer.specs.Write.{has_room, rest_bytes, written_of, buffer_of};

use crate::numbers::{are_finite, put_numbers};
use crate::put::put_field;
use refusal::Refusal;
use session::{Record, time_allowed};

#[derive(Clone, Copy)]
pub struct Header {
    pub length: usize,
    pub number: u64,
    pub vehicle: u8,
    pub byte: u8,
    pub time: i64,
}

fn header_of(r: Record) -> Header
    ensures { (result.length ≡ record_length (kind_in r)) × (result.number ≡ kind_number (kind_in r)) × (result.vehicle ≡ vehicle_in r) × (result.byte ≡ byte_in r) × (result.time ≡ time_in r) }
{
    match r {
        Record::State(x) => Header {
            length: 62,
            number: 1,
            vehicle: x.vehicle,
            byte: x.body,
            time: x.time,
        },
        Record::Burn(x) => Header {
            length: 38,
            number: 2,
            vehicle: x.vehicle,
            byte: 0,
            time: x.time,
        },
        Record::Mark(x) => Header {
            length: 30,
            number: 3,
            vehicle: x.vehicle,
            byte: 0,
            time: x.time,
        },
    }
}

fn is_allowed(r: Record) -> bool
    ensures { result ≡ allowed_in r }
{
    let h = header_of(r);
    h.vehicle <= 1 && h.byte <= 1 && time_allowed(h.time) && are_finite(r)
}

// Whether n bytes from `at` on lie within a buffer of this size, and within a session's 65,536 bytes.
pub fn has_room(at: usize, n: usize, size: usize) -> bool
    ensures { result ≡ has_room at n size }
{
    at <= size && n <= size - at && at + n <= 65536
}

// The header from the kind on.
fn put_rest(buf: &mut [u8], at: usize, number: u64, vehicle: u8, byte: u8, time: u64) -> usize
    requires { at + 12 ≤ length buf.old }
    ensures { Stands buf.old at (rest_bytes number vehicle byte time) buf.new result }
{
    let a = put_field(buf, at, number, 2);
    let b = put_field(buf, a, vehicle as u64, 1);
    let c = put_field(buf, b, byte as u64, 1);
    put_field(buf, c, time, 8)
}

fn put_record(buf: &mut [u8], at: usize, r: Record) -> usize
    requires { at + record_length (kind_in r) ≤ length buf.old }
    ensures { Stands buf.old at (bytes_of r) buf.new result }
{
    let h = header_of(r);
    let n = h.length;
    let time = field::bits_of(h.time);
    let c = put_rest(buf, at + 2, h.number, h.vehicle, h.byte, time);
    put_numbers(&mut buf[c..], r);
    put_field(buf, at, n as u64, 2);
    at + n
}

// The record at its place, with all else as it was; or a refusal, and the buffer as it was.
pub fn write(buf: &mut [u8], at: usize, r: Record) -> Result<usize, Refusal>
    ensures { (result ≡ written_of buf.old at r) × (buf.new ≡ buffer_of buf.old at r) }
{
    if !is_allowed(r) {
        return Err(Refusal::NotAllowed);
    }
    let h = header_of(r);
    let n = h.length;
    if !has_room(at, n, buf.len()) {
        return Err(Refusal::NoRoom);
    }
    Ok(put_record(buf, at, r))
}
