// A session read.
ghost use Rattle.std.specs.Prelude.{◌≤◌, ◌≡◌, length};
ghost use Rattle.field.specs.Bytes.{bits_of};
ghost use Rattle.session.specs.Kinds.{kind_number};
ghost use Rattle.session.specs.Layout.{kind_in, vehicle_in, byte_in, time_in, numbers_in};
ghost use Rattle.session.specs.declared.Reading.TheVariants as R;
ghost use Rattle.lent.specs.Given.{Given, put_in};
ghost use Rattle.library_records.specs.Records.{read_told, read_in};

use field::bits_of;
use lent::{put_numbers, put_wholes};
use session::{Place, Reading, Record};

// A record's fields ahead of its numbers.
#[derive(Clone, Copy)]
pub struct Head {
    pub kind: u64,
    pub vehicle: u8,
    pub byte: u8,
    pub time: i64,
}

pub fn head_of(r: Record) -> Head
    ensures { (result.kind ≡ kind_number (kind_in r)) × (result.vehicle ≡ vehicle_in r) × (result.byte ≡ byte_in r) × (result.time ≡ time_in r) }
{
    match r {
        Record::State(x) => Head {
            kind: 1,
            vehicle: x.vehicle,
            byte: x.body,
            time: x.time,
        },
        Record::Burn(x) => Head {
            kind: 2,
            vehicle: x.vehicle,
            byte: 0,
            time: x.time,
        },
        Record::Mark(x) => Head {
            kind: 3,
            vehicle: x.vehicle,
            byte: 0,
            time: x.time,
        },
    }
}

pub fn put_record_numbers(out: &mut [f64], r: Record)
    ensures { out.new ≡ put_in (numbers_in r) out.old }
{
    match r {
        Record::State(x) => {
            let s = x.state;
            let xs = [s.rx, s.ry, s.rz, s.vx, s.vy, s.vz];
            put_numbers(out, &xs);
        }
        Record::Burn(x) => {
            let d = x.change;
            let xs = [d.x, d.y, d.z];
            put_numbers(out, &xs);
        }
        Record::Mark(x) => {
            let xs = [x.range, x.rate];
            put_numbers(out, &xs);
        }
    }
}

// The local offset behind what was read, as its 64 bits.
pub fn offset_of(p: Place) -> u64
    ensures { result ≡ bits_of p.offset }
{
    bits_of(p.offset as i64)
}

fn give_record(r: Record, p: Place, out: &mut [f64], whole: &mut [u64]) -> u32
    requires { (6 ≤ length out.old) × (6 ≤ length whole.old) }
    ensures { Given (read_told (R.Record r p)) out.old whole.old out.new whole.new result }
{
    let h = head_of(r);
    let at = p.at as u64;
    let offset = offset_of(p);
    let time = bits_of(h.time);
    let zs = [h.kind, at, offset, h.vehicle as u64, h.byte as u64, time];
    put_record_numbers(out, r);
    put_wholes(whole, &zs);
    0
}

fn give_reading(a: Reading, out: &mut [f64], whole: &mut [u64]) -> u32
    requires { (6 ≤ length out.old) × (6 ≤ length whole.old) }
    ensures { Given (read_told a) out.old whole.old out.new whole.new result }
{
    match a {
        Reading::Record(r, p) => give_record(r, p, out, whole),
        Reading::Offset(p) => {
            let offset = offset_of(p);
            let zs = [4, p.at as u64, offset];
            put_wholes(whole, &zs);
            0
        }
        Reading::End => {
            let zs = [0];
            put_wholes(whole, &zs);
            0
        }
        Reading::Refused(n, _) => n.number(),
    }
}

pub fn cabin_read(session: &[u8], at: usize, offset: i16, out: &mut [f64], whole: &mut [u64]) -> u32
    ensures { Given (read_in session.now (record { at = at; offset = offset }) out.old whole.old) out.old whole.old out.new whole.new result }
{
    if out.len() < 6 {
        return 15;
    }
    if whole.len() < 6 {
        return 15;
    }
    let p = Place { at, offset };
    give_reading(session::read(p, session), out, whole)
}
