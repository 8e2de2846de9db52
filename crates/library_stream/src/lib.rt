// The front door for C, as in `library`: a session that comes in parts.
#![tactic(auto)]

ghost use Rattle.std.specs.Prelude.{◌≤◌, ◌≡◌, length};
ghost use Rattle.stream.specs.declared.Step.TheVariants as P;
ghost use Rattle.lent.specs.Given.{numbers_after, wholes_after, Given};
ghost use Rattle.library_stream.specs.Parts.{standing_told, step_told, standing_number, step_number, take_in, room_after};

use field::bits_of;
use lent::put_wholes;
use library_records::{head_of, offset_of, put_record_numbers};
use session::{Place, Record};
use stream::{Standing, Step};

fn give_next(r: Record, p: Place, n: usize, out: &mut [f64], whole: &mut [u64]) -> u32
    requires { (6 ≤ length out.old) × (7 ≤ length whole.old) }
    ensures { Given (step_told (P.Record r p n)) out.old whole.old out.new whole.new result }
{
    let h = head_of(r);
    let at = p.at as u64;
    let offset = offset_of(p);
    let time = bits_of(h.time);
    let zs = [
        h.kind,
        n as u64,
        at,
        offset,
        h.vehicle as u64,
        h.byte as u64,
        time,
    ];
    put_record_numbers(out, r);
    put_wholes(whole, &zs);
    0
}

fn give_standing(s: Standing, whole: &mut [u64]) -> u32
    requires { 7 ≤ length whole.old }
    ensures number { result ≡ standing_number s }
    ensures wholes { whole.new ≡ wholes_after (standing_told s) whole.old }
{
    match s {
        Standing::Open(p, k) => {
            let offset = offset_of(p);
            let zs = [5, k as u64, p.at as u64, offset];
            put_wholes(whole, &zs);
            0
        }
        Standing::Refused(n, _) => n as u32,
        Standing::Ended => {
            let zs = [0];
            put_wholes(whole, &zs);
            0
        }
    }
}

fn give_step(a: Step, out: &mut [f64], whole: &mut [u64]) -> u32
    requires { (6 ≤ length out.old) × (7 ≤ length whole.old) }
    ensures number { result ≡ step_number a }
    ensures numbers { out.new ≡ numbers_after (step_told a) out.old }
    ensures wholes { whole.new ≡ wholes_after (step_told a) whole.old }
{
    match a {
        Step::Record(r, p, n) => give_next(r, p, n, out, whole),
        Step::Offset(p, n) => {
            let offset = offset_of(p);
            let zs = [4, n as u64, p.at as u64, offset];
            put_wholes(whole, &zs);
            0
        }
        Step::Stopped(s) => give_standing(s, whole),
    }
}

pub fn cabin_take_next(
    at: usize,
    offset: i16,
    kept: usize,
    room: &mut [u8],
    part: &[u8],
    from: usize,
    out: &mut [f64],
    whole: &mut [u64],
) -> u32
    ensures { (Given (take_in (record { at = at; offset = offset }) kept room.old part.now from out.old whole.old) out.old whole.old out.new whole.new result) × (room.new ≡ room_after (record { at = at; offset = offset }) kept room.old part.now from out.old whole.old) }
{
    if out.len() < 6 {
        return 15;
    }
    if whole.len() < 7 {
        return 15;
    }
    let s = Standing::Open(Place { at, offset }, kept);
    give_step(stream::take_next(s, room, part, from), out, whole)
}
