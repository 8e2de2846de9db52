// Day and centiseconds of a time by the local clock, cut down.
ghost use Rattle.std.specs.Prelude.{◌<◌, ◌^◌, ◌≡◌, negsuc};
ghost use Rattle.lines.specs.Days.{local_of, day_of, cs_of};

use signs::{is_negative, magnitude};

#[derive(Clone, Copy)]
pub struct Day {
    pub day: i64,
    pub cs: u64,
}

// The day that a time falls on by a clock which is `offset` minutes ahead, and its centiseconds from the start of that
// day. The minutes are added to the centiseconds alone, so that no sum leaves 64 bits, whatever the time.
pub fn day_of(time: i64, offset: i16) -> Day
    ensures { (result.day ≡ day_of (local_of time offset)) × (result.cs ≡ cs_of (local_of time offset)) }
{
    let d = split(time);
    let day = d.day;
    let cs = d.cs;
    let e = split(cs as i64 + 6000 * (offset as i64));
    let more = e.day;
    let rest = e.cs;
    Day {
        day: day + more,
        cs: rest,
    }
}

// A time's days, cut down, and the rest.
fn split(time: i64) -> Day
    ensures { (result.day ≡ day_of time) × (result.cs ≡ cs_of time) }
{
    let m = magnitude(time);
    let q = m / 8640000;
    let c = m % 8640000;
    if is_negative(time) {
        let day = below(q);
        return Day {
            day,
            cs: 8639999 - c,
        };
    }
    let day = q as i64;
    Day { day, cs: c }
}

// -1 - k
fn below(k: u64) -> i64
    requires { k < 2 ^ 63 }
    ensures { result ≡ negsuc k }
{
    -1 - (k as i64)
}
