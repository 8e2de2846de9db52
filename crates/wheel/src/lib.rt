// The elevation thumbwheel: sine and cosine of a whole number of tenths of a degree, from one table of a quarter turn.
#![tactic(auto)]

mod table;

ghost use Rattle.std.specs.Prelude.{◌≡◌, ◌<◌};
ghost use Rattle.wheel.specs.Wheel.{on_by, signed_sine, over_of, direction_of, wheel_of};

use refusal::Refusal;

// Signed entries over 2^30.
#[derive(Clone, Copy)]
pub struct Direction {
    pub sine: f64,
    pub cosine: f64,
}

// The signed entry at e.
fn signed_sine(e: u64) -> i64
    requires { e < 3600 }
    ensures { result ≡ signed_sine e }
{
    if e <= 900 {
        return table::entry(e) as i64;
    }
    if e <= 1800 {
        return table::entry(1800 - e) as i64;
    }
    if e <= 2700 {
        return -(table::entry(e - 1800) as i64);
    }
    -(table::entry(3600 - e) as i64)
}

// A quarter turn on.
fn quarter_on(e: u64) -> u64
    requires { e < 3600 }
    ensures { result ≡ on_by 900 e }
{
    if e + 900 < 3600 {
        return e + 900;
    }
    e + 900 - 3600
}

fn over(n: i64) -> f64
    ensures { result ≡ over_of n }
{
    std::num::nearest_i64_to_f64(n) / 1073741824.0
}

fn direction_at(e: u64) -> Direction
    requires { e < 3600 }
    ensures { result ≡ direction_of e }
{
    let sine = over(signed_sine(e));
    let cosine = over(signed_sine(quarter_on(e)));
    Direction { sine, cosine }
}

// The direction at e tenths of a degree. Refused: 16 for e over 3,599.
pub fn wheel(e: u64) -> Result<Direction, Refusal>
    ensures { result ≡ wheel_of e }
{
    if e < 3600 {
        return Ok(direction_at(e));
    }
    Err(Refusal::ElevationOutOfRange)
}
