// A signed number taken apart: its sign, and its magnitude.
#![tactic(auto)]

ghost use Rattle.std.specs.Prelude.{◌<◌, ◌^◌, ◌≡◌};
ghost use Rattle.std.specs.Int.Signed.{mag};
ghost use Rattle.signs.specs.Sign.{negative};

pub fn is_negative(z: i64) -> bool
    ensures { result ≡ negative z }
{
    z < 0
}

// z, or -1 - z where z is negative.
pub fn magnitude(z: i64) -> u64
    ensures { (result ≡ mag z) × (result < 2 ^ 63) }
{
    if z < 0 { (-1 - z) as u64 } else { z as u64 }
}
