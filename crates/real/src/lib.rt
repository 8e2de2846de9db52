// What every routine shares of f64: two tests, a whole number as an f64 and an f64 cut to one, and the answer of a routine
// that gives one number.
#![tactic(auto)]

ghost use Rattle.std.specs.Prelude.{◌≡◌, pos};
ghost use Rattle.std.specs.Float.{binary64};
ghost use Rattle.std.specs.Float.Ieee.{of_int};
ghost use Rattle.real.specs.F64.{finite, size_of, cut_of};

// Neither an infinity nor a NaN.
pub fn is_finite(x: f64) -> bool
    ensures { result ≡ finite x }
{
    let top = 1.0 / 0.0;
    if -top < x { x < top } else { false }
}

// x without its sign; a zero and a NaN as they are.
pub fn size(x: f64) -> f64
    ensures { result ≡ size_of x }
{
    if x < 0.0 { -x } else { x }
}

// x cut to a whole number towards zero, and held in 0..2^64-1; 0 for a NaN.
pub fn cut(x: f64) -> u64
    ensures { result ≡ cut_of x }
{
    if x > -1.0 {
        if x < 18446744073709551616.0 {
            return std::num::truncating_f64_to_u64(x);
        }
        return 18446744073709551615;
    }
    0
}

// The f64 nearest to n. Up to 2^53 in size that is n itself, which one instruction gives.
pub fn nearest(n: i64) -> f64
    ensures { result ≡ of_int binary64 n }
{
    if -9007199254740992 <= n {
        if n <= 9007199254740992 {
            return n as f64;
        }
    }
    std::num::nearest_i64_to_f64(n)
}

// The same for a number without a sign.
pub fn nearest_whole(n: u64) -> f64
    ensures { result ≡ of_int binary64 (pos n) }
{
    if n <= 9007199254740992 {
        return n as i64 as f64;
    }
    std::num::nearest_u64_to_f64(n)
}
