// Numbers: `x` and the bits of an f64, or a decimal with an optional sign.
ghost use Rattle.std.specs.Prelude.{◌≡◌, ◌≤◌};
ghost use Rattle.numerals.specs.Numbers.{of_pattern, pattern_of, over_ten, unsigned_of, negated, word_number};

use crate::digits::read_digits;
use words::Byte;

// The f64 with these bits. Every pattern of a NaN is the one NaN.
fn of_pattern(w: Option<u64>) -> Option<f64>
    ensures { result ≡ of_pattern w }
{
    let n = w?;
    if n % 9223372036854775808 > 9218868437227405312 {
        return Some(0.0 / 0.0);
    }
    Some(f64::from_bits(n))
}

fn pattern(s: &[u8]) -> Option<f64>
    ensures { result ≡ pattern_of s.now }
{
    if s.len() != 16 {
        return None;
    }
    of_pattern(read_digits(s, 16, 0))
}

fn over_ten(k: usize, w: Option<u64>) -> Option<f64>
    requires { k ≤ 15 }
    ensures { result ≡ over_ten k w }
{
    let whole = std::num::nearest_u64_to_f64(w?);
    let power = std::num::nearest_u64_to_f64(10u64.pow(k as u32));
    Some(whole / power)
}

// A decimal without a sign.
fn unsigned(s: &[u8]) -> Option<f64>
    ensures { result ≡ unsigned_of s.now }
{
    let p = words::find(s, Byte::Point);
    if p == 0 {
        return None;
    }
    if p == s.len() {
        if p > 15 {
            return None;
        }
        return over_ten(0, read_digits(s, 10, 0));
    }
    let k = s.len() - p - 1;
    if k == 0 {
        return None;
    }
    if p + k > 15 {
        return None;
    }
    let n = read_digits(&s[..p], 10, 0)?;
    over_ten(k, read_digits(&s[p + 1..], 10, n))
}

fn negative(x: Option<f64>) -> Option<f64>
    ensures { result ≡ negated x }
{
    x.map(|v| -v)
}

pub fn read_number(s: &[u8]) -> Option<f64>
    ensures { result ≡ word_number s.now }
{
    if let Some(digits) = s.strip_prefix(b"x") {
        return pattern(digits);
    }
    if let Some(size) = s.strip_prefix(b"-") {
        return negative(unsigned(size));
    }
    if let Some(size) = s.strip_prefix(b"+") {
        return unsigned(size);
    }
    unsigned(s)
}
