// Digits, and whole numbers: an optional minus, and decimal digits.
ghost use Rattle.std.specs.Prelude.{◌≡◌, ◌≤◌};
ghost use Rattle.numerals.specs.Numbers.{digit_of, word_digits, word_decimal, only_zero, word_whole, plain, minus, word_signed};

// What a digit counts, to base 16; 16 for any other byte.
#[tactic(auto, unfolding(crate::specs::Numbers::digit_of))]
fn digit_value(b: u8) -> u64
    ensures { result ≡ digit_of b }
{
    match b {
        b'0'..=b'9' => u64::from(b - 48),
        b'A'..=b'F' => u64::from(b - 55),
        b'a'..=b'f' => u64::from(b - 87),
        _ => 16,
    }
}

// The number that digits stand for, with those of v in front.
pub fn read_digits(s: &[u8], base: u64, v: u64) -> Option<u64>
    requires { (1 ≤ base) × (base ≤ 16) }
    ensures { result ≡ word_digits base v s.now }
{
    let mut n = v;
    for b in s {
        let d = digit_value(*b);
        if d >= base || n > (u64::MAX - d) / base {
            return None;
        }
        n = n * base + d;
    }
    Some(n)
}

fn decimal_digits(s: &[u8]) -> Option<u64>
    ensures { result ≡ word_decimal s.now }
{
    if s.is_empty() {
        return None;
    }
    read_digits(s, 10, 0)
}

fn only_zero(w: Option<u64>) -> Option<u64>
    ensures { result ≡ only_zero w }
{
    w.filter(|n| *n == 0)
}

fn negative(w: Option<u64>) -> Option<i64>
    ensures { result ≡ minus w }
{
    let n = w?;
    if n == 0 {
        return Some(0);
    }
    if n <= 9223372036854775808 {
        return Some(-1 - ((n - 1) as i64));
    }
    None
}

fn positive(w: Option<u64>) -> Option<i64>
    ensures { result ≡ plain w }
{
    let n = w?;
    if n < 9223372036854775808 {
        return Some(n as i64);
    }
    None
}

// A whole number from 0 to 2^64-1.
pub fn read_whole(s: &[u8]) -> Option<u64>
    ensures { result ≡ word_whole s.now }
{
    match s.strip_prefix(b"-") {
        Some(digits) => only_zero(decimal_digits(digits)),
        None => decimal_digits(s),
    }
}

// A whole number from -2^63 to 2^63-1.
pub fn read_signed(s: &[u8]) -> Option<i64>
    ensures { result ≡ word_signed s.now }
{
    match s.strip_prefix(b"-") {
        Some(digits) => negative(decimal_digits(digits)),
        None => positive(decimal_digits(s)),
    }
}
