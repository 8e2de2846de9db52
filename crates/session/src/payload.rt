// The payload: the numbers behind the header.
ghost use Rattle.std.specs.Prelude.{◌+◌, ◌*◌, ◌≤◌, ◌≡◌, length};
ghost use Rattle.session.specs.Layout.{number_at, numbers_from, all_finite};

use real::is_finite;

// Number i behind the header.
pub fn number(s: &[u8], i: usize) -> f64
    requires { 14 + 8 * i ≤ length s.now }
    ensures { result ≡ number_at s.now i }
{
    field::float(field::read(s, 14 + 8 * i, 8))
}

// Whether the first n numbers behind the header are finite.
pub fn are_finite(s: &[u8], n: usize) -> bool
    requires { 14 + 8 * n ≤ length s.now }
    ensures { result ≡ all_finite (numbers_from 0 n s.now) }
{
    for i in 0..n {
        if !is_finite(number(s, i)) {
            return false;
        }
    }
    true
}
