// A version in its bytes, and the used part: versions 1, 2, 3 on, one behind the other.
ghost use Rattle.std.specs.Prelude.{◌+◌, ◌*◌, ◌≤◌, ◌≡◌, length};
ghost use Rattle.text.specs.Pieces.{Laid};
ghost use Rattle.settings.specs.Layout.{setting_at, is_version, versions_from, are_whole, head_fields, number_pieces, version_fields};

use crate::allowed::{Setting, refusal_of};
use field::{float, put, put_float, read};

// The setting in the bytes of a version.
pub fn setting_of(s: &[u8]) -> Setting
    ensures { result ≡ setting_at s.now }
{
    let body = read(s, 8, 1);
    let mu = float(read(s, 12, 8));
    let radius = float(read(s, 20, 8));
    let closed = float(read(s, 28, 8));
    let fair = float(read(s, 36, 8));
    Setting {
        body,
        mu,
        radius,
        closed,
        fair,
    }
}

// Whether an allowed version k stands at the front of s.
fn is_version(k: u64, s: &[u8]) -> bool
    ensures { result ≡ is_version k s.now }
{
    read(s, 0, 2) == 44
        && read(s, 2, 2) == 5
        && read(s, 4, 4) == k
        && read(s, 9, 3) == 0
        && refusal_of(setting_of(s)).is_none()
}

// Whether versions 1 to n stand at the front of s.
fn are_versions(n: usize, s: &[u8]) -> bool
    requires { 44 * n ≤ length s.now }
    ensures { result ≡ versions_from n 1 s.now }
{
    for i in 0..n {
        if !is_version(i as u64 + 1, &s[44 * i..]) {
            return false;
        }
    }
    true
}

// Whether s is at most 64 whole, allowed versions 1, 2, 3 on, and nothing else.
pub fn is_whole(s: &[u8]) -> bool
    ensures { result ≡ are_whole s.now }
{
    let n = s.len() / 44;
    s.len() % 44 == 0 && n <= 64 && are_versions(n, s)
}

// The header: length, kind, number, body, zero.
fn put_head(buf: &mut [u8], at: usize, k: u64, body: u64) -> usize
    ensures { Laid buf.old at (head_fields k body) buf.new result }
{
    let a = put(buf, at, 44, 2);
    let b = put(buf, a, 5, 2);
    let c = put(buf, b, k, 4);
    let d = put(buf, c, body, 1);
    put(buf, d, 0, 3)
}

fn put_numbers(buf: &mut [u8], at: usize, x: Setting) -> usize
    ensures { Laid buf.old at (number_pieces x) buf.new result }
{
    let a = put_float(buf, at, x.mu);
    let b = put_float(buf, a, x.radius);
    let c = put_float(buf, b, x.closed);
    put_float(buf, c, x.fair)
}

// A setting as version k.
pub fn put_version(buf: &mut [u8], at: usize, k: u64, x: Setting) -> usize
    ensures { Laid buf.old at (version_fields k x) buf.new result }
{
    let a = put_head(buf, at, k, x.body);
    put_numbers(buf, a, x)
}
