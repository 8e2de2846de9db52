// Text put into a lent buffer at a place: the whole of it where it fits, and no byte of it where it does not.
// Each routine answers the place behind the text, or NOWHERE, where no later text fits either.
#![tactic(auto)]

ghost use Rattle.std.specs.Prelude.{◌+◌, ◌%◌, ◌≤◌, ◌<◌, ◌≡◌, [], ◌∷◌, length, leb};
ghost use Rattle.text.specs.Text.{Stands, Put, digit_text, digits, decimal, signed_text};

pub const NOWHERE: usize = 0xffff_ffff_ffff_ffff;

pub fn byte(buf: &mut [u8], at: usize, b: u8) -> usize
    ensures { Put buf.old at (b ∷ []) buf.new result }
{
    if at < buf.len() {
        buf[at] = b;
        at + 1
    } else {
        NOWHERE
    }
}

pub fn bytes(buf: &mut [u8], at: usize, x: &[u8]) -> usize
    ensures { Put buf.old at x.now buf.new result }
{
    if has_room(buf.len(), at, x.len()) {
        copy(buf, at, x)
    } else {
        NOWHERE
    }
}

// n in decimal.
pub fn number(buf: &mut [u8], at: usize, n: u64) -> usize
    ensures { Put buf.old at (decimal n) buf.new result }
{
    let k = count_digits(n, 20);
    if has_room(buf.len(), at, k) {
        put_digits(buf, at, n, k)
    } else {
        NOWHERE
    }
}

// z in decimal, with a minus in front where it is negative.
pub fn signed(buf: &mut [u8], at: usize, z: i64) -> usize
    ensures { Put buf.old at (signed_text z) buf.new result }
{
    let n = signs::magnitude(z);
    if signs::is_negative(z) {
        minus(buf, at, n + 1)
    } else {
        number(buf, at, n)
    }
}

// A minus, and n in decimal.
fn minus(buf: &mut [u8], at: usize, n: u64) -> usize
    ensures { Put buf.old at (45 ∷ decimal n) buf.new result }
{
    let k = count_digits(n, 20);
    if has_room(buf.len(), at, k + 1) {
        let a = put_byte(buf, at, b'-');
        put_digits(buf, a, n, k)
    } else {
        NOWHERE
    }
}

// Whether k bytes from `at` on lie within a buffer of this size.
fn has_room(size: usize, at: usize, k: usize) -> bool
    ensures { result ≡ leb (at + k) size }
{
    at <= size && k <= size - at
}

fn put_byte(buf: &mut [u8], at: usize, b: u8) -> usize
    requires { at < length buf.old }
    ensures { Stands buf.old at (b ∷ []) buf.new result }
{
    buf[at] = b;
    at + 1
}

fn copy(buf: &mut [u8], at: usize, x: &[u8]) -> usize
    requires { at + length x.now ≤ length buf.old }
    ensures { Stands buf.old at x.now buf.new result }
{
    for i in 0..x.len() {
        buf[at + i] = x[i];
    }
    at + x.len()
}

// How many decimal digits n has, of which `left` are counted at most.
fn count_digits(n: u64, left: usize) -> usize
    ensures { result ≡ length (digits left n) }
{
    if left == 0 {
        return 0;
    }
    if n < 10 {
        return 1;
    }
    count_digits(n / 10, left - 1) + 1
}

// The k decimal digits of n, the last one first: the count has settled their places.
fn put_digits(buf: &mut [u8], at: usize, n: u64, k: usize) -> usize
    requires { (k ≡ length (decimal n)) × (at + k ≤ length buf.old) }
    ensures { Stands buf.old at (decimal n) buf.new result }
{
    let mut m = n;
    for i in (0..k).rev() {
        buf[at + i] = b'0' + (m % 10) as u8;
        m /= 10;
    }
    at + k
}

// The last digit of n to base 16.
pub fn digit(n: u64) -> u8
    ensures { result ≡ digit_text (n % 16) }
{
    let d = (n % 16) as u8;
    if d < 10 { b'0' + d } else { b'A' - 10 + d }
}
