// Numbers as text, put into a lent buffer at a place: six places for people, and the exact bits.
// Each routine answers the place behind the text, or text::NOWHERE where it does not fit; the buffer is then as it was.
#![tactic(auto)]

ghost use Rattle.std.specs.Prelude.{◌+◌, ◌*◌, ◌^◌, ◌/◌, ◌%◌, ◌≤◌, ◌<◌, ◌≡◌, length};
ghost use Rattle.text.specs.Text.{Stands, Put};
ghost use Rattle.figures.specs.Figures.{places, minus_text, millionths, fixed_of, bits_text};
ghost use Rattle.figures.specs.Millionths.{millionths_of};

// The last k digits of n to a base, the last one first.
fn put_places(buf: &mut [u8], at: usize, n: u64, base: u64, k: usize) -> usize
    requires { (at + k ≤ length buf.old) × (1 ≤ base) × (base ≤ 16) }
    ensures { Stands buf.old at (places base k n) buf.new result }
{
    let mut m = n;
    for i in (0..k).rev() {
        buf[at + i] = text::digit(m % base);
        m /= base;
    }
    at + k
}

// The millionths in the size of the number whose bits are b, below 2^43: the significand's product with 10^6 has up to
// 73 digits to base 2, of which at least 10 fall away.
fn count_millionths(b: u64) -> u64
    requires { b < 4800837202776948736 }
    ensures { (result ≡ millionths_of b) × (result < 2 ^ 63) }
{
    let e = b / 4503599627370496;
    let f = b % 4503599627370496;
    if e == 0 {
        return shifted(f, 1064);
    }
    shifted(f + 4503599627370496, 1065 - e)
}

// m * 10^6 / 2^(10 + t), cut.
fn shifted(m: u64, t: u64) -> u64
    requires { m < 9007199254740992 }
    ensures { (result ≡ m * 1000000 / 2 ^ (10 + t)) × (result < 2 ^ 63) }
{
    let h = m / 1024 * 1000000 + m % 1024 * 1000000 / 1024;
    if t >= 64 {
        return 0;
    }
    h >> t
}

// A sign and n millionths, at the front.
fn put_millionths(buf: &mut [u8], minus: bool, n: u64) -> usize
    requires { (24 ≤ length buf.old) × (n < 2 ^ 63) }
    ensures { Stands buf.old 0 (millionths minus n) buf.new result }
{
    let a = sign(buf, minus);
    let b = text::number(buf, a, n / 1000000);
    let c = text::byte(buf, b, b'.');
    put_places(buf, c, n, 10, 6)
}

fn sign(buf: &mut [u8], minus: bool) -> usize
    requires { 1 ≤ length buf.old }
    ensures { Stands buf.old 0 (minus_text minus) buf.new result }
{
    if minus {
        return text::byte(buf, 0, b'-');
    }
    0
}

// x to six places, cut towards zero; a size of 2^43 or more is `large`.
pub fn fixed(buf: &mut [u8], at: usize, x: f64) -> usize
    ensures { Put buf.old at (fixed_of x) buf.new result }
{
    if x != x {
        return text::bytes(buf, at, b"nan");
    }
    let b: u64 = f64::to_bits(x);
    let size = b % 9223372036854775808;
    if size >= 4800837202776948736 {
        return text::bytes(buf, at, b"large");
    }
    let mut line = [0u8; 24];
    let n = put_millionths(&mut line, b >= 9223372036854775808, count_millionths(size));
    text::bytes(buf, at, &line[..n])
}

// `x` and the 16 hex digits of the bits.
pub fn bits(buf: &mut [u8], at: usize, x: f64) -> usize
    ensures { Put buf.old at (bits_text x) buf.new result }
{
    if x != x {
        return text::bytes(buf, at, b"nan");
    }
    let b: u64 = f64::to_bits(x);
    let mut line = [0u8; 17];
    let a = text::byte(&mut line, 0, b'x');
    let n = put_places(&mut line, a, b, 16, 16);
    text::bytes(buf, at, &line[..n])
}
