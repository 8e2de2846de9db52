// A test of the refusal table as a person reads it: the number's name, its amount, what it must be, and its bits.
#![tactic(auto)]

ghost use Rattle.std.specs.Prelude.{◌≡◌, ◌∷◌};
ghost use Rattle.text.specs.Text.{Put};
ghost use Rattle.text.specs.Pieces.{Laid};
ghost use Rattle.limits.specs.Limits.{is_power, power_pieces, other_pieces, bound_pieces, size_pieces, limit_pieces, exact_of, amount_pieces, failed_pieces};

use refusal::Numbered;
use table::{Entry, Limit};

const FIFTY_BELOW: f64 = -50.0;

#[tactic(auto, unfolding(crate::specs::Limits::is_power))]
fn is_power(b: u64) -> bool
    ensures { result ≡ is_power b }
{
    let e = b / 4503599627370496;
    b % 4503599627370496 == 0 && e >= 1 && e < 2047
}

fn power(buf: &mut [u8], at: usize, e: u64) -> usize
    ensures { Laid buf.old at (power_pieces e) buf.new result }
{
    if e >= 1023 {
        let a = text::bytes(buf, at, b"2^");
        return text::number(buf, a, e - 1023);
    }
    let a = text::bytes(buf, at, b"2^-");
    text::number(buf, a, 1023 - e)
}

fn other(buf: &mut [u8], at: usize, x: f64) -> usize
    ensures { Laid buf.old at (other_pieces x) buf.new result }
{
    if x != x {
        return figures::fixed(buf, at, x);
    }
    let b: u64 = f64::to_bits(x);
    if is_power(b) {
        return power(buf, at, b / 4503599627370496);
    }
    figures::fixed(buf, at, x)
}

fn bound(buf: &mut [u8], at: usize, x: f64) -> usize
    ensures { Laid buf.old at (bound_pieces x) buf.new result }
{
    if x == 0.0 {
        return text::bytes(buf, at, b"0");
    }
    if x == 40.0 {
        return text::bytes(buf, at, b"40");
    }
    if x == FIFTY_BELOW {
        return text::bytes(buf, at, b"-50");
    }
    other(buf, at, x)
}

fn bounded(buf: &mut [u8], at: usize, word: &[u8], b: f64) -> usize
    ensures { Laid buf.old at (word.now ∷ bound_pieces b) buf.new result }
{
    let a = text::bytes(buf, at, word);
    bound(buf, a, b)
}

fn sized(buf: &mut [u8], at: usize, word: &[u8], b: f64) -> usize
    ensures { Laid buf.old at (size_pieces word.now b) buf.new result }
{
    let a = bounded(buf, at, word, b);
    text::bytes(buf, a, b" in size")
}

fn limit(buf: &mut [u8], at: usize, l: Limit) -> usize
    ensures { Laid buf.old at (limit_pieces l) buf.new result }
{
    match l {
        Limit::Finite => text::bytes(buf, at, b"finite"),
        Limit::AtLeast(b) => bounded(buf, at, b"at least ", b),
        Limit::AtMost(b) => bounded(buf, at, b"at most ", b),
        Limit::Under(b) => bounded(buf, at, b"under ", b),
        Limit::Over(b) => bounded(buf, at, b"over ", b),
        Limit::SizeAtMost(b) => sized(buf, at, b"at most ", b),
        Limit::SizeUnder(b) => sized(buf, at, b"under ", b),
        Limit::OneWithin(b) => bounded(buf, at, b"1 within ", b),
    }
}

// The bits of an amount, which may be a NaN.
fn exact(buf: &mut [u8], at: usize, x: f64) -> usize
    ensures { Put buf.old at (exact_of x) buf.new result }
{
    if x != x {
        return text::bytes(buf, at, b"x7FF8000000000000");
    }
    figures::bits(buf, at, x)
}

fn amount(buf: &mut [u8], at: usize, x: f64) -> usize
    ensures { Laid buf.old at (amount_pieces x) buf.new result }
{
    let a = text::byte(buf, at, b' ');
    let b = figures::fixed(buf, a, x);
    text::bytes(buf, b, b" must be ")
}

// A test that fails, put into a lent buffer at a place.
pub fn failed<R: Numbered>(buf: &mut [u8], at: usize, e: Entry<R>) -> usize
    ensures { Laid buf.old at (failed_pieces e) buf.new result }
{
    let n = e.name;
    let p = e.part;
    let l = e.limit;
    let a = names::name(buf, at, n, p);
    let b = amount(buf, a, e.amount);
    let c = limit(buf, b, l);
    let d = text::bytes(buf, c, b" bits ");
    exact(buf, d, e.amount)
}
