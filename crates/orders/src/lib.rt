// What the settings are asked, in the words of a line: `list`, `show K`, `store BODY MU RADIUS CLOSED FAIR`, `back K`.
#![tactic(auto)]

ghost use Rattle.std.specs.Prelude.{◌≡◌};
ghost use Rattle.words.specs.Words.{word_at};
ghost use Rattle.numerals.specs.Numbers.{word_number};
ghost use Rattle.orders.specs.Orders.{ended, version_order, fractions_order, store_order, order_by, order_of};

use numerals::{read_number, whole_at};
use settings::Setting;
use words::{is_word, word};

#[derive(Clone, Copy)]
pub enum Order {
    List,
    Show(u64),
    Store(Setting),
    Back(u64),
}

// What is asked, where the line has no word more behind the first k.
fn only(line: &[u8], k: u32, o: Order) -> Result<Order, u64>
    ensures { result ≡ ended k line.now o }
{
    let at = u64::from(k);
    if word(line, at).is_empty() {
        return Ok(o);
    }
    Err(at + 1)
}

// A version's number, to look at it or to go back to it.
#[tactic(auto, unfolding(crate::specs::Orders::numbered_by))]
fn numbered(line: &[u8], back: bool) -> Result<Order, u64>
    ensures { result ≡ version_order back line.now }
{
    let n = whole_at(line, 1).ok_or(2u64)?;
    if back {
        return only(line, 2, Order::Back(n));
    }
    only(line, 2, Order::Show(n))
}

fn number_at(line: &[u8], k: u64) -> Option<f64>
    ensures { result ≡ word_number (word_at k line.now) }
{
    read_number(word(line, k))
}

fn fractions(line: &[u8], body: u64, mu: f64, radius: f64) -> Result<Order, u64>
    ensures { result ≡ fractions_order body mu radius line.now }
{
    let closed = number_at(line, 4).ok_or(5u64)?;
    let fair = number_at(line, 5).ok_or(6u64)?;
    let x = Setting {
        body,
        mu,
        radius,
        closed,
        fair,
    };
    only(line, 6, Order::Store(x))
}

fn setting(line: &[u8]) -> Result<Order, u64>
    ensures { result ≡ store_order line.now }
{
    let body = whole_at(line, 1).ok_or(2u64)?;
    let mu = number_at(line, 2).ok_or(3u64)?;
    let radius = number_at(line, 3).ok_or(4u64)?;
    fractions(line, body, mu, radius)
}

#[tactic(auto, unfolding(crate::specs::Orders::order_by))]
fn named(name: &[u8], line: &[u8]) -> Result<Order, u64>
    ensures { result ≡ order_by name.now line.now }
{
    if is_word(name, b"list") {
        return only(line, 1, Order::List);
    }
    if is_word(name, b"show") {
        return numbered(line, false);
    }
    if is_word(name, b"store") {
        return setting(line);
    }
    if is_word(name, b"back") {
        return numbered(line, true);
    }
    Err(1)
}

// What a line asks, or the number of its first word that cannot be read, the line's first word being 1.
pub fn read(line: &[u8]) -> Result<Order, u64>
    ensures { result ≡ order_of line.now }
{
    named(word(line, 0), line)
}
