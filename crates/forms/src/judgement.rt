// A judgement as a word.
ghost use Rattle.std.specs.Prelude.{◌≡◌};
ghost use Rattle.forms.specs.Judgements.{as_low, as_high, word_judgement};

use iterator::Judgement;

fn low(x: Option<f64>) -> Option<Judgement>
    ensures { result ≡ as_low x }
{
    x.map(Judgement::Low)
}

fn high(x: Option<f64>) -> Option<Judgement>
    ensures { result ≡ as_high x }
{
    x.map(Judgement::High)
}

// under, over, low:NUMBER, high:NUMBER.
pub fn read_judgement(s: &[u8]) -> Option<Judgement>
    ensures { result ≡ word_judgement s.now }
{
    if words::is_word(s, b"under") {
        return Some(Judgement::Under);
    }
    if words::is_word(s, b"over") {
        return Some(Judgement::Over);
    }
    if let Some(end) = s.strip_prefix(b"low:") {
        return low(numerals::read_number(end));
    }
    if let Some(end) = s.strip_prefix(b"high:") {
        return high(numerals::read_number(end));
    }
    None
}
