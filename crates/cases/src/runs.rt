// A stopped run, handed out and handed in again.
ghost use Rattle.std.specs.Prelude.{◌≡◌, ◌∷◌};
ghost use Rattle.field.specs.Bytes.{bits_of};
ghost use Rattle.lent.specs.Given.{put_in};
ghost use Rattle.cases.specs.Cases.{stopped_numbers, stopped_wholes, bracket_from, beginning_from, run_short, run_misjudged};

use crate::judgement_from;
use field::bits_of;
use iterator::{Beginning, Bracket, carried, judgement_number};
use lent::{number_at, put_numbers, put_wholes, word_at};

fn lo_of(b: Bracket) -> u64
    ensures { result ≡ bits_of b.lo }
{
    bits_of(b.lo)
}

fn hi_of(b: Bracket) -> u64
    ensures { result ≡ bits_of b.hi }
{
    bits_of(b.hi)
}

// The two times.
pub fn put_times(out: &mut [f64], b: Bracket)
    ensures { out.new ≡ put_in (stopped_numbers b) out.old }
{
    let below = b.below;
    let above = b.above;
    let xs = [carried(below), carried(above)];
    put_numbers(out, &xs);
}

// The case, 1, and the five words.
pub fn put_words(whole: &mut [u64], b: Bracket)
    ensures { whole.new ≡ put_in (1 ∷ stopped_wholes b) whole.old }
{
    let below = b.below;
    let above = b.above;
    let zs = [
        1,
        lo_of(b),
        judgement_number(below),
        hi_of(b),
        judgement_number(above),
        b.count,
    ];
    put_wholes(whole, &zs);
}

fn bracket_from(from: &[u64], times: &[f64]) -> Bracket
    ensures { result ≡ bracket_from from.now times.now }
{
    let lo = field::signed(word_at(from, 0));
    let below = judgement_from(word_at(from, 1), number_at(times, 0));
    let hi = field::signed(word_at(from, 2));
    let above = judgement_from(word_at(from, 3), number_at(times, 1));
    let count = word_at(from, 4);
    Bracket {
        lo,
        hi,
        below,
        above,
        count,
    }
}

pub fn beginning_from(from: &[u64], times: &[f64]) -> Beginning
    ensures { result ≡ beginning_from from.now times.now }
{
    if from.len() < 1 {
        return Beginning::Start;
    }
    Beginning::Stopped(bracket_from(from, times))
}

// A run that is handed in is five words and two times; no word at all is none.
pub fn run_short(from: &[u64], times: &[f64]) -> bool
    ensures { result ≡ run_short from.now times.now }
{
    if from.len() < 1 {
        return false;
    }
    if from.len() < 5 {
        return true;
    }
    times.len() < 2
}

// One of its judgements is none of the four.
pub fn run_misjudged(from: &[u64]) -> bool
    ensures { result ≡ run_misjudged from.now }
{
    if word_at(from, 1) > 3 {
        return true;
    }
    word_at(from, 3) > 3
}
