// What may stand behind an iterated solve: where its trials begin, a limit on their count, and the version of the settings
// whose fractions grade it. What is there stands in this order, and a word that is none of these cannot be read.
#![tactic(auto)]

ghost use Rattle.std.specs.Prelude.{◌^◌, ◌<◌};
ghost use Rattle.options.specs.Options.{ReadsEnd, ReadsStop, ReadsEnded, ReadsVersion, ReadsLimited, ReadsOptions};

use forms::Version;
use iterator::{Beginning, Bracket, Judgement};

#[tactic(auto, unfolding(forms::specs::Forms::read_by))]
fn end_at(line: &[u8], k: u64) -> Result<(i64, Judgement), u64>
    requires { k < 2 ^ 34 }
    ensures { ReadsEnd result k line.now }
{
    let n = numerals::signed_at(line, k).ok_or(k + 1)?;
    let j = forms::judgement_at(line, k + 1).ok_or(k + 2)?;
    Ok((n, j))
}

// LO JLO HI JHI COUNT.
#[tactic(auto, unfolding(forms::specs::Forms::read_by))]
fn bracket_at(line: &[u8], k: u64) -> Result<Bracket, u64>
    requires { k < 2 ^ 33 }
    ensures { ReadsStop result k line.now }
{
    let (lo, below) = end_at(line, k)?;
    let (hi, above) = end_at(line, k + 2)?;
    let count = numerals::whole_at(line, k + 4).ok_or(k + 5)?;
    Ok(Bracket {
        lo,
        hi,
        below,
        above,
        count,
    })
}

// No word more.
#[tactic(auto, unfolding(forms::specs::Forms::read_by))]
fn ended(
    line: &[u8],
    k: u64,
    g: Beginning,
    l: u64,
    v: Version,
) -> Result<(Beginning, u64, Version), u64>
    requires { k < 2 ^ 35 }
    ensures { ReadsEnded result g l v k line.now }
{
    if words::is_end(line, k) {
        return Ok((g, l, v));
    }
    Err(k + 1)
}

// The version, and no word more. Where none is named the fractions are 01's.
#[tactic(auto, unfolding(forms::specs::Forms::read_by))]
fn by_version(line: &[u8], k: u64, g: Beginning, l: u64) -> Result<(Beginning, u64, Version), u64>
    requires { k < 2 ^ 34 }
    ensures { ReadsVersion result g l k line.now }
{
    let w = words::word(line, k);
    if !words::is_word(w, b"version") {
        return ended(line, k, g, l, Version::Standard);
    }
    let behind = k + 2;
    let n = numerals::whole_at(line, k + 1).ok_or(behind)?;
    ended(line, behind, g, l, Version::Named(n))
}

// The limit, and what follows it. Where none stands it is a count that no solve reaches.
#[tactic(auto, unfolding(forms::specs::Forms::read_by))]
fn limited(line: &[u8], k: u64, g: Beginning) -> Result<(Beginning, u64, Version), u64>
    requires { k < 2 ^ 33 }
    ensures { ReadsLimited result g k line.now }
{
    let w = words::word(line, k);
    if !words::is_word(w, b"limit") {
        return by_version(line, k, g, u64::MAX);
    }
    let l = numerals::whole_at(line, k + 1).ok_or(k + 2)?;
    by_version(line, k + 2, g, l)
}

// From the word behind the first k on, to the line's end.
#[tactic(auto, unfolding(forms::specs::Forms::read_by))]
pub fn read(line: &[u8], k: u32) -> Result<(Beginning, u64, Version), u64>
    ensures { ReadsOptions result k line.now }
{
    let at = u64::from(k);
    let w = words::word(line, at);
    if !words::is_word(w, b"from") {
        return limited(line, at, Beginning::Start);
    }
    let b = bracket_at(line, at + 1)?;
    limited(line, at + 6, Beginning::Stopped(b))
}
