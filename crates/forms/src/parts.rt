// Parts of a line behind its first k words, each word read once: what they say, or the number of the first word that
// cannot be read, the line's first word being 1.
ghost use Rattle.std.specs.Prelude.{◌+◌, ◌≡◌};
ghost use Rattle.words.specs.Words.{word_at};
ghost use Rattle.numerals.specs.Numbers.{word_number};
ghost use Rattle.forms.specs.Judgements.{word_judgement};
ghost use Rattle.forms.specs.Forms.{end, read_by};
ghost use Rattle.forms.specs.Parts.{Numbers, OnlyNumbers, filled, ReadsNumbers, ReadsOnly, ReadsEnds, ReadsSides};

use crate::Request;
use crate::judgement::read_judgement;
use iterator::Judgement;

pub fn number_at(line: &[u8], k: u64) -> Option<f64>
    ensures { result ≡ word_number (word_at k line.now) }
{
    numerals::read_number(words::word(line, k))
}

// Numbers, as many as there is room for. From the first word that is none on, the room stays as it was.
pub fn numbers(line: &[u8], k: u32, xs: &mut [f64]) -> Result<(), u64>
    ensures read { Numbers xs.new k result line.now }
    ensures left { xs.new ≡ filled k line.now xs.old }
{
    for (i, x) in xs.iter_mut().enumerate() {
        let at = u64::from(k) + i as u64;
        *x = number_at(line, at).ok_or(at + 1)?;
    }
    Ok(())
}

// The same, and no word more.
pub fn only_numbers(line: &[u8], k: u32, xs: &mut [f64]) -> Result<(), u64>
    ensures read { OnlyNumbers xs.new k result line.now }
    ensures left { xs.new ≡ filled k line.now xs.old }
{
    numbers(line, k, xs)?;
    let at = u64::from(k) + xs.len() as u64;
    if words::is_end(line, at) {
        return Ok(());
    }
    Err(at + 1)
}

// N numbers.
pub fn numbers_as_array<const N: usize>(line: &[u8], k: u32) -> Result<[f64; N], u64>
    ensures { ReadsNumbers N result k line.now }
{
    let mut xs = [0.0; N];
    numbers(line, k, &mut xs)?;
    Ok(xs)
}

// The same, and no word more.
pub fn only_numbers_as_array<const N: usize>(line: &[u8], k: u32) -> Result<[f64; N], u64>
    ensures { ReadsOnly N result k line.now }
{
    let mut xs = [0.0; N];
    only_numbers(line, k, &mut xs)?;
    Ok(xs)
}

// What is asked, where the line has no word more behind the first k.
#[tactic(auto, unfolding(crate::specs::Forms::read_by))]
pub fn only(line: &[u8], k: u32, asked: Request) -> Result<Request, u64>
    ensures { result ≡ read_by (end asked) k line.now }
{
    let behind = u64::from(k);
    if words::is_end(line, behind) {
        return Ok(asked);
    }
    Err(behind + 1)
}

pub fn judgement_at(line: &[u8], k: u64) -> Option<Judgement>
    ensures { result ≡ word_judgement (word_at k line.now) }
{
    read_judgement(words::word(line, k))
}

#[tactic(auto, unfolding(crate::specs::Forms::read_by))]
pub fn ends_at(line: &[u8], k: u32) -> Result<(i64, i64), u64>
    ensures { ReadsEnds result k line.now }
{
    let at = u64::from(k);
    let lo = numerals::signed_at(line, at).ok_or(at + 1)?;
    let hi = numerals::signed_at(line, at + 1).ok_or(at + 2)?;
    Ok((lo, hi))
}

#[tactic(auto, unfolding(crate::specs::Forms::read_by))]
pub fn sides_at(line: &[u8], k: u32) -> Result<(Judgement, Judgement), u64>
    ensures { ReadsSides result k line.now }
{
    let at = u64::from(k);
    let below = judgement_at(line, at).ok_or(at + 1)?;
    let above = judgement_at(line, at + 1).ok_or(at + 2)?;
    Ok((below, above))
}
