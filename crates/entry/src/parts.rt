// Parts of a line behind its first k words, each word read once: what they say, or the number of the first word that
// cannot be read, the line's first word being 1.
ghost use Rattle.std.specs.Prelude.{◌≡◌};
ghost use Rattle.words.specs.Words.{word_at};
ghost use Rattle.numerals.specs.Numbers.{word_number};
ghost use Rattle.entry.specs.Parts.{stamp_of, pair_at, vector_at};

use vector::Vector;

fn number_at(line: &[u8], k: u64) -> Option<f64>
    ensures { result ≡ word_number (word_at k line.now) }
{
    numerals::read_number(words::word(line, k))
}

pub fn stamp_at(line: &[u8]) -> Result<(i64, u64), u64>
    ensures { result ≡ stamp_of line.now }
{
    let time = numerals::signed_at(line, 1).ok_or(2u64)?;
    let vehicle = numerals::whole_at(line, 2).ok_or(3u64)?;
    Ok((time, vehicle))
}

pub fn pair_at(line: &[u8], k: u32) -> Result<(f64, f64), u64>
    ensures { result ≡ pair_at k line.now }
{
    let at = u64::from(k);
    let x = number_at(line, at).ok_or(at + 1)?;
    let y = number_at(line, at + 1).ok_or(at + 2)?;
    Ok((x, y))
}

pub fn vector_at(line: &[u8], k: u32) -> Result<Vector, u64>
    ensures { result ≡ vector_at k line.now }
{
    let at = u64::from(k);
    let (x, y) = pair_at(line, k)?;
    let z = number_at(line, at + 2).ok_or(at + 3)?;
    Ok(Vector { x, y, z })
}
