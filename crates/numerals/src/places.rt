// A word of a line as a whole number.
ghost use Rattle.std.specs.Prelude.{◌≡◌};
ghost use Rattle.words.specs.Words.{word_at};
ghost use Rattle.numerals.specs.Numbers.{word_whole, word_signed};

use crate::digits::{read_signed, read_whole};

// The word behind the first k words of the line.
pub fn whole_at(line: &[u8], k: u64) -> Option<u64>
    ensures { result ≡ word_whole (word_at k line.now) }
{
    read_whole(words::word(line, k))
}

// The same, with its sign.
pub fn signed_at(line: &[u8], k: u64) -> Option<i64>
    ensures { result ≡ word_signed (word_at k line.now) }
{
    read_signed(words::word(line, k))
}
