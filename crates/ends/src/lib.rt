// A bracket's ends as text: an end with its judgement, and the line of what is amiss with a bracket to go on from.
#![tactic(auto)]

ghost use Rattle.std.specs.Prelude.{◌∷◌};
ghost use Rattle.text.specs.Pieces.{Laid};
ghost use Rattle.brackets.specs.Brackets.{bracket_end_pieces};
ghost use Rattle.ends.specs.Ends.{place_pieces, misjudged_pieces, over_pieces, amiss_pieces};

use iterator::Judgement;
use reason::Amiss;

// A word, an end's place, and its judgement.
pub fn end(buf: &mut [u8], at: usize, word: &[u8], n: i64, j: Judgement) -> usize
    ensures { Laid buf.old at (word.now ∷ bracket_end_pieces n j) buf.new result }
{
    let a = text::bytes(buf, at, word);
    let b = text::byte(buf, a, b' ');
    let c = text::signed(buf, b, n);
    let d = text::byte(buf, c, b' ');
    brackets::judgement(buf, d, j)
}

fn place(buf: &mut [u8], end: &[u8], n: i64, must: &[u8]) -> usize
    ensures { Laid buf.old 0 (place_pieces end.now n must.now) buf.new result }
{
    let a = text::bytes(buf, 0, end);
    let b = text::signed(buf, a, n);
    text::bytes(buf, b, must)
}

fn misjudged(buf: &mut [u8], end: &[u8], n: i64, j: Judgement) -> usize
    ensures { Laid buf.old 0 (misjudged_pieces end.now n j) buf.new result }
{
    let a = text::bytes(buf, 0, end);
    let b = text::signed(buf, a, n);
    let c = text::bytes(buf, b, b" must be ");
    let d = brackets::judgement(buf, c, j);
    text::byte(buf, d, b'\n')
}

fn over(buf: &mut [u8], count: u64, most: u64) -> usize
    ensures { Laid buf.old 0 (over_pieces count most) buf.new result }
{
    let a = text::bytes(buf, 0, b"refused 6 count ");
    let b = text::number(buf, a, count);
    let c = text::bytes(buf, b, b" must be at most ");
    let d = text::number(buf, c, most);
    text::byte(buf, d, b'\n')
}

// The line, at the front.
pub fn amiss(buf: &mut [u8], a: Amiss) -> usize
    ensures { Laid buf.old 0 (amiss_pieces a) buf.new result }
{
    match a {
        Amiss::LoOffGrid(n) => place(buf, b"refused 6 lo ", n, b" must be on the grid\n"),
        Amiss::HiOffGrid(n) => place(buf, b"refused 6 hi ", n, b" must be on the grid\n"),
        Amiss::LoNotUnderHi(n) => place(buf, b"refused 6 lo ", n, b" must be under hi\n"),
        Amiss::LoMisjudged(n, j) => misjudged(buf, b"refused 6 lo ", n, j),
        Amiss::HiMisjudged(n, j) => misjudged(buf, b"refused 6 hi ", n, j),
        Amiss::LoNotBelow(n) => place(buf, b"refused 6 lo ", n, b" must be low or under\n"),
        Amiss::HiNotAbove(n) => place(buf, b"refused 6 hi ", n, b" must be high or over\n"),
        Amiss::CountOver(count, most) => over(buf, count, most),
    }
}
