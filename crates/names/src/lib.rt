// The name of the number that a test looks at, put into a lent buffer at a place.
#![tactic(auto)]

ghost use Rattle.std.specs.Prelude.{◌≡◌, [], ◌∷◌};
ghost use Rattle.text.specs.Text.{Put};
ghost use Rattle.text.specs.Pieces.{Laid};
ghost use Rattle.words.specs.Words.{word_at};
ghost use Rattle.names.specs.Names.{word_text, word_line, name_pieces};

use table::{Name, Part};

// Where a name's word stands in the line of words.
fn place_of(n: Name) -> u64
    ensures { word_at result word_line ≡ word_text n }
{
    match n {
        Name::Mu => 0,
        Name::Position => 1,
        Name::Velocity => 2,
        Name::First | Name::Active => 3,
        Name::Second => 4,
        Name::Normal => 5,
        Name::Time => 6,
        Name::Sin => 7,
        Name::Cos => 8,
        Name::Lo => 9,
        Name::Hi => 10,
        Name::Passive | Name::P => 11,
        Name::Elevation => 12,
        Name::Horizontal => 13,
        Name::Vertical => 14,
        Name::Radius => 15,
        Name::Closed => 16,
        Name::Fair => 17,
        Name::Cross => 18,
        Name::Versine => 19,
        Name::Excess => 20,
        Name::C1 => 21,
        Name::C2 => 22,
        Name::Ratio => 23,
        Name::Cothalf => 24,
        Name::Cot => 25,
        Name::E => 26,
        Name::Den => 27,
        Name::W => 28,
        Name::Radicand => 29,
        Name::X => 30,
        Name::Xi => 31,
        Name::TrialTime => 32,
    }
}

fn word(buf: &mut [u8], at: usize, n: Name) -> usize
    ensures { Put buf.old at (word_text n) buf.new result }
{
    let all =
        b"mu r v a b n t sin cos lo hi p elevation h u radius closed fair |u1xu2| 1-cos cos2+sin2-1 c1 c2 r1/r2 sin/(1-cos) cot e den W radicand x xi time";
    text::bytes(buf, at, words::word(all, place_of(n)))
}

fn component(buf: &mut [u8], at: usize, n: Name, c: u8) -> usize
    ensures { Laid buf.old at (word_text n ∷ (c ∷ []) ∷ []) buf.new result }
{
    let a = word(buf, at, n);
    text::byte(buf, a, c)
}

fn barred(buf: &mut [u8], at: usize, n: Name) -> usize
    ensures { Laid buf.old at (name_pieces n Part.Length) buf.new result }
{
    let a = text::byte(buf, at, b'|');
    let b = word(buf, a, n);
    text::byte(buf, b, b'|')
}

pub fn name(buf: &mut [u8], at: usize, n: Name, p: Part) -> usize
    ensures { Laid buf.old at (name_pieces n p) buf.new result }
{
    match p {
        Part::X => component(buf, at, n, b'x'),
        Part::Y => component(buf, at, n, b'y'),
        Part::Z => component(buf, at, n, b'z'),
        Part::Length => barred(buf, at, n),
        Part::Whole => word(buf, at, n),
    }
}
