// Numbers in a row, put into a lent buffer at a place: to six places for people, and at the line's end their bits.
// A refusal and a word that cannot be read, as lines. Each routine answers the place behind what it put, or
// text::NOWHERE where not all of it fits.
#![tactic(auto)]

ghost use Rattle.text.specs.Text.{Put};
ghost use Rattle.text.specs.Pieces.{Laid};
ghost use Rattle.columns.specs.Rows.{figure_text, row_pieces, labelled_pieces, end_pieces, counted_pieces, refused_pieces, unread_pieces};

use refusal::Numbered;

// A number to six places, or its bits.
#[derive(Clone, Copy)]
pub enum Style {
    Places,
    Bits,
}

fn figure(buf: &mut [u8], at: usize, style: Style, x: f64) -> usize
    ensures { Put buf.old at (figure_text style x) buf.new result }
{
    match style {
        Style::Places => figures::fixed(buf, at, x),
        Style::Bits => figures::bits(buf, at, x),
    }
}

// The numbers, a blank before each.
pub fn row(buf: &mut [u8], at: usize, style: Style, xs: &[f64]) -> usize
    ensures { Laid buf.old at (row_pieces style xs.now) buf.new result }
{
    let mut e = at;
    for x in xs {
        e = text::byte(buf, e, b' ');
        e = figure(buf, e, style, *x);
    }
    e
}

// A label, and numbers to six places.
pub fn labelled(buf: &mut [u8], at: usize, label: &[u8], xs: &[f64]) -> usize
    ensures { Laid buf.old at (labelled_pieces label.now xs.now) buf.new result }
{
    let e = text::bytes(buf, at, label);
    row(buf, e, Style::Places, xs)
}

// The end of a line of numbers: the bits of them all.
pub fn end(buf: &mut [u8], at: usize, xs: &[f64]) -> usize
    ensures { Laid buf.old at (end_pieces xs.now) buf.new result }
{
    let a = text::bytes(buf, at, b" bits");
    let b = row(buf, a, Style::Bits, xs);
    text::byte(buf, b, b'\n')
}

// A word and a whole number, at the front.
fn counted(buf: &mut [u8], word: &[u8], n: u64) -> usize
    ensures { Laid buf.old 0 (counted_pieces word.now n) buf.new result }
{
    let a = text::bytes(buf, 0, word);
    let b = text::number(buf, a, n);
    text::byte(buf, b, b'\n')
}

// The line of a refusal.
pub fn refused<R: Numbered>(buf: &mut [u8], refusal: R) -> usize
    ensures { Laid buf.old 0 (refused_pieces (R.its_number refusal)) buf.new result }
{
    counted(buf, b"refused ", u64::from(refusal.to_number()))
}

// The line of a word that cannot be read.
pub fn unread(buf: &mut [u8], word: u64) -> usize
    ensures { Laid buf.old 0 (unread_pieces word) buf.new result }
{
    counted(buf, b"unread ", word)
}
