// The front door for C, as in `library`: the listing's lines.
#![tactic(auto)]

ghost use Rattle.std.specs.Prelude.{◌≡◌, leb, length};
ghost use Rattle.lines.specs.Lines.{line_room, heading_text, refused_text};
ghost use Rattle.lent.specs.Given.{GivenWholes, in_front, bytes_after};
ghost use Rattle.library_lines.specs.Listing.{by_number, GivenMade, line_in, record_line, record_line_in};

use lent::put_wholes;
use library_records::record_from;
use refusal::Refusal;

// A refusal as its number.
pub fn by_number(a: Result<usize, Refusal>) -> Result<usize, u32>
    ensures { result ≡ by_number a }
{
    a.map_err(|r| r.number())
}

// The length of a line that was made, or the number of the refusal, whatever number it is.
pub fn give_made(a: Result<usize, u32>, whole: &mut [u64]) -> u32
    ensures { GivenMade (leb 1 (length whole.old)) a whole.old whole.new result }
{
    if whole.len() < 1 {
        return 15;
    }
    match a {
        Ok(n) => {
            let zs = [n as u64];
            put_wholes(whole, &zs);
            0
        }
        Err(n) => n,
    }
}

pub fn cabin_heading(line: &mut [u8], whole: &mut [u64]) -> u32
    ensures { (GivenWholes (line_in line_room heading_text line.old whole.old) whole.old whole.new result) × (line.new ≡ bytes_after (line_in line_room heading_text line.old whole.old) (in_front heading_text line.old) line.old) }
{
    if whole.len() < 1 {
        return 15;
    }
    give_made(by_number(lines::heading(line)), whole)
}

pub fn cabin_refused_line(number: u8, at: u64, line: &mut [u8], whole: &mut [u64]) -> u32
    ensures { (GivenWholes (line_in line_room (refused_text number at) line.old whole.old) whole.old whole.new result) × (line.new ≡ bytes_after (line_in line_room (refused_text number at) line.old whole.old) (in_front (refused_text number at) line.old) line.old) }
{
    if whole.len() < 1 {
        return 15;
    }
    give_made(by_number(lines::refused_line(line, number, at)), whole)
}

pub fn cabin_record_line(
    kind: u64,
    vehicle: u8,
    time: i64,
    offset: i16,
    line: &mut [u8],
    whole: &mut [u64],
) -> u32
    ensures { (GivenWholes (record_line_in kind (record_line kind vehicle time offset) line.old whole.old) whole.old whole.new result) × (line.new ≡ bytes_after (record_line_in kind (record_line kind vehicle time offset) line.old whole.old) (in_front (record_line kind vehicle time offset) line.old) line.old) }
{
    if whole.len() < 1 {
        return 15;
    }
    if kind < 1 {
        return 13;
    }
    if kind > 3 {
        return 13;
    }
    let none = [0.0];
    let r = record_from(kind, vehicle, 0, time, &none);
    give_made(by_number(lines::record_line(line, r, offset)), whole)
}
