// The record that sets the local offset, ahead of the records of the table.
ghost use Rattle.std.specs.Prelude.{◌≤◌, ◌≡◌, length};
ghost use Rattle.session.specs.Offset.{is_offset, offset_of, decode_at};

use crate::limit::offset_allowed;
use crate::record::{Decoded, decode};
use field::{read, short};
use refusal::Refusal;

fn is_offset(s: &[u8]) -> bool
    ensures { result ≡ is_offset s.now }
{
    s.len() >= 4 && read(s, 2, 2) == 4
}

fn offset_of(first: bool, s: &[u8]) -> Decoded
    requires { 4 ≤ length s.now }
    ensures { result ≡ offset_of first s.now }
{
    if read(s, 0, 2) != 8 {
        return Decoded::Refused(Refusal::WrongLength);
    }
    if s.len() < 8 {
        return Decoded::Refused(Refusal::CutShort);
    }
    let z = short(read(s, 4, 2));
    if first && read(s, 6, 2) == 0 && offset_allowed(z) {
        Decoded::Offset(z)
    } else {
        Decoded::Refused(Refusal::NotAllowed)
    }
}

// The record at the front of s, which is the first of its session or not, with no place and no limit on what is behind it.
pub fn decode_at(first: bool, s: &[u8]) -> Decoded
    ensures { result ≡ decode_at first s.now }
{
    if is_offset(s) {
        offset_of(first, s)
    } else {
        decode(s)
    }
}
