// The local offset's record written: first in its session, or not at all.
ghost use Rattle.std.specs.Prelude.{◌≤◌, ◌≡◌, length};
ghost use Rattle.text.specs.Text.{Stands};
ghost use Rattle.session.specs.Offset.{offset_bytes};
ghost use Rattle.writer.specs.Write.{offset_may, offset_written, offset_buffer};

use crate::put::{put_field, short_bits};
use crate::record::has_room;
use refusal::Refusal;
use session::offset_allowed;

fn is_allowed(at: usize, minutes: i16) -> bool
    ensures { result ≡ offset_may at minutes }
{
    at == 0 && offset_allowed(minutes)
}

// The kind and what is behind it, and the length last.
fn put_offset(buf: &mut [u8], minutes: i16) -> usize
    requires { 8 ≤ length buf.old }
    ensures { Stands buf.old 0 (offset_bytes minutes) buf.new result }
{
    let bits = short_bits(minutes);
    let a = put_field(buf, 2, 4, 2);
    let b = put_field(buf, a, bits, 2);
    let c = put_field(buf, b, 0, 2);
    put_field(buf, 0, 8, 2);
    c
}

// The record at the buffer's front, with all else as it was; or a refusal, and the buffer as it was.
pub fn write_offset(buf: &mut [u8], at: usize, minutes: i16) -> Result<usize, Refusal>
    ensures { (result ≡ offset_written buf.old at minutes) × (buf.new ≡ offset_buffer buf.old at minutes) }
{
    if !is_allowed(at, minutes) {
        return Err(Refusal::NotAllowed);
    }
    if !has_room(at, 8, buf.len()) {
        return Err(Refusal::NoRoom);
    }
    Ok(put_offset(buf, minutes))
}
