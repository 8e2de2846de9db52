// Numbers put at a place of a lent buffer: the whole of a number where it fits, and no byte of it where it does not. Each
// routine answers the place behind it, or text::NOWHERE.
ghost use Rattle.std.specs.Prelude.{◌+◌, ◌≤◌, length};
ghost use Rattle.std.specs.Float.Ieee.{to_bits};
ghost use Rattle.std.specs.Float.{binary64};
ghost use Rattle.text.specs.Text.{Stands, Put};
ghost use Rattle.field.specs.Bytes.{bytes_le};

fn put_le(buf: &mut [u8], at: usize, n: u64, w: usize) -> usize
    requires { at + w ≤ length buf.old }
    ensures { Stands buf.old at (bytes_le w n) buf.new result }
{
    let end = at + w;
    let mut rest = n;
    for i in at..end {
        buf[i] = (rest % 256) as u8;
        rest /= 256;
    }
    end
}

// The w bytes of n, the least significant first.
pub fn put(buf: &mut [u8], at: usize, n: u64, w: usize) -> usize
    ensures { Put buf.old at (bytes_le w n) buf.new result }
{
    if at > buf.len() || w > buf.len() - at {
        return text::NOWHERE;
    }
    put_le(buf, at, n, w)
}

// The bits of an f64. A NaN has one pattern.
pub fn put_float(buf: &mut [u8], at: usize, x: f64) -> usize
    ensures { Put buf.old at (bytes_le 8 (to_bits binary64 x)) buf.new result }
{
    let bits = if x.is_nan() {
        0x7ff8_0000_0000_0000
    } else {
        x.to_bits()
    };
    put(buf, at, bits, 8)
}
