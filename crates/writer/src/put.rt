// Fields, little-endian, put into a lent buffer that has the room.
ghost use Rattle.std.specs.Prelude.{◌+◌, ◌≤◌, ◌≡◌, length};
ghost use Rattle.std.specs.Float.Ieee.{to_bits};
ghost use Rattle.std.specs.Float.{binary64};
ghost use Rattle.field.specs.Bytes.{bytes_le, short_bits};
ghost use Rattle.text.specs.Text.{Stands};

// The w bytes of n from o on, the least significant first, where they are known to fit.
pub fn put_field(buf: &mut [u8], o: usize, n: u64, w: usize) -> usize
    requires { o + w ≤ length buf.old }
    ensures { Stands buf.old o (bytes_le w n) buf.new result }
{
    field::put(buf, o, n, w)
}

// The 16 bits of a signed number.
pub fn short_bits(z: i16) -> u64
    ensures { result ≡ short_bits z }
{
    field::bits_of(z as i64) % 65536
}

// The bits of a number, where they are known to fit.
pub fn put_number(p: &mut [u8], o: usize, x: f64) -> usize
    requires { o + 8 ≤ length p.old }
    ensures { Stands p.old o (bytes_le 8 (to_bits binary64 x)) p.new result }
{
    field::put_float(p, o, x)
}
