// Lines of an input that comes in parts. The front of a line whose newline is still to come is kept in a lent room, as
// much of it as the room has bytes.
#![tactic(auto)]

ghost use Rattle.std.specs.Prelude.{◌≡◌, drop};
ghost use Rattle.split.specs.Split.{found_of, room_of};

// A line with its length in the room and the place behind its newline in the part; or the part has no newline more, and
// so many bytes are kept.
#[derive(Clone, Copy)]
pub enum Found {
    Line(usize, usize),
    Kept(usize),
}

// The next line that ends in the part from a place on, behind the bytes kept of it.
pub fn next_line(room: &mut [u8], kept: usize, part: &[u8], from: usize) -> Found
    ensures { (result ≡ found_of room.old kept from (drop from part.now)) × (room.new ≡ room_of room.old kept (drop from part.now)) }
{
    let mut k = kept;
    for i in from..part.len() {
        let b = part[i];
        if b == b'\n' {
            return Found::Line(k, i + 1);
        }
        if k < room.len() {
            room[k] = b;
            k += 1;
        }
    }
    Found::Kept(k)
}
