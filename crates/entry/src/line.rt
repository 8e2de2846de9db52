// The lines, by their first word.
ghost use Rattle.std.specs.Prelude.{◌≡◌};
ghost use Rattle.entry.specs.Entries.{ended, offset_entry, bodied, state_entry, burn_entry, mark_entry, named_of, entry_of};

use crate::parts::{pair_at, stamp_at, vector_at};
use vector::{State, Vector};

// What a line says. A line with no word and a comment say nothing. What is read may still not be allowed: it is as large
// as its word says.
#[derive(Clone, Copy)]
pub enum Entry {
    Nothing,
    Offset(i64),
    State {
        time: i64,
        vehicle: u64,
        body: u64,
        state: State,
    },
    Burn {
        time: i64,
        vehicle: u64,
        change: Vector,
    },
    Mark {
        time: i64,
        vehicle: u64,
        range: f64,
        rate: f64,
    },
}

// What is said, if no word stands behind the first k.
#[tactic(auto, unfolding(crate::specs::Entries::ended))]
fn only(line: &[u8], k: u32, e: Entry) -> Result<Entry, u64>
    ensures { result ≡ ended k line.now e }
{
    let at = u64::from(k);
    if words::is_end(line, at) {
        return Ok(e);
    }
    Err(at + 1)
}

fn offset(line: &[u8]) -> Result<Entry, u64>
    ensures { result ≡ offset_entry line.now }
{
    let minutes = numerals::signed_at(line, 1).ok_or(2u64)?;
    only(line, 2, Entry::Offset(minutes))
}

// A state behind its time and vehicle.
fn body(line: &[u8], time: i64, vehicle: u64) -> Result<Entry, u64>
    ensures { result ≡ bodied time vehicle line.now }
{
    let body = numerals::whole_at(line, 3).ok_or(4u64)?;
    let r = vector_at(line, 4)?;
    let v = vector_at(line, 7)?;
    let state = State {
        rx: r.x,
        ry: r.y,
        rz: r.z,
        vx: v.x,
        vy: v.y,
        vz: v.z,
    };
    only(
        line,
        10,
        Entry::State {
            time,
            vehicle,
            body,
            state,
        },
    )
}

fn state(line: &[u8]) -> Result<Entry, u64>
    ensures { result ≡ state_entry line.now }
{
    let (time, vehicle) = stamp_at(line)?;
    body(line, time, vehicle)
}

fn burn(line: &[u8]) -> Result<Entry, u64>
    ensures { result ≡ burn_entry line.now }
{
    let (time, vehicle) = stamp_at(line)?;
    let change = vector_at(line, 3)?;
    only(
        line,
        6,
        Entry::Burn {
            time,
            vehicle,
            change,
        },
    )
}

fn mark(line: &[u8]) -> Result<Entry, u64>
    ensures { result ≡ mark_entry line.now }
{
    let (time, vehicle) = stamp_at(line)?;
    let (range, rate) = pair_at(line, 3)?;
    only(
        line,
        5,
        Entry::Mark {
            time,
            vehicle,
            range,
            rate,
        },
    )
}

fn named(name: &[u8], line: &[u8]) -> Result<Entry, u64>
    ensures { result ≡ named_of name.now line.now }
{
    if words::is_word(name, b"offset") {
        return offset(line);
    }
    if words::is_word(name, b"state") {
        return state(line);
    }
    if words::is_word(name, b"burn") {
        return burn(line);
    }
    if words::is_word(name, b"mark") {
        return mark(line);
    }
    Err(1)
}

// What a line says, or the number of its first word that cannot be read; 0 for a line of over 1,000 bytes. The line is
// without its newline.
#[tactic(auto, unfolding(crate::specs::Entries::entry_of))]
pub fn read(line: &[u8]) -> Result<Entry, u64>
    ensures { result ≡ entry_of line.now }
{
    if words::starts_with(line, b"#") {
        return Ok(Entry::Nothing);
    }
    if line.len() > 1000 {
        return Err(0);
    }
    let name = words::word(line, 0);
    if name.is_empty() {
        return Ok(Entry::Nothing);
    }
    named(name, line)
}
