// A session that comes in parts of whatever length, as over a serial line: the records that end in each part, one at a
// time. The front of an unfinished record, at most 61 bytes, is kept in a lent room of 62.
#![tactic(auto)]

ghost use Rattle.std.specs.Prelude.{◌+◌, ◌-◌, ◌≤◌, ◌<◌, ◌≡◌, true, cond, length, take, drop, ltb};
ghost use Rattle.text.specs.Text.{Stands};
ghost use Rattle.refusal.specs.Refusals.{number_of};
ghost use Rattle.session.specs.Limits.{offset_allowed};
ghost use Rattle.session.specs.declared.record.Decoded.TheVariants as D;
ghost use Rattle.stream.specs.Stream.{most_bytes, found_at, is_cut, is_sound, step_open, room_open, step_on, room_on, step_of, room_of, finish_of};

use refusal::Refusal;
use session::{Decoded, Place, Record};

// The greatest count of bytes.
const LIMIT: usize = 0x7fff_ffff_ffff_ffff;

// Where the reader stands: it goes on, with the place of the unfinished record from the start of the session, the local
// offset there, and how many of the record's bytes are kept; or it has stopped, with its last answer.
#[derive(Clone, Copy)]
pub enum Standing {
    Open(Place, usize),
    Refused(u8, usize),
    Ended,
}

// A record or the offset's record, the place behind it in the session, where the reader is open with nothing kept, and
// the place behind it in the part; or no more from this part: an open reader waits for the next.
#[derive(Clone, Copy)]
pub enum Step {
    Record(Record, Place, usize),
    Offset(Place, usize),
    Stopped(Standing),
}

// The next record that ends in the part, from a place on.
pub fn take_next(state: Standing, room: &mut [u8], part: &[u8], from: usize) -> Step
    ensures { (result ≡ step_of state room.old part.now from) × (room.new ≡ room_of state room.old part.now from) }
{
    match state {
        Standing::Open(place, kept) => take_open(place, kept, room, part, from),
        Standing::Refused(_, _) | Standing::Ended => Step::Stopped(state),
    }
}

// No part is to come.
pub fn finish(state: Standing) -> Standing
    ensures { result ≡ finish_of state }
{
    match state {
        Standing::Open(place, kept) => {
            if kept == 0 {
                Standing::Ended
            } else {
                refuse(Refusal::CutShort, place.at)
            }
        }
        Standing::Refused(_, _) | Standing::Ended => state,
    }
}

// A refusal stops the reader: it holds the number, and the place where the record starts.
fn refuse(refusal: Refusal, at: usize) -> Standing
    ensures { result ≡ Standing.Refused (number_of refusal) at }
{
    Standing::Refused(refusal.number() as u8, at)
}

// The tests ahead of the record: the count, the room, and whether such a place and such bytes are ever kept.
fn take_open(place: Place, kept: usize, room: &mut [u8], part: &[u8], from: usize) -> Step
    ensures { (result ≡ step_open place kept room.old part.now from) × (room.new ≡ room_open place kept room.old part.now from) }
{
    let at = place.at;
    if passes(at, kept, part.len().saturating_sub(from)) || room.len() < 62 {
        return Step::Stopped(refuse(Refusal::NoRoom, at));
    }
    if !is_sound(place, kept, room) {
        return Step::Stopped(refuse(Refusal::NotAllowed, at));
    }
    if from >= part.len() {
        return Step::Stopped(Standing::Open(place, kept));
    }
    go_on(place, kept, room, part, from)
}

// Whether the count passes its limit with the bytes kept and those that are left of the part.
fn passes(at: usize, kept: usize, left: usize) -> bool
    ensures { result ≡ ltb most_bytes (at + kept + left) }
{
    at > LIMIT || kept > LIMIT - at || left > LIMIT - at - kept
}

// Whether the kept bytes are the front of an unfinished record, and the offset an allowed one.
fn is_sound(place: Place, kept: usize, room: &[u8]) -> bool
    requires { 62 ≤ length room.now }
    ensures { result ≡ is_sound place (take kept room.now) }
{
    kept < 62
        && session::offset_allowed(place.offset)
        && is_cut(session::decode_at(place.at == 0, &room[..kept]))
}

fn is_cut(d: Decoded) -> bool
    ensures { result ≡ is_cut d }
{
    matches!(d, Decoded::Refused(Refusal::CutShort))
}

// The bytes of the part that are put behind those that are kept, 62 in all if there are as many.
fn add(kept: usize, room: &mut [u8], part: &[u8], from: usize) -> usize
    requires { (62 ≤ length room.old) × (from ≤ length part.now) × (kept ≤ 62) }
    ensures { Stands room.old kept (take (62 - kept) (drop from part.now)) room.new result }
{
    let more = (part.len() - from).min(62 - kept);
    text::bytes(room, kept, &part[from..from + more])
}

// The record at the place, which is the first of its session or not, from the kept bytes and the part's.
fn go_on(place: Place, kept: usize, room: &mut [u8], part: &[u8], from: usize) -> Step
    requires { (62 ≤ length room.old) × (from ≤ length part.now) × (kept ≤ length room.old) × (found_at place (take kept room.old) ≡ D.Refused Refusal.CutShort) × (offset_allowed place.offset ≡ true) × (place.at + kept + (length part.now - from) ≤ most_bytes) }
    ensures { (result ≡ step_on place kept room.old part.now from) × (room.new ≡ room_on kept room.old part.now from) }
{
    let at = place.at;
    let offset = place.offset;
    let seen = add(kept, room, part, from);
    let decoded = session::decode_at(at == 0, &room[..seen]);
    if is_cut(decoded) {
        return Step::Stopped(Standing::Open(place, seen));
    }
    match decoded {
        Decoded::Whole(r, n) => Step::Record(r, Place { at: at + n, offset }, from + (n - kept)),
        Decoded::Offset(z) => Step::Offset(Place { at: 8, offset: z }, from + (8 - kept)),
        Decoded::Refused(refusal) => Step::Stopped(refuse(refusal, at)),
    }
}
