// The session reader: the session's bytes and a place in; a record and the next place, the end, or a refusal out.
#![tactic(auto)]

mod limit;
mod offset;
mod payload;
mod record;

ghost use Rattle.std.specs.Prelude.{◌≡◌};
ghost use Rattle.session.specs.Read.{read_at};

pub use limit::{offset_allowed, time_allowed};
pub use offset::decode_at;
pub use record::{BurnRecord, Decoded, Kind, MarkRecord, Record, StateRecord};
use refusal::Refusal;

// Where the reader stands, and the local offset there, in minutes.
#[derive(Clone, Copy)]
pub struct Place {
    pub at: usize,
    pub offset: i16,
}

// A record and the place behind it, the place behind the offset's record, the end, or a refusal with its number and place.
#[derive(Clone, Copy)]
pub enum Reading {
    Record(Record, Place),
    Offset(Place),
    End,
    Refused(Refusal, Place),
}

pub fn read(place: Place, s: &[u8]) -> Reading
    ensures { result ≡ read_at s.now place }
{
    let at = place.at;
    let offset = place.offset;
    if s.len() > 65536 {
        return Reading::Refused(Refusal::WrongLength, Place { at: 0, offset: 0 });
    }
    if !offset_allowed(offset) {
        return Reading::Refused(Refusal::NotAllowed, place);
    }
    if at > s.len() {
        return Reading::Refused(Refusal::CutShort, place);
    }
    if at == s.len() {
        return Reading::End;
    }
    match decode_at(at == 0, &s[at..]) {
        Decoded::Whole(r, n) => Reading::Record(r, Place { at: at + n, offset }),
        Decoded::Offset(z) => Reading::Offset(Place { at: 8, offset: z }),
        Decoded::Refused(refusal) => Reading::Refused(refusal, place),
    }
}
