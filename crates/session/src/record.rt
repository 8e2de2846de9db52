// One record at the front of some bytes: its tests in their order, and its fields.
ghost use Rattle.std.specs.Prelude.{◌≤◌, ◌≡◌, length};
ghost use Rattle.field.specs.Bytes.{field};
ghost use Rattle.session.specs.Kinds.{kind_of, record_length, count_of, top_of};
ghost use Rattle.session.specs.Layout.{record_at};
ghost use Rattle.session.specs.Decode.{allowed_at, judged, head_of, decode_of};

use crate::limit::time_allowed;
use crate::payload::{are_finite, number};
use field::{read, signed};
use refusal::Refusal;
use vector::{State, Vector};

#[derive(Clone, Copy)]
pub struct StateRecord {
    pub vehicle: u8,
    pub body: u8,
    pub time: i64,
    pub state: State,
}

#[derive(Clone, Copy)]
pub struct BurnRecord {
    pub vehicle: u8,
    pub time: i64,
    pub change: Vector,
}

#[derive(Clone, Copy)]
pub struct MarkRecord {
    pub vehicle: u8,
    pub time: i64,
    pub range: f64,
    pub rate: f64,
}

#[derive(Clone, Copy)]
pub enum Record {
    State(StateRecord),
    Burn(BurnRecord),
    Mark(MarkRecord),
}

// A record and its length, the local offset that its own record sets, or the number of the refusal.
#[derive(Clone, Copy)]
pub enum Decoded {
    Whole(Record, usize),
    Offset(i16),
    Refused(Refusal),
}

#[derive(Clone, Copy)]
pub enum Kind {
    State,
    Burn,
    Mark,
}

// How a kind's records are built: their length, how many numbers they have, and the greatest value of the byte
// behind the vehicle.
#[derive(Clone, Copy)]
pub struct Shape {
    pub length: usize,
    pub count: usize,
    pub top: u8,
}

fn kind_of(n: u64) -> Option<Kind>
    ensures { result ≡ kind_of n }
{
    match n {
        1 => Some(Kind::State),
        2 => Some(Kind::Burn),
        3 => Some(Kind::Mark),
        _ => None,
    }
}

fn shape_of(k: Kind) -> Shape
    ensures { (result.length ≡ record_length k) × (result.count ≡ count_of k) × (result.top ≡ top_of k) }
{
    match k {
        Kind::State => Shape {
            length: 62,
            count: 6,
            top: 1,
        },
        Kind::Burn => Shape {
            length: 38,
            count: 3,
            top: 0,
        },
        Kind::Mark => Shape {
            length: 30,
            count: 2,
            top: 0,
        },
    }
}

fn is_allowed(k: Kind, s: &[u8]) -> bool
    requires { record_length k ≤ length s.now }
    ensures { result ≡ allowed_at k s.now }
{
    let shape = shape_of(k);
    s[4] <= 1
        && s[5] <= shape.top
        && time_allowed(signed(read(s, 6, 8)))
        && are_finite(s, shape.count)
}

// The tests from the length on, for a known kind; n is the length that the record gives.
fn judge(k: Kind, n: u64, s: &[u8]) -> Result<Kind, Refusal>
    requires { (4 ≤ length s.now) × (n ≡ field 0 2 s.now) }
    ensures { result ≡ judged (Some k) s.now }
{
    let shape = shape_of(k);
    let want = shape.length;
    if n != want as u64 {
        return Err(Refusal::WrongLength);
    }
    if s.len() < want {
        return Err(Refusal::CutShort);
    }
    if is_allowed(k, s) {
        Ok(k)
    } else {
        Err(Refusal::NotAllowed)
    }
}

fn test_head(s: &[u8]) -> Result<Kind, Refusal>
    ensures { result ≡ head_of s.now }
{
    if s.len() < 4 {
        return Err(Refusal::CutShort);
    }
    let n = read(s, 0, 2);
    if n < 4 {
        return Err(Refusal::WrongLength);
    }
    let k = kind_of(read(s, 2, 2)).ok_or(Refusal::UnknownKind)?;
    judge(k, n, s)
}

fn state_of(s: &[u8]) -> Record
    requires { 62 ≤ length s.now }
    ensures { result ≡ record_at Kind.State s.now }
{
    let time = signed(read(s, 6, 8));
    let vehicle = s[4];
    let body = s[5];
    let rx = number(s, 0);
    let ry = number(s, 1);
    let rz = number(s, 2);
    let vx = number(s, 3);
    let vy = number(s, 4);
    let vz = number(s, 5);
    let state = State {
        rx,
        ry,
        rz,
        vx,
        vy,
        vz,
    };
    Record::State(StateRecord {
        vehicle,
        body,
        time,
        state,
    })
}

fn burn_of(s: &[u8]) -> Record
    requires { 38 ≤ length s.now }
    ensures { result ≡ record_at Kind.Burn s.now }
{
    let time = signed(read(s, 6, 8));
    let vehicle = s[4];
    let x = number(s, 0);
    let y = number(s, 1);
    let z = number(s, 2);
    let change = Vector { x, y, z };
    Record::Burn(BurnRecord {
        vehicle,
        time,
        change,
    })
}

fn mark_of(s: &[u8]) -> Record
    requires { 30 ≤ length s.now }
    ensures { result ≡ record_at Kind.Mark s.now }
{
    let time = signed(read(s, 6, 8));
    let vehicle = s[4];
    let range = number(s, 0);
    let rate = number(s, 1);
    Record::Mark(MarkRecord {
        vehicle,
        time,
        range,
        rate,
    })
}

fn record_of(k: Kind, s: &[u8]) -> Record
    requires { record_length k ≤ length s.now }
    ensures { result ≡ record_at k s.now }
{
    match k {
        Kind::State => state_of(s),
        Kind::Burn => burn_of(s),
        Kind::Mark => mark_of(s),
    }
}

// The record of the table at the front of s, with no place and no limit on what is behind it.
pub fn decode(s: &[u8]) -> Decoded
    ensures { result ≡ decode_of s.now }
{
    match test_head(s) {
        Ok(k) => Decoded::Whole(record_of(k, s), shape_of(k).length),
        Err(refusal) => Decoded::Refused(refusal),
    }
}
