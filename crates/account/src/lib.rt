// The account of a replay, line by line: the heading, a line a record, the reader's refusal, and the two vehicles.
#![tactic(auto)]

ghost use Rattle.std.specs.Prelude.{◌≤◌, ◌≡◌, length};
ghost use Rattle.account.specs.Account.{is_done, step_at, step_of, Stepped, Telling};

use flight::Mu;
use refusal::Refusal;
use replay::Replay;
use session::{Place, Reading};

// What the next line is: the heading, that of what stands at a place, that of vehicle 0 or 1, or none.
#[derive(Clone, Copy)]
pub enum Next {
    Heading,
    At(Place),
    First,
    Second,
    Done,
}

// How long the line is, what comes next, and the vehicles then.
#[derive(Clone, Copy)]
pub struct Told {
    pub length: usize,
    pub next: Next,
    pub replay: Replay,
}

// One line of the account of s, with these vehicles, at the front of a lent buffer of 512 bytes at least.
pub fn tell(mu: Mu, s: &[u8], next: Next, p: Replay, line: &mut [u8]) -> Result<Told, Refusal>
    ensures { Telling mu s.now next p line.old line.new result }
{
    if line.len() < 512 {
        return Err(Refusal::NoRoom);
    }
    Ok(step(mu, s, next, p, line))
}

pub fn is_done(next: Next) -> bool
    ensures { result ≡ is_done next }
{
    match next {
        Next::Heading => false,
        Next::At(_) => false,
        Next::First => false,
        Next::Second => false,
        Next::Done => true,
    }
}

fn step(mu: Mu, s: &[u8], next: Next, p: Replay, line: &mut [u8]) -> Told
    requires { 512 ≤ length line.old }
    ensures { Stepped (step_of mu s.now next p) line.old line.new result }
{
    let v0 = p.v0;
    let v1 = p.v1;
    match next {
        Next::Heading => Told {
            length: tracks::heading(line),
            next: Next::At(Place { at: 0, offset: 0 }),
            replay: p,
        },
        Next::At(place) => step_at(mu, s, place, p, line),
        Next::First => Told {
            length: tracks::vehicle(line, 0, v0),
            next: Next::Second,
            replay: p,
        },
        Next::Second => Told {
            length: tracks::vehicle(line, 1, v1),
            next: Next::Done,
            replay: p,
        },
        Next::Done => Told {
            length: 0,
            next: Next::Done,
            replay: p,
        },
    }
}

fn step_at(mu: Mu, s: &[u8], place: Place, p: Replay, line: &mut [u8]) -> Told
    requires { 512 ≤ length line.old }
    ensures { Stepped (step_at mu s.now place p) line.old line.new result }
{
    match session::read(place, s) {
        Reading::Record(r, behind) => {
            let x = replay::step(mu, p, r);
            let answer = x.answer;
            let q = x.replay;
            let o = behind.offset;
            Told {
                length: tracks::record(line, r, o, answer),
                next: Next::At(behind),
                replay: q,
            }
        }
        Reading::Offset(after) => Told {
            length: 0,
            next: Next::At(after),
            replay: p,
        },
        Reading::End => Told {
            length: 0,
            next: Next::First,
            replay: p,
        },
        Reading::Refused(refusal, at) => {
            let q = at.at;
            Told {
                length: lines::refused_at(line, b"refused ", refusal.number() as u64, q as u64),
                next: Next::First,
                replay: p,
            }
        }
    }
}
