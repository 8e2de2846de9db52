// The flight of one vehicle: advanced to a time by Kepler, and through a burn; and how far two are from a range measured.
#![tactic(auto)]

ghost use Rattle.std.specs.Prelude.{◌≡◌};
ghost use Rattle.flight.specs.Flight.{mu_of, too_far, flown_as, flown_of, burned_of, off_of};

use refusal::Refusal;
use solve::Advanced;
use table::Name;
use vector::{State, Vector};

// mu of each body.
#[derive(Clone, Copy)]
pub struct Mu {
    pub earth: f64,
    pub moon: f64,
}

// A vehicle that is set: the body it flies about (0 the earth), the time of its state, and the state.
#[derive(Clone, Copy)]
pub struct Flight {
    pub body: u8,
    pub time: i64,
    pub state: State,
}

fn mu_of(mu: Mu, body: u8) -> f64
    ensures { result ≡ mu_of mu body }
{
    if body == 0 { mu.earth } else { mu.moon }
}

pub fn too_far(f: Flight, time: i64) -> bool
    ensures { result ≡ too_far f time }
{
    elapsed::between(f.time, time).is_none()
}

// The flight of a body at a time, in the state that an advance found.
fn found(body: u8, time: i64, a: Advanced) -> Result<Flight, Refusal>
    ensures { result ≡ flown_as body time a }
{
    match a {
        Advanced::Found(state, _, _) => Ok(Flight { body, time, state }),
        Advanced::TooLong => Err(Refusal::TooLong),
        Advanced::NotFinished(_) => Err(Refusal::NotFinished),
        Advanced::Refused(refusal) => Err(refusal),
    }
}

// A flight advanced to a time, which may lie behind its own.
pub fn fly(mu: Mu, f: Flight, time: i64) -> Result<Flight, Refusal>
    ensures { result ≡ flown_of mu f time }
{
    let t = elapsed::between(f.time, time).ok_or(Refusal::TimeOutOfRange)?;
    found(f.body, time, solve::advance(mu_of(mu, f.body), f.state, t))
}

// A velocity change added to a flight.
pub fn burn(f: Flight, change: Vector) -> Result<Flight, Refusal>
    ensures { result ≡ burned_of f change }
{
    let v = f.state.velocity() + change;
    let refusal = Refusal::VelocityOutOfRange;
    match rows::velocity_components(Ok(()), refusal, Name::Velocity, v) {
        Ok(()) => {
            let state = State::new(f.state.position(), v);
            Ok(Flight { state, ..f })
        }
        Err(e) => Err(e.refusal),
    }
}

// Computed range minus recorded range.
pub fn off(a: Flight, b: Flight, range: f64) -> f64
    ensures { result ≡ off_of a b range }
{
    let d = a.state.position() - b.state.position();
    d.length() - range
}
