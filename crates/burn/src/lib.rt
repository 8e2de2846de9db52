// The constant-height burn: the change of the active vehicle's velocity at T2 that puts it on an orbit coelliptic with the
// passive one's, and the apsides after it.
#![tactic(auto)]

ghost use Rattle.std.specs.Prelude.{◌≡◌, Ok};
ghost use Rattle.burn.specs.Burn.{kept_of, moved_of, at_time, in_line_of, margin_of, clear_of, cleared_of, changed_of, sped_of, beside_of, coelliptic_of, from_passive, radius_allowed, burn_of};

use apsides::Apsides;
use coelliptic::{Angle, Passive, Speeds};
use refusal::Refusal;
use solve::Advanced;
use theta::TransferTime;
use vector::{State, Vector};

// The body, 0 the earth and 1 the moon, its surface radius, and mu.
#[derive(Clone, Copy)]
pub struct Centre {
    pub body: u64,
    pub radius: f64,
    pub mu: f64,
}

// The velocity change with the apsides after it, near and far or near alone.
#[derive(Clone, Copy)]
pub enum Burn {
    Closed(Vector, f64, f64),
    Open(Vector, f64),
}

// What an advance comes to.
fn kept(a: Advanced) -> Result<State, Refusal>
    ensures { result ≡ kept_of a }
{
    match a {
        Advanced::Found(s, _, _) => Ok(s),
        Advanced::TooLong => Err(Refusal::TooLong),
        Advanced::NotFinished(_) => Err(Refusal::NotFinished),
        Advanced::Refused(refusal) => Err(refusal),
    }
}

fn moved(mu: f64, s: State, t: f64) -> Result<State, Refusal>
    ensures { result ≡ moved_of mu s t }
{
    kept(solve::advance(mu, s, t))
}

// A state of one time at another.
fn at_time(mu: f64, s: State, from: i64, to: i64) -> Result<State, Refusal>
    ensures { result ≡ at_time mu s from to }
{
    let t = elapsed::between(from, to).ok_or(Refusal::TimeOutOfRange)?;
    moved(mu, s, t)
}

// The passive vehicle at the point in line.
fn in_line(mu: f64, s: State, g: Angle) -> Result<State, Refusal>
    ensures { result ≡ in_line_of mu s g }
{
    match theta::time_theta(mu, s, g.sin, g.cos) {
        TransferTime::Time(t) => moved(mu, s, t.time),
        TransferTime::TooLong => Err(Refusal::TooLong),
        TransferTime::TooShort => Err(Refusal::TooShort),
        TransferTime::Refused(refusal) => Err(refusal),
    }
}

// How far over the surface the pericentre must lie.
fn margin(body: u64) -> f64
    ensures { result ≡ margin_of body }
{
    if body == 0 { 157420.0 } else { 10668.0 }
}

fn is_clear(k: Centre, near: f64) -> bool
    ensures { result ≡ clear_of k near }
{
    near - k.radius > margin(k.body)
}

// The answer, unless the apsides are refused or the pericentre is too low.
fn cleared(k: Centre, change: Vector, a: Apsides) -> Result<Burn, Refusal>
    ensures { result ≡ cleared_of k change a }
{
    match a {
        Apsides::Closed(near, far) => {
            if is_clear(k, near) {
                return Ok(Burn::Closed(change, near, far));
            }
            Err(Refusal::TooLow)
        }
        Apsides::Open(near) => {
            if is_clear(k, near) {
                return Ok(Burn::Open(change, near));
            }
            Err(Refusal::TooLow)
        }
        Apsides::Refused(refusal) => Err(refusal),
    }
}

// The change to a new velocity, and the apsides after it.
fn changed(k: Centre, active: State, new: Vector) -> Result<Burn, Refusal>
    ensures { result ≡ changed_of k active new }
{
    let change = new - active.velocity();
    let after = State::new(active.position(), new);
    cleared(k, change, apsides::periapo(k.mu, after))
}

fn sped(k: Centre, active: State, v: Speeds) -> Result<Burn, Refusal>
    ensures { result ≡ sped_of k active v }
{
    if 0.0 <= v.radicand {
        return changed(k, active, coelliptic::new_velocity(active, v));
    }
    Err(Refusal::NoSpeed)
}

// On the orbit with the semimajor axis aa, at the distance ra.
fn beside(k: Centre, active: State, p: Passive, ra: f64, aa: f64) -> Result<Burn, Refusal>
    ensures { result ≡ beside_of k active p ra aa }
{
    if (0.0 < p.alpha) & (0.0 < p.a) & (0.0 < aa) {
        return sped(k, active, coelliptic::speeds_of(k.mu, p, ra, aa));
    }
    Err(Refusal::NoOrbit)
}

fn coelliptic_of(k: Centre, active: State, p: Passive) -> Result<Burn, Refusal>
    ensures { result ≡ coelliptic_of k active p }
{
    let ra = active.position().length();
    beside(k, active, p, ra, coelliptic::axis(p, ra))
}

// Both are of the burn's time.
fn from_both(k: Centre, active: State, passive: State) -> Result<Burn, Refusal>
    ensures { result ≡ from_passive k active (Ok passive) }
{
    let point = in_line(k.mu, passive, coelliptic::angle_of(active, passive))?;
    coelliptic_of(k, active, coelliptic::passive_of(k.mu, point))
}

fn radius_allowed(radius: f64) -> bool
    ensures { result ≡ radius_allowed radius }
{
    matches!(rows::radius_row::<Refusal>(Ok(()), radius), Ok(()))
}

// The burn at t2 of the active vehicle, whose state is of the time ta, under the passive one, whose state is of tp; t3 is
// the time of the next manoeuvre. Times are whole cs.
pub fn constant_height(
    k: Centre,
    active: State,
    ta: i64,
    passive: State,
    tp: i64,
    t2: i64,
    t3: i64,
) -> Result<Burn, Refusal>
    ensures { result ≡ burn_of k active ta passive tp t2 t3 }
{
    if k.body > 1 {
        return Err(Refusal::NotAllowed);
    }
    if !radius_allowed(k.radius) {
        return Err(Refusal::SettingOutOfRange);
    }
    if !elapsed::at_least(t2, t3, 60000) {
        return Err(Refusal::TooSoon);
    }
    let a = at_time(k.mu, active, ta, t2)?;
    let p = at_time(k.mu, passive, tp, t2)?;
    from_both(k, a, p)
}
