// The formulas of the constant-height burn.
#![tactic(auto)]

ghost use Rattle.std.specs.Prelude.{◌≡◌};
ghost use Rattle.coelliptic.specs.Coelliptic.{unit_of, normal_of, projected_of, turned_by, angle_of, passive_of, axis_of, speeds_of, new_of};

use vector::{State, Vector};

// The angle from the passive vehicle to the active one, in the passive plane.
#[derive(Clone, Copy)]
pub struct Angle {
    pub sin: f64,
    pub cos: f64,
}

// The passive orbit at the point in line: its distance, α, its semimajor axis and its radial speed.
#[derive(Clone, Copy)]
pub struct Passive {
    pub r: f64,
    pub alpha: f64,
    pub a: f64,
    pub radial: f64,
}

// The active vehicle's radial speed, and what stands under the root of its horizontal speed.
#[derive(Clone, Copy)]
pub struct Speeds {
    pub radial: f64,
    pub radicand: f64,
}

// a/|a|
fn unit(a: Vector) -> Vector
    ensures { result ≡ unit_of a }
{
    a / a.length()
}

// The unit normal of a state's plane: r×v made length 1.
fn normal(s: State) -> Vector
    ensures { result ≡ normal_of s }
{
    unit(s.position().cross(s.velocity()))
}

// r projected into the plane of the unit normal n.
fn projected(r: Vector, n: Vector) -> Vector
    ensures { result ≡ projected_of r n }
{
    r - r.dot(n) * n
}

// The sine and the cosine from one unit vector to another, about n.
fn turned_by(up: Vector, ua: Vector, n: Vector) -> Angle
    ensures { result ≡ turned_by up ua n }
{
    Angle {
        sin: up.cross(ua).dot(n),
        cos: up.dot(ua),
    }
}

// The angle from the passive vehicle to the active one.
pub fn angle_of(active: State, passive: State) -> Angle
    ensures { result ≡ angle_of active passive }
{
    let n = normal(passive);
    let ua = unit(projected(active.position(), n));
    turned_by(unit(passive.position()), ua, n)
}

// The passive orbit at the point in line c.
pub fn passive_of(mu: f64, c: State) -> Passive
    ensures { result ≡ passive_of mu c }
{
    let position = c.position();
    let velocity = c.velocity();
    let r = position.length();
    let alpha = (1.0 - conic::c2(r, velocity, mu)) / r;
    let radial = position.dot(velocity) / r;
    Passive {
        r,
        alpha,
        a: 1.0 / alpha,
        radial,
    }
}

// The active semimajor axis: as much more than the passive one as the active vehicle is higher.
pub fn axis(p: Passive, ra: f64) -> f64
    ensures { result ≡ axis_of p ra }
{
    p.a + (ra - p.r)
}

// The speeds on the coelliptic orbit with the semimajor axis aa, at the distance ra.
pub fn speeds_of(mu: f64, p: Passive, ra: f64, aa: f64) -> Speeds
    ensures { result ≡ speeds_of mu p ra aa }
{
    let s = p.a / aa;
    let radial = (p.radial * s) * root::square_root(s);
    let radicand = mu * ((2.0 / ra) - (1.0 / aa)) - radial * radial;
    Speeds { radial, radicand }
}

// The velocity after the burn, in the active vehicle's own plane and direction of travel.
pub fn new_velocity(active: State, v: Speeds) -> Vector
    ensures { result ≡ new_of active v }
{
    let w = unit(active.position());
    let across = normal(active).cross(w);
    let horizontal = root::square_root(v.radicand);
    v.radial * w + horizontal * across
}
