// Vectors and states.
#![tactic(auto)]

ghost use Rattle.std.specs.Prelude.{◌≡◌};
ghost use Rattle.vector.specs.Vectors.{position_of, velocity_of, state_of, dot_of, cross_of, length_of, scaled_of, sum_of, difference_of, divided_of, negated_of};

use std::ops::{Add, Div, Mul, Neg, Sub};

// Three numbers.
#[derive(Clone, Copy)]
pub struct Vector {
    pub x: f64,
    pub y: f64,
    pub z: f64,
}

// A state: three of position, three of velocity.
#[derive(Clone, Copy)]
pub struct State {
    pub rx: f64,
    pub ry: f64,
    pub rz: f64,
    pub vx: f64,
    pub vy: f64,
    pub vz: f64,
}

impl State {
    pub fn new(r: Vector, v: Vector) -> State
        ensures { result ≡ state_of r v }
    {
        State {
            rx: r.x,
            ry: r.y,
            rz: r.z,
            vx: v.x,
            vy: v.y,
            vz: v.z,
        }
    }

    pub fn position(self) -> Vector
        ensures { result ≡ position_of self }
    {
        Vector {
            x: self.rx,
            y: self.ry,
            z: self.rz,
        }
    }

    pub fn velocity(self) -> Vector
        ensures { result ≡ velocity_of self }
    {
        Vector {
            x: self.vx,
            y: self.vy,
            z: self.vz,
        }
    }
}

impl Vector {
    // a·b
    pub fn dot(self, b: Vector) -> f64
        ensures { result ≡ dot_of self b }
    {
        self.x * b.x + self.y * b.y + self.z * b.z
    }

    // a×b
    pub fn cross(self, b: Vector) -> Vector
        ensures { result ≡ cross_of self b }
    {
        Vector {
            x: self.y * b.z - self.z * b.y,
            y: self.z * b.x - self.x * b.z,
            z: self.x * b.y - self.y * b.x,
        }
    }

    // |a|
    pub fn length(self) -> f64
        ensures { result ≡ length_of self }
    {
        root::square_root(self.dot(self))
    }
}

impl Mul<Vector> for f64 {
    type Output = Vector;

    ghost mul_gives = { λ k a r. r ≡ scaled_of k a };

    fn mul(self, a: Vector) -> Vector {
        Vector {
            x: self * a.x,
            y: self * a.y,
            z: self * a.z,
        }
    }
}

impl Add for Vector {
    type Output = Vector;

    ghost add_gives = { λ a b r. r ≡ sum_of a b };

    fn add(self, b: Vector) -> Vector {
        Vector {
            x: self.x + b.x,
            y: self.y + b.y,
            z: self.z + b.z,
        }
    }
}

impl Sub for Vector {
    type Output = Vector;

    ghost sub_gives = { λ a b r. r ≡ difference_of a b };

    fn sub(self, b: Vector) -> Vector {
        Vector {
            x: self.x - b.x,
            y: self.y - b.y,
            z: self.z - b.z,
        }
    }
}

impl Div<f64> for Vector {
    type Output = Vector;

    ghost div_gives = { λ a k r. r ≡ divided_of a k };

    fn div(self, k: f64) -> Vector {
        Vector {
            x: self.x / k,
            y: self.y / k,
            z: self.z / k,
        }
    }
}

impl Neg for Vector {
    type Output = Vector;

    ghost neg_gives = { λ a r. r ≡ negated_of a };

    fn neg(self) -> Vector {
        Vector {
            x: -self.x,
            y: -self.y,
            z: -self.z,
        }
    }
}
