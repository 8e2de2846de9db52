// What the desk can be asked, and the parts of a line: each word is read once.
#![tactic(auto)]

mod judgement;
mod parts;

use iterator::{Beginning, Judgement};
use lambert::Way;
pub use parts::{
    ends_at, judgement_at, number_at, numbers, numbers_as_array, only, only_numbers,
    only_numbers_as_array, sides_at,
};
use vector::{State, Vector};

// Whose fractions the grade goes by: 01's, or those of a version of the settings.
#[derive(Clone, Copy)]
pub enum Version {
    Standard,
    Named(u64),
}

// What a solve is given. An iterated one begins at the start or where it was stopped, has a limit on its trials, and is
// graded by the fractions of its version.
#[derive(Clone, Copy)]
pub enum Solve {
    Kepler {
        mu: f64,
        state: State,
        time: f64,
        beginning: Beginning,
        limit: u64,
        version: Version,
    },
    Lambert {
        mu: f64,
        first: Vector,
        second: Vector,
        time: f64,
        way: Way,
        beginning: Beginning,
        limit: u64,
        version: Version,
    },
    Theta {
        mu: f64,
        state: State,
        sine: f64,
        cosine: f64,
    },
    Apsides {
        mu: f64,
        state: State,
    },
}

// What the thumbwheel and the sight line are given.
#[derive(Clone, Copy)]
pub enum Look {
    Wheel(u64),
    Sight {
        active: Vector,
        passive: Vector,
        elevation: u64,
        horizontal: Vector,
        vertical: Vector,
    },
}

// What a line asks; `Why` asks for the reason of a solve's answer. A line with no word and a comment ask nothing.
#[derive(Clone, Copy)]
pub enum Request {
    Nothing,
    Root(f64),
    C(f64),
    S(f64),
    Trial {
        asked: f64,
        lo: i64,
        hi: i64,
        below: Judgement,
        above: Judgement,
        k: u64,
    },
    Look(Look),
    Solve(Solve),
    Why(Solve),
    Burn {
        body: u64,
        radius: f64,
        mu: f64,
        active: State,
        ta: i64,
        passive: State,
        tp: i64,
        t2: i64,
        t3: i64,
    },
}
