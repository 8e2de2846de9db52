// The iterator: the judgement of a trial, the rule by which each trial's point is chosen, and the
// single trial called from outside.
#![tactic(auto)]

ghost use Rattle.std.specs.Prelude.{◌≡◌, ◌<◌};
ghost use Rattle.iterator.specs.Judged.{in_time, judged_of};
ghost use Rattle.iterator.specs.Rule.{Grid, width_of, brought_into, secant_of, stride_of, point_of};
ghost use Rattle.iterator.specs.Same.{same_time, judgement_number, has_time, carried_of, same_as};
ghost use Rattle.iterator.specs.Single.{time_finite, all_times_finite, in_grid, time_in_time, all_in_time};
ghost use Rattle.iterator.specs.Single.{is_below, agrees, ends_agree, sound_of, next_trial_of, single_trial_of, more_left};

use refusal::Refusal;

// Low and high carry the time found; under is too fast and over too slow to have one.
#[derive(Clone, Copy)]
pub enum Judgement {
    Low(f64),
    High(f64),
    Under,
    Over,
}

// Whole numbers lo < hi with their judgements, and the number of trials made.
#[derive(Clone, Copy)]
pub struct Bracket {
    pub lo: i64,
    pub hi: i64,
    pub below: Judgement,
    pub above: Judgement,
    pub count: u64,
}

// Where trials begin: at the grid's own ends, or where a run stopped.
#[derive(Clone, Copy)]
pub enum Beginning {
    Start,
    Stopped(Bracket),
}

// What a single trial answers: its point, that none is left, or a refusal.
#[derive(Clone, Copy)]
pub enum Tried<R = Refusal> {
    Point(i64),
    NoneLeft,
    Refused(R),
}

// Times lie within -2^28..2^28, and ends within -2^37..2^37.
const LEAST_TIME: f64 = -268435456.0;

const MOST_TIME: f64 = 268435456.0;

const LEAST_END: i64 = -137438953472;

const MOST_END: i64 = 137438953472;

// t lies within -2^28..2^28; a NaN does not.
#[tactic(auto, unfolding(crate::specs::Judged::in_time))]
pub fn in_time(t: f64) -> bool
    ensures { result ≡ in_time t }
{
    LEAST_TIME <= t && t <= MOST_TIME
}

// A computed time, judged.
#[tactic(auto, unfolding(crate::specs::Judged::judged_of))]
pub fn judged(asked: f64, t: f64) -> Judgement
    ensures { result ≡ judged_of asked t }
{
    if !in_time(t) {
        return Judgement::Over;
    }
    if t <= asked {
        return Judgement::Low(t);
    }
    Judgement::High(t)
}

// d brought into 1..w-1; 1 where there is nothing between.
fn brought_into(d: u64, w: u64) -> u64
    ensures { result ≡ brought_into d w }
{
    if d < 1 {
        return 1;
    }
    if d < w {
        return d;
    }
    if w < 2 {
        return 1;
    }
    w - 1
}

// By the times at the two ends: q of the way, cut to a whole number.
fn secant(asked: f64, w: u64, below: f64, above: f64) -> u64
    ensures { result ≡ secant_of asked w below above }
{
    let q = (asked - below) / (above - below);
    brought_into(real::cut(q * real::nearest_whole(w)), w)
}

// How far above lo the k-th trial lies, in a bracket w wide.
pub fn stride(asked: f64, w: u64, below: Judgement, above: Judgement, k: u64) -> u64
    ensures { result ≡ stride_of asked w below above k }
{
    if k % 2 == 0 {
        return w / 2;
    }
    let Judgement::Low(a) = below else {
        return w / 2;
    };
    let Judgement::High(b) = above else {
        return w / 2;
    };
    secant(asked, w, a, b)
}

fn width(lo: i64, hi: i64) -> u64
    requires { Grid lo hi }
    ensures { result ≡ width_of lo hi }
{
    (hi - lo) as u64
}

// The k-th trial's point, in a bracket wider than 1.
fn place(asked: f64, lo: i64, hi: i64, below: Judgement, above: Judgement, k: u64) -> i64
    requires on_grid { Grid lo hi }
    requires not_neighbours { 1 < width_of lo hi }
    ensures { result ≡ point_of asked lo hi below above k }
{
    let d = stride(asked, width(lo, hi), below, above, k);
    lo + (d as i64)
}

fn time_finite(j: Judgement) -> bool
    ensures { result ≡ time_finite j }
{
    match j {
        Judgement::Low(t) => real::is_finite(t),
        Judgement::High(t) => real::is_finite(t),
        Judgement::Under => true,
        Judgement::Over => true,
    }
}

#[tactic(auto, unfolding(crate::specs::Single::all_times_finite))]
fn all_finite(asked: f64, below: Judgement, above: Judgement) -> bool
    ensures { result ≡ all_times_finite asked below above }
{
    real::is_finite(asked) && time_finite(below) && time_finite(above)
}

#[tactic(auto, unfolding(crate::specs::Single::in_grid))]
fn in_grid(lo: i64, hi: i64) -> bool
    ensures { result ≡ in_grid lo hi }
{
    LEAST_END <= lo && lo < hi && hi <= MOST_END
}

fn time_in_time(j: Judgement) -> bool
    ensures { result ≡ time_in_time j }
{
    match j {
        Judgement::Low(t) => in_time(t),
        Judgement::High(t) => in_time(t),
        Judgement::Under => true,
        Judgement::Over => true,
    }
}

#[tactic(auto, unfolding(crate::specs::Single::all_in_time))]
fn all_in_time(asked: f64, below: Judgement, above: Judgement) -> bool
    ensures { result ≡ all_in_time asked below above }
{
    in_time(asked) && time_in_time(below) && time_in_time(above)
}

// Low or under; the others are high or over.
pub fn is_below(j: Judgement) -> bool
    ensures { result ≡ is_below j }
{
    matches!(j, Judgement::Low(_) | Judgement::Under)
}

// A carried time agrees with its judgement.
fn time_agrees(asked: f64, j: Judgement) -> bool
    ensures { result ≡ agrees asked j }
{
    match j {
        Judgement::Low(t) => t <= asked,
        Judgement::High(t) => asked < t,
        Judgement::Under => true,
        Judgement::Over => true,
    }
}

#[tactic(auto, unfolding(crate::specs::Single::ends_agree))]
fn ends_agree(asked: f64, below: Judgement, above: Judgement) -> bool
    ensures { result ≡ ends_agree asked below above }
{
    is_below(below) && !is_below(above) && time_agrees(asked, below) && time_agrees(asked, above)
}

#[tactic(auto, unfolding(crate::specs::Single::sound_of))]
fn sound(asked: f64, lo: i64, hi: i64, below: Judgement, above: Judgement) -> bool
    ensures { result ≡ sound_of asked lo hi below above }
{
    in_grid(lo, hi) && all_in_time(asked, below, above) && ends_agree(asked, below, above)
}

// The k-th trial between ends on the grid: its point, or at hi - lo = 1 that none is left.
fn next_trial(asked: f64, lo: i64, hi: i64, below: Judgement, above: Judgement, k: u64) -> Tried
    requires { Grid lo hi }
    ensures { result ≡ next_trial_of asked lo hi below above k }
{
    if 1 < width(lo, hi) {
        return Tried::Point(place(asked, lo, hi, below, above, k));
    }
    Tried::NoneLeft
}

// A single trial called from outside, the k-th.
pub fn trial(asked: f64, lo: i64, hi: i64, below: Judgement, above: Judgement, k: u64) -> Tried
    ensures { result ≡ single_trial_of asked lo hi below above k }
{
    if !all_finite(asked, below, above) {
        return Tried::Refused(Refusal::NotFinite);
    }
    if !sound(asked, lo, hi, below, above) {
        return Tried::Refused(Refusal::DerivedOutOfRange);
    }
    next_trial(asked, lo, hi, below, above, k)
}

// A trial is left: hi - lo > 1, for ends on the grid.
pub fn more_left(lo: i64, hi: i64) -> bool
    ensures { result ≡ more_left lo hi }
{
    if !in_grid(lo, hi) {
        return false;
    }
    1 < width(lo, hi)
}

// The same number to the bit, a zero with its sign; every NaN is one.
fn same_time(x: f64, y: f64) -> bool
    ensures { result ≡ same_time x y }
{
    if x != x {
        return y != y;
    }
    if y != y {
        return false;
    }
    let a: u64 = f64::to_bits(x);
    let b: u64 = f64::to_bits(y);
    a == b
}

// A judgement as a number: 0 low, 1 high, 2 under, 3 over.
pub fn judgement_number(j: Judgement) -> u64
    ensures { result ≡ judgement_number j }
{
    match j {
        Judgement::Low(_) => 0,
        Judgement::High(_) => 1,
        Judgement::Under => 2,
        Judgement::Over => 3,
    }
}

// A judgement carries a time: low and high do.
pub fn has_time(j: Judgement) -> bool
    ensures { result ≡ has_time j }
{
    matches!(j, Judgement::Low(_) | Judgement::High(_))
}

// The time that it carries; 0 where it carries none.
pub fn carried(j: Judgement) -> f64
    ensures { result ≡ carried_of j }
{
    match j {
        Judgement::Low(t) => t,
        Judgement::High(t) => t,
        Judgement::Under => 0.0,
        Judgement::Over => 0.0,
    }
}

// The same judgement, its time to the bit.
#[tactic(auto, unfolding(crate::specs::Same::same_as))]
pub fn same(j: Judgement, k: Judgement) -> bool
    ensures { result ≡ same_as j k }
{
    judgement_number(j) == judgement_number(k) && same_time(carried(j), carried(k))
}
