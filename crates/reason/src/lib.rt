// Why a solve refuses, or that it does not.
#![tactic(auto)]

ghost use Rattle.std.specs.Prelude.{◌≡◌};
ghost use Rattle.reason.specs.Reasons.{reason_number_by};

use iterator::{Bracket, Judgement};
use refusal::{Numbered, Refusal};
use table::Entry;

// What is amiss with the bracket that trials are to go on from: an end and its place, with the judgement worked out
// afresh where it is not as stated; or the count, and the most that it may be.
#[derive(Clone, Copy)]
pub enum Amiss {
    LoOffGrid(i64),
    HiOffGrid(i64),
    LoNotUnderHi(i64),
    LoMisjudged(i64, Judgement),
    HiMisjudged(i64, Judgement),
    LoNotBelow(i64),
    HiNotAbove(i64),
    CountOver(u64, u64),
}

// Why a neighbour has no time: it is the grid's own end, or this range test of its trial fails.
#[derive(Clone, Copy)]
pub enum Stop<R = Refusal> {
    EndOfGrid,
    Test(Entry<R>),
}

// Two neighbours with their times, and the number of trials.
#[derive(Clone, Copy)]
pub struct Neighbours {
    pub lo: i64,
    pub below: f64,
    pub hi: i64,
    pub above: f64,
    pub count: u64,
}

// A test ahead of the trials or of the result; a bracket to go on from; the neighbours, and why one has no time; for a
// transfer time the range test alone; the bracket that a limit stopped the trials at; the settings' refusal. Or solved.
#[derive(Clone, Copy)]
pub enum Reason<R = Refusal> {
    Test(Entry<R>),
    Amiss(Amiss),
    TooShort(Bracket, Stop<R>),
    TooLong(Bracket, Stop<R>),
    Range(Entry<R>),
    NotFinished(Bracket),
    Settings(R),
    Between(Neighbours),
    Solved,
}

// The refusal's number, and 0 for what is solved.
pub fn number_of<R: Numbered>(r: Reason<R>) -> u32
    ensures { result ≡ reason_number_by R.its_number r }
{
    match r {
        Reason::Test(e) => e.refusal.to_number(),
        Reason::Amiss(_) => 6,
        Reason::TooShort(_, _) => 8,
        Reason::TooLong(_, _) => 7,
        Reason::Range(e) => e.refusal.to_number(),
        Reason::NotFinished(_) => 29,
        Reason::Settings(n) => n.to_number(),
        Reason::Between(_) => 0,
        Reason::Solved => 0,
    }
}
