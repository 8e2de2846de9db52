// The time from one recorded time to another, exactly, for any two: whole centiseconds.
#![tactic(auto)]

ghost use Rattle.std.specs.Prelude.{◌≡◌};
ghost use Rattle.elapsed.specs.Elapsed.{raised, apart_of, at_least, elapsed_of};

// How far apart two times are, as the two raised by 2^63 are.
fn apart(from: i64, to: i64) -> u64
    ensures { result ≡ apart_of (raised from) (raised to) }
{
    to.abs_diff(from)
}

// to − from is at least so many cs.
pub fn at_least(from: i64, to: i64, cs: u64) -> bool
    ensures { result ≡ at_least from to cs }
{
    from <= to && cs <= apart(from, to)
}

// to − from.
pub fn between(from: i64, to: i64) -> Option<f64>
    ensures { result ≡ elapsed_of from to }
{
    if apart(from, to) > 268435456 {
        return None;
    }
    Some(std::num::nearest_i64_to_f64(to - from))
}
