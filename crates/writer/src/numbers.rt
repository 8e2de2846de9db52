// The numbers of a record: their test, and the payload.
ghost use Rattle.std.specs.Prelude.{◌+◌, ◌*◌, ◌≤◌, ◌≡◌, [], ◌∷◌, length};
ghost use Rattle.session.specs.Kinds.{count_of};
ghost use Rattle.session.specs.Layout.{kind_in, numbers_in, all_finite, number_bytes};
ghost use Rattle.text.specs.Text.{Stands};

use crate::put::put_number;
use real::is_finite;
use session::Record;

#[tactic(auto, unfolding(session::specs::Layout::all_finite))]
fn three_finite(x: f64, y: f64, z: f64) -> bool
    ensures { result ≡ all_finite (x ∷ y ∷ z ∷ []) }
{
    is_finite(x) && is_finite(y) && is_finite(z)
}

// Whether all numbers of a record are finite.
#[tactic(auto, using(crate::proofs::Laws::all_append), unfolding(session::specs::Layout::all_finite))]
pub fn are_finite(r: Record) -> bool
    ensures { result ≡ all_finite (numbers_in r) }
{
    match r {
        Record::State(x) => {
            let s = x.state;
            three_finite(s.rx, s.ry, s.rz) && three_finite(s.vx, s.vy, s.vz)
        }
        Record::Burn(x) => {
            let d = x.change;
            three_finite(d.x, d.y, d.z)
        }
        Record::Mark(x) => is_finite(x.range) && is_finite(x.rate),
    }
}

fn put_three(p: &mut [u8], o: usize, x: f64, y: f64, z: f64) -> usize
    requires { o + 24 ≤ length p.old }
    ensures { Stands p.old o (number_bytes (x ∷ y ∷ z ∷ [])) p.new result }
{
    let a = put_number(p, o, x);
    let b = put_number(p, a, y);
    put_number(p, b, z)
}

// The payload of a record, at the front of the part that is lent for it.
pub fn put_numbers(p: &mut [u8], r: Record) -> usize
    requires { 8 * count_of (kind_in r) ≤ length p.old }
    ensures { Stands p.old 0 (number_bytes (numbers_in r)) p.new result }
{
    match r {
        Record::State(x) => {
            let s = x.state;
            let a = put_three(p, 0, s.rx, s.ry, s.rz);
            put_three(p, a, s.vx, s.vy, s.vz)
        }
        Record::Burn(x) => {
            let d = x.change;
            put_three(p, 0, d.x, d.y, d.z)
        }
        Record::Mark(x) => {
            let a = put_number(p, 0, x.range);
            put_number(p, a, x.rate)
        }
    }
}
