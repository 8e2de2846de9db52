// A solve as it stands in a line: its name, and what it is given. The name is behind the line's first k words, and what
// it is given behind one more.
#![tactic(auto)]

ghost use Rattle.std.specs.Prelude.{◌+◌, ◌^◌, ◌≤◌, ◌<◌};
ghost use Rattle.solves.specs.Solves.{kepler_form, lambert_form, theta_form, apsides_form, solve_form, Gives, ReadsNormal, ReadsWay};

use forms::Solve;
use lambert::Way;
use vector::{State, Vector};

// The three numbers of a normal.
fn normal_at(line: &[u8], k: u32) -> Result<(Way, u32), u64>
    requires { k < 2 ^ 18 }
    ensures { ReadsNormal result k line.now }
{
    let [x, y, z] = forms::numbers_as_array::<3>(line, k)?;
    Ok((Way::Normal(Vector { x, y, z }), k + 3))
}

#[tactic(auto, unfolding(forms::specs::Forms::read_by))]
fn way_at(line: &[u8], k: u32) -> Result<(Way, u32), u64>
    requires { k < 2 ^ 17 }
    ensures { ReadsWay result k line.now }
{
    let w = words::word(line, u64::from(k));
    if words::is_word(w, b"short") {
        return Ok((Way::Short, k + 1));
    }
    if words::is_word(w, b"long") {
        return Ok((Way::Long, k + 1));
    }
    if words::is_word(w, b"normal") {
        return normal_at(line, k + 1);
    }
    Err(u64::from(k) + 1)
}

fn kepler(line: &[u8], k: u32) -> Result<Solve, u64>
    requires { k ≤ 65536 }
    ensures { Gives kepler_form result k line.now }
{
    let [mu, rx, ry, rz, vx, vy, vz, time] = forms::numbers_as_array::<8>(line, k)?;
    let (beginning, limit, version) = options::read(line, k + 8)?;
    Ok(Solve::Kepler {
        mu,
        state: State {
            rx,
            ry,
            rz,
            vx,
            vy,
            vz,
        },
        time,
        beginning,
        limit,
        version,
    })
}

fn lambert(line: &[u8], k: u32) -> Result<Solve, u64>
    requires { k ≤ 65536 }
    ensures { Gives lambert_form result k line.now }
{
    let [mu, ax, ay, az, bx, by, bz, time] = forms::numbers_as_array::<8>(line, k)?;
    let (way, behind) = way_at(line, k + 8)?;
    let (beginning, limit, version) = options::read(line, behind)?;
    Ok(Solve::Lambert {
        mu,
        first: Vector {
            x: ax,
            y: ay,
            z: az,
        },
        second: Vector {
            x: bx,
            y: by,
            z: bz,
        },
        time,
        way,
        beginning,
        limit,
        version,
    })
}

fn theta(line: &[u8], k: u32) -> Result<Solve, u64>
    ensures { Gives theta_form result k line.now }
{
    let [mu, rx, ry, rz, vx, vy, vz, sine, cosine] = forms::only_numbers_as_array::<9>(line, k)?;
    Ok(Solve::Theta {
        mu,
        state: State {
            rx,
            ry,
            rz,
            vx,
            vy,
            vz,
        },
        sine,
        cosine,
    })
}

fn apsides(line: &[u8], k: u32) -> Result<Solve, u64>
    ensures { Gives apsides_form result k line.now }
{
    let [mu, rx, ry, rz, vx, vy, vz] = forms::only_numbers_as_array::<7>(line, k)?;
    Ok(Solve::Apsides {
        mu,
        state: State {
            rx,
            ry,
            rz,
            vx,
            vy,
            vz,
        },
    })
}

// The solve whose name is behind the first k words.
#[tactic(auto, unfolding(forms::specs::Forms::read_by))]
pub fn read(line: &[u8], k: u16) -> Result<Solve, u64>
    ensures { Gives solve_form result k line.now }
{
    let name = words::word(line, u64::from(k));
    let behind = u32::from(k) + 1;
    if words::is_word(name, b"kepler") {
        return kepler(line, behind);
    }
    if words::is_word(name, b"lambert") {
        return lambert(line, behind);
    }
    if words::is_word(name, b"theta") {
        return theta(line, behind);
    }
    if words::is_word(name, b"apsides") {
        return apsides(line, behind);
    }
    Err(u64::from(behind))
}
