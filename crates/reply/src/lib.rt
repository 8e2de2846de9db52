// The desk: a line in, a line out.
#![tactic(auto)]

ghost use Rattle.std.specs.Prelude.{◌≡◌};
ghost use Rattle.text.specs.Text.{InFront};
ghost use Rattle.text.specs.Pieces.{Laid};
ghost use Rattle.reply.specs.Replies.{reply_room, advance_asked, transfer_asked, solved_of, looked_of, reply_of, line_reply, reply_text};

use burn::Centre;
use forms::{Look, Request, Solve, Version};
use iterator::Beginning;
use lambert::Way;
use refusal::Refusal;
use solve::{Advanced, Transferred};
use vector::{State, Vector};

// The advance, graded by 01's fractions, or by those of a version of the settings in `used`.
fn advanced(
    used: &[u8],
    version: Version,
    mu: f64,
    state: State,
    time: f64,
    limit: u64,
    beginning: Beginning,
) -> Advanced
    ensures { result ≡ advance_asked used.now version mu state time limit beginning }
{
    match version {
        Version::Standard => solve::advance_limited(mu, state, time, limit, beginning),
        Version::Named(k) => graded::advance(used, k, mu, state, time, limit, beginning),
    }
}

// The transfer likewise.
fn transferred(
    used: &[u8],
    version: Version,
    mu: f64,
    first: Vector,
    second: Vector,
    way: Way,
    time: f64,
    limit: u64,
    beginning: Beginning,
) -> Transferred
    ensures { result ≡ transfer_asked used.now version mu first second way time limit beginning }
{
    match version {
        Version::Standard => {
            solve::transfer_velocity_limited(mu, first, second, way, time, limit, beginning)
        }
        Version::Named(k) => {
            graded::transfer_velocity(used, k, mu, first, second, way, time, limit, beginning)
        }
    }
}

// A solve's answer, at the front of a lent buffer.
fn solved(buf: &mut [u8], used: &[u8], given: Solve) -> usize
    ensures { Laid buf.old 0 (solved_of used.now given) buf.new result }
{
    match given {
        Solve::Kepler {
            mu,
            state,
            time,
            beginning,
            limit,
            version: v,
        } => solutions::tell_advance(buf, advanced(used, v, mu, state, time, limit, beginning)),
        Solve::Lambert {
            mu,
            first,
            second,
            time,
            way,
            beginning,
            limit,
            version: v,
        } => solutions::tell_transfer(
            buf,
            transferred(used, v, mu, first, second, way, time, limit, beginning),
        ),
        Solve::Theta {
            mu,
            state,
            sine,
            cosine,
        } => answers::tell_time(buf, theta::time_theta(mu, state, sine, cosine)),
        Solve::Apsides { mu, state } => answers::tell_apsides(buf, apsides::periapo(mu, state)),
    }
}

// The thumbwheel's answer, and the sight line's.
fn looked(buf: &mut [u8], given: Look) -> usize
    ensures { Laid buf.old 0 (looked_of given) buf.new result }
{
    match given {
        Look::Wheel(e) => views::tell_wheel(buf, wheel::wheel(e)),
        Look::Sight {
            active,
            passive,
            elevation,
            horizontal,
            vertical,
        } => views::tell_sight(
            buf,
            sight::crossings(active, passive, elevation, horizontal, vertical),
        ),
    }
}

// What is asked, answered likewise.
fn answered(buf: &mut [u8], used: &[u8], request: Request) -> usize
    ensures { Laid buf.old 0 (reply_of used.now request) buf.new result }
{
    match request {
        Request::Nothing => 0,
        Request::Root(x) => answers::tell_number(buf, root::root(x)),
        Request::C(xi) => answers::tell_number(buf, series::c(xi)),
        Request::S(xi) => answers::tell_number(buf, series::s(xi)),
        Request::Trial {
            asked,
            lo,
            hi,
            below,
            above,
            k,
        } => answers::tell_trial(buf, iterator::trial(asked, lo, hi, below, above, k)),
        Request::Look(x) => looked(buf, x),
        Request::Solve(x) => solved(buf, used, x),
        Request::Burn {
            body,
            radius,
            mu,
            active,
            ta,
            passive,
            tp,
            t2,
            t3,
        } => changes::tell_burn(
            buf,
            burn::constant_height(Centre { body, radius, mu }, active, ta, passive, tp, t2, t3),
        ),
        Request::Why(x) => reasons::tell(buf, inquiry::reason_of(used, x)),
    }
}

// A request answered, or the word that cannot be read.
fn line_answered(buf: &mut [u8], used: &[u8], request: Result<Request, u64>) -> usize
    ensures { Laid buf.old 0 (line_reply used.now request) buf.new result }
{
    match request {
        Ok(x) => answered(buf, used, x),
        Err(w) => columns::unread(buf, w),
    }
}

// The reply to a line, newline and all, made at the front of a lent buffer: its length, which is 0 where nothing is
// asked, or 15 for a buffer of under 512 bytes, which stays as it was. `used` is the used part of the settings, empty
// where there are none.
pub fn reply(used: &[u8], line: &[u8], buf: &mut [u8]) -> Result<usize, Refusal>
    ensures { InFront reply_room (reply_text used.now line.now) buf.old buf.new result }
{
    if buf.len() < 512 {
        return Err(Refusal::NoRoom);
    }
    Ok(line_answered(buf, used, requests::read(line)))
}
