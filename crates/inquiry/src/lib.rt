// Why a solve that is asked for refuses, or that it does not.
#![tactic(auto)]

ghost use Rattle.std.specs.Prelude.{◌≡◌};
ghost use Rattle.inquiry.specs.Inquiry.{settled_by, inquiry_of};

use forms::{Solve, Version};
use reason::Reason;

// Where a version of the settings is named, its refusal is ahead of the solve's own.
fn settled(used: &[u8], version: Version, r: Reason) -> Reason
    ensures { result ≡ settled_by used.now version r }
{
    match version {
        Version::Standard => r,
        Version::Named(k) => match settings::look_up(used, k) {
            Ok(_) => r,
            Err(number) => Reason::Settings(number),
        },
    }
}

// The reason, with the used part of the settings that the solve may name a version of.
pub fn reason_of(used: &[u8], given: Solve) -> Reason
    ensures { result ≡ inquiry_of used.now given }
{
    match given {
        Solve::Kepler {
            mu,
            state,
            time,
            beginning,
            limit,
            version: v,
        } => settled(used, v, why::advance(mu, state, time, limit, beginning)),
        Solve::Lambert {
            mu,
            first,
            second,
            time,
            way,
            beginning,
            limit,
            version: v,
        } => settled(
            used,
            v,
            why::transfer_velocity(mu, first, second, way, time, limit, beginning),
        ),
        Solve::Theta {
            mu,
            state,
            sine,
            cosine,
        } => why_direct::time_theta(mu, state, sine, cosine),
        Solve::Apsides { mu, state } => why_direct::periapo(mu, state),
    }
}
