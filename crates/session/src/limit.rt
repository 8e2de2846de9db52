// How large a time and a local offset may be.
ghost use Rattle.std.specs.Prelude.{◌≡◌};
ghost use Rattle.session.specs.Limits.{time_allowed, offset_allowed};

// Whether a time is at most 2^53 in size.
pub fn time_allowed(t: i64) -> bool
    ensures { result ≡ time_allowed t }
{
    -9007199254740992 <= t && t <= 9007199254740992
}

// Whether an offset is at most 14 hours, in minutes.
pub fn offset_allowed(z: i16) -> bool
    ensures { result ≡ offset_allowed z }
{
    -840 <= z && z <= 840
}
