//! Boundaries.
ghost use Rattle.std.specs.Prelude.{◌≡◌, ◌<◌};
ghost use Rattle.location_counter.specs.Counters.{aligned};

/// The first multiple of a boundary at a place or behind it.
pub(crate) fn aligned(at: u32, boundary: u32) -> u64
    requires { 0 < boundary }
    ensures { result ≡ aligned at boundary }
{
    let boundary = u64::from(boundary);
    (u64::from(at) + boundary - 1) / boundary * boundary
}
