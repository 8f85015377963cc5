// Times, and how far apart two of them are.
ghost use Rattle.std.specs.Prelude.{◌≡◌};
ghost use Rattle.window.specs.Time.{difference, exceeds, most_ahead};

// Seconds that a request's clock may run ahead of the host's: document 02, K6.
const MOST_AHEAD: u32 = 30;

// Seconds, as a request or the host tells them; a record that a host lends holds one.
#[repr(C)]
#[derive(Clone, Copy, PartialEq, Eq, PartialOrd, Ord)]
pub struct Time(pub u32);

// From `earlier` to `later`, below zero where the clock that told `earlier` runs ahead.
pub fn age(later: Time, earlier: Time) -> i64
    ensures { result ≡ difference later.0 earlier.0 }
{
    i64::from(later.0) - i64::from(earlier.0)
}

// Whether more than `limit` seconds lie between the two.
fn apart(later: Time, earlier: Time, limit: u32) -> bool
    ensures { result ≡ exceeds later.0 earlier.0 limit }
{
    i64::from(limit) < age(later, earlier)
}

// Whether a request that was made at `t` is older than its life.
pub fn too_old(clock: Time, t: Time, life: u32) -> bool
    ensures { result ≡ exceeds clock.0 t.0 life }
{
    apart(clock, t, life)
}

// Whether a request that was made at `t` comes from a clock that runs too far ahead.
pub fn too_far_ahead(clock: Time, t: Time) -> bool
    ensures { result ≡ exceeds t.0 clock.0 most_ahead }
{
    apart(t, clock, MOST_AHEAD)
}

// Whether the session idled between `lt` and `t`.
pub fn idle(t: Time, lt: Time, limit: u32) -> bool
    ensures { result ≡ exceeds t.0 lt.0 limit }
{
    apart(t, lt, limit)
}
