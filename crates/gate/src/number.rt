// The number of a call that writes no reply.
ghost use Rattle.std.specs.Prelude.{◌≡◌};
ghost use Rattle.stages.specs.InnerRefusals.{number_in};

use stages::refusal::Refusal;

// 0 where nothing refuses it.
// Kept: the C interface: a call answers a number.
pub fn of(done: Result<(), Refusal>) -> u32
    ensures { result ≡ number_in done }
{
    match done {
        Ok(()) => 0,
        Err(refusal) => refusal.number(),
    }
}
