// A client's own side of a session, for hand scanners: document 02, K14. It begins a session with the reply to a setup, makes the X-S-Armor
// value of each request, and believes an invalidation if it is the session's own.
// Each call takes any numbers and bytes. What is kept between two calls lies in bytes that the host lends.
#![tactic(auto)]

ghost use Rattle.std.specs.Prelude.{◌≡◌};
ghost use Rattle.scanner.specs.Begin.{answer, begun};
ghost use Rattle.scanner.specs.Sign.{draft_of, outcome, signed};
ghost use Rattle.scanner.specs.Hear.{heard};

mod answering;
mod reading;
mod refusal;
mod session;
mod signing;
mod state;
mod writing;

// Begins a session with the reply to its setup, at a time.
// Kept: the C interface, in every call here: parts by themselves, and a number as the answer.
pub fn scanner_begin(time: u32, setup_reply: &[u8], state: &mut [u8]) -> u32
    ensures { answer result state.new ≡ begun time setup_reply.now state.old }
{
    match answering::begin(time, setup_reply, state) {
        Ok(()) => 0,
        Err(refusal) => refusal.number(),
    }
}

// Makes the X-S-Armor value of a request, at the front of out. The answer is the number plus 256 times its length.
pub fn scanner_sign(
    clock: u32,
    method: &[u8],
    head: &[u8],
    path: &[u8],
    body: &[u8],
    state: &mut [u8],
    out: &mut [u8],
) -> u32
    ensures { outcome result out.new state.new ≡ signed (draft_of clock method.now head.now path.now body.now) state.old out.old }
{
    match answering::sign(clock, method, head, path, body, state, out) {
        Ok(size) => 256 * size as u32,
        Err(refusal) => refusal.number(),
    }
}

// Hears a value: if it is the session's invalidation, the session is gone.
pub fn scanner_hear(value: &[u8], state: &mut [u8]) -> u32
    ensures { answer result state.new ≡ heard value.now state.old }
{
    match answering::hear(value, state) {
        Ok(()) => 0,
        Err(refusal) => refusal.number(),
    }
}
