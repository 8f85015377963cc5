// What each call does, or why it is refused.
ghost use Rattle.std.specs.Prelude.{◌≡◌, ◌^◌, ◌<◌};
ghost use Rattle.scanner.specs.Begin.{answer, begun};
ghost use Rattle.scanner.specs.Sign.{draft_of, outcome, signed};
ghost use Rattle.scanner.specs.Hear.{heard};
ghost use Rattle.scanner.specs.InnerRefusals.{number_in, answer_in};

use super::refusal::Refusal;
use super::session::Session;
use super::{reading, signing, state, writing};
use window::time::Time;

// The longest reply that a setup writes.
const MOST_REPLY: usize = 459;

const LAST_NONCE: u64 = 4294967295;

pub fn begin(time: u32, setup_reply: &[u8], state: &mut [u8]) -> Result<(), Refusal>
    ensures { answer (number_in result) state.new ≡ begun time setup_reply.now state.old }
{
    if state.len() != state::SIZE {
        return Err(Refusal::NoSession);
    }
    if MOST_REPLY < setup_reply.len() {
        return Err(Refusal::BadPart);
    }
    let brought = reply::reading::read(setup_reply);
    // Lent as it lies, so that no second reply lies in the call's frame.
    let Some(reply) = &brought else {
        return Err(Refusal::NotOurs);
    };
    if !reading::are_good(reply.ah, reply.h, reply.eah.as_slice()) {
        return Err(Refusal::NotOurs);
    }
    state::clear(state);
    Session::begun(Time(time), reply).write(state);
    Ok(())
}

// Kept: the parameters of scanner_sign, a C call.
pub fn sign(
    clock: u32,
    method: &[u8],
    head: &[u8],
    path: &[u8],
    body: &[u8],
    state: &mut [u8],
    out: &mut [u8],
) -> Result<usize, Refusal>
    ensures size { answer_in result < 2 ^ 32 }
    ensures is { outcome (answer_in result) out.new state.new ≡ signed (draft_of clock method.now head.now path.now body.now) state.old out.old }
{
    let session = Session::read(state).ok_or(Refusal::NoSession)?;
    if LAST_NONCE < session.next {
        return Err(Refusal::NoNonce);
    }
    let brought = signing::brought(method, head, path, body, out).ok_or(Refusal::BadPart)?;
    let code = signing::code(&session, Time(clock), &brought).ok_or(Refusal::BadPart)?;
    let size = writing::put(out, &session, &code, Time(clock));
    let (last, next) = session.after(Time(clock));
    state::advance(state, last, next);
    Ok(size)
}

pub fn hear(value: &[u8], state: &mut [u8]) -> Result<(), Refusal>
    ensures { answer (number_in result) state.new ≡ heard value.now state.old }
{
    let session = Session::read(state).ok_or(Refusal::NoSession)?;
    if !reading::is_invalidation(value, session.hash, session.key) {
        return Err(Refusal::NotOurs);
    }
    state::clear(state);
    Ok(())
}
