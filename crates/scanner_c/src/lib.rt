// A scanner's three calls as C makes them: the library `scanner` says what they answer, and each export is its call. include/scanner.h declares them.
#![tactic(auto)]

ghost use Rattle.std.specs.Prelude.{◌≡◌};
ghost use Rattle.scanner.specs.Begin.{answer, begun};
ghost use Rattle.scanner.specs.Sign.{draft_of, outcome, signed};
ghost use Rattle.scanner.specs.Hear.{heard};

// Begins a session with the reply to its setup, at a time.
#[unsafe(no_mangle)]
pub extern "C" fn scanner_begin(time: u32, setup_reply: &[u8], state: &mut [u8]) -> u32
    ensures { answer result state.new ≡ begun time setup_reply.now state.old }
{
    scanner::scanner_begin(time, setup_reply, state)
}

// Makes the X-S-Armor value of a request, at the front of out. The answer is the number plus 256 times its length.
#[unsafe(no_mangle)]
pub extern "C" fn scanner_sign(
    clock: u32,
    method: &[u8],
    head: &[u8],
    path: &[u8],
    body: &[u8],
    state: &mut [u8],
    out: &mut [u8],
) -> u32
    ensures { outcome result out.new state.new ≡ signed (draft_of clock method.now head.now path.now body.now) state.old out.old }
{
    scanner::scanner_sign(clock, method, head, path, body, state, out)
}

// Hears a value: if it is the session's invalidation, the session is gone.
#[unsafe(no_mangle)]
pub extern "C" fn scanner_hear(value: &[u8], state: &mut [u8]) -> u32
    ensures { answer result state.new ≡ heard value.now state.old }
{
    scanner::scanner_hear(value, state)
}
