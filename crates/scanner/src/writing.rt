// Writing a request's X-S-Armor value.
ghost use Rattle.std.specs.Prelude.{◌≡◌, ◌+◌, ◌≤◌, length};
ghost use Rattle.cells.specs.InnerLaid.{Laid};
ghost use Rattle.armor.specs.Value.{following};
ghost use Rattle.signed.specs.SignedText.{orders_nonce};
ghost use Rattle.scanner.specs.Requests.{nonce_field};
ghost use Rattle.scanner.specs.InnerSteps.{session_at, main_text, PutsValue};

use super::session::Session;
use window::time::Time;

// The value of a request whose code stands at the front of some bytes; how long it is.
// Kept: that out has 4096 bytes as a clause: it is the C interface's buffer, and a slice has no type with a least length.
pub fn put(out: &mut [u8], session: &Session, code: &[u8; 64], clock: Time) -> usize
    requires { (session.now.next ≤ 4294967295) × (4096 ≤ length out.old) }
    ensures { PutsValue (session_at session.now) clock.0 code.now out.old out.new result × (result ≤ 4096) }
{
    let after_main = put_main(out, session, &code[..session.hash.size()], clock);
    let after_orders = reply::put_orders(
        out,
        after_main,
        session.hash,
        session.mask,
        session.extra,
    );
    put_nonce(out, after_orders, session.mask, session.next as u32)
}

// s, c, t, lt, iv and tag at the front of out, and the place after them.
fn put_main(out: &mut [u8], session: &Session, c: &[u8], clock: Time) -> usize
    requires { (4096 ≤ length out.old) × (length c.now ≤ 64) }
    ensures { (result ≤ 325) × Laid out.old out.new 0 result (main_text (session_at session.now) c.now clock.0) }
{
    let after_s = armor::put_field(out, 0, b"s", session.s);
    let after_c = armor::put_next(out, after_s, b"c", c);
    let after_t = armor::put_number(out, after_c, b"t", clock.0);
    let after_lt = armor::put_number(out, after_t, b"lt", session.last.0);
    let after_iv = armor::put_next(out, after_lt, b"iv", session.iv);
    armor::put_next(out, after_iv, b"tag", session.tag)
}

// n after other fields, if nonces are ordered.
fn put_nonce(out: &mut [u8], at: usize, mask: u64, n: u32) -> usize
    requires { at + 11 ≤ length out.old }
    ensures { (result ≤ at + 11) × Laid out.old out.new at result (following (nonce_field (orders_nonce mask) n)) }
{
    if mask % 2 == 1 {
        return armor::put_number(out, at, b"n", n);
    }
    at
}
