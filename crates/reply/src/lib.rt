// The replies that the gate writes: that of a setup, which is read back too, and the invalidation of a session.
#![tactic(auto)]

ghost use Rattle.std.specs.Prelude.{◌≡◌, ◌++◌, ◌+◌, ◌≤◌, length};
ghost use Rattle.cells.specs.Runs.{fronted};
ghost use Rattle.cells.specs.InnerRun.{run_of};
ghost use Rattle.cells.specs.InnerLaid.{Laid};
ghost use Rattle.cells.specs.Text.{codes};
ghost use Rattle.armor.specs.Value.{field, field_text, following};
ghost use Rattle.reply.specs.Replies.{extra_field, token_fields, order_fields, invalidation};
ghost use Rattle.reply.specs.InnerWritten.{reply_text};

use armor::Reply;
use hashes::Hash;

pub mod reading;

// Writes the reply of a setup that carries this to the front of out; how long it is.
pub fn setup(out: &mut [u8], reply: &Reply) -> usize
    requires { 1024 ≤ length out.old }
    ensures { (result ≡ length (reply_text reply.now)) × (out.new ≡ fronted (reply_text reply.now) out.old) × (result ≤ 467) }
{
    let at = put_token(out, reply);
    put_orders(
        out,
        at,
        Hash::named(reply.h),
        reply.ah,
        reply.eah.as_slice(),
    )
}

// Writes the invalidation of the session with this key to the front of out; how long it is: 46 bytes under SHA-256, 90 under SHA-512.
pub fn invalidate(out: &mut [u8], hash: Hash, key: &[u8; 32]) -> usize
    requires { 1024 ≤ length out.old }
    ensures { (result ≡ length (invalidation hash key.now)) × (out.new ≡ fronted (invalidation hash key.now) out.old) }
{
    let mut state = hmac::begin(hash, key);
    state.absorb(b"Session Expired");
    let code = hmac::finish(key, &state);
    armor::put_field(out, 0, b"i", &code[..hash.size()])
}

// s, iv, tag and kh at the front of out, and the place after them.
fn put_token(out: &mut [u8], reply: &Reply) -> usize
    requires { 259 ≤ length out.old }
    ensures { (result ≤ 259) × Laid out.old out.new 0 result (field_text (field (codes "s") (run_of reply.now.s)) ++ following (token_fields reply.now.iv reply.now.tag reply.now.key)) }
{
    let after_s = armor::put_field(out, 0, b"s", reply.s.as_slice());
    let after_iv = armor::put_next(out, after_s, b"iv", &reply.iv);
    let after_tag = armor::put_next(out, after_iv, b"tag", &reply.tag);
    armor::put_next(out, after_tag, b"kh", &reply.key)
}

// h, ah, and eah if there are extra names, after other fields.
// Kept: extra's length as a clause: names::Covered says more, and a function that docs/CONTRACTS.md names may not ask more.
pub fn put_orders(out: &mut [u8], at: usize, hash: Hash, mask: u64, extra: &[u8]) -> usize
    requires { (at + 208 ≤ length out.old) × (length extra.now ≤ 128) }
    ensures { (result ≤ at + 208) × Laid out.old out.new at result (following (order_fields hash mask extra.now)) }
{
    let after_h = armor::put_mask(out, at, b"h", hash.mask());
    let after_ah = armor::put_mask(out, after_h, b"ah", mask);
    put_extra(out, after_ah, extra)
}

// eah after other fields, if there are extra names.
fn put_extra(out: &mut [u8], at: usize, extra: &[u8]) -> usize
    requires { (at + 177 ≤ length out.old) × (length extra.now ≤ 128) }
    ensures { (result ≤ at + 177) × Laid out.old out.new at result (following (extra_field extra.now)) }
{
    if extra.is_empty() {
        return at;
    }
    armor::put_next(out, at, b"eah", extra)
}
