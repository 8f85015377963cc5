// Signing calls to a carrier, and verifying what comes back in the same form: document 02, K13, by RFC 9421 under hmac-sha256.
// Each call takes any numbers and bytes.
#![tactic(auto)]

ghost use Rattle.std.specs.Prelude.{◌≡◌};
ghost use Rattle.carrier.specs.Asked.{asked_of, answer};
ghost use Rattle.carrier.specs.Sign.{signed};
ghost use Rattle.carrier.specs.Verify.{verified};

use refusal::Refusal;
use values::Values;

mod asked;
mod checks;
mod refusal;
mod sign;
mod sizes;
mod values;
mod verify;

const MOST_VALUE: usize = 4096;

const TIME_SIZE: usize = 8;

// Writes the fields Signature-Input and Signature of a message to the front of out. The answer is the number plus 256 times their length.
// Kept: the C interface, in both calls: parts by themselves, and a number as the answer.
pub fn carrier_sign(
    method: &[u8],
    authority: &[u8],
    path: &[u8],
    lines: &[u8],
    names: &[u8],
    created: u64,
    label: &[u8],
    key_id: &[u8],
    key: &[u8],
    out: &mut [u8],
) -> u32
    ensures { answer result out.new ≡ signed (asked_of method.now authority.now path.now lines.now names.now label.now key_id.now key.now) created out.old }
{
    let Some(asked) = sizes::asked(method, authority, path, lines, names, label, key_id, key) else {
        return Refusal::BadSize.number();
    };
    match sign::sign(&asked, created, out) {
        Ok(size) => 256 * size as u32,
        Err(refusal) => refusal.number(),
    }
}

// Whether a message bears the signature that is asked for. Where it does, created becomes its time, as 8 bytes.
pub fn carrier_verify(
    method: &[u8],
    authority: &[u8],
    path: &[u8],
    lines: &[u8],
    names: &[u8],
    label: &[u8],
    key_id: &[u8],
    key: &[u8],
    input: &[u8],
    signature: &[u8],
    created: &mut [u8],
) -> u32
    ensures { answer result created.new ≡ verified (asked_of method.now authority.now path.now lines.now names.now label.now key_id.now key.now) input.now signature.now created.old }
{
    let Some(asked) = sizes::asked(method, authority, path, lines, names, label, key_id, key) else {
        return Refusal::BadSize.number();
    };
    if MOST_VALUE < input.len() || MOST_VALUE < signature.len() || created.len() != TIME_SIZE {
        return Refusal::BadSize.number();
    }
    match verify::judge(&asked, &Values { input, signature }) {
        Ok(time) => {
            cells::put64(created, 0, time);
            0
        }
        Err(refusal) => refusal.number(),
    }
}
