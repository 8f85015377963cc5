// The two calls to a carrier as C makes them: the library `carrier` says what they answer, and each export is its call. include/carrier.h declares them.
#![tactic(auto)]

ghost use Rattle.std.specs.Prelude.{◌≡◌};
ghost use Rattle.carrier.specs.Asked.{asked_of, answer};
ghost use Rattle.carrier.specs.Sign.{signed};
ghost use Rattle.carrier.specs.Verify.{verified};

// Writes the fields Signature-Input and Signature of a message to the front of out. The answer is the number plus 256 times their length.
#[unsafe(no_mangle)]
pub extern "C" fn carrier_sign(
    method: &[u8],
    authority: &[u8],
    path: &[u8],
    lines: &[u8],
    names: &[u8],
    created: u64,
    label: &[u8],
    key_id: &[u8],
    key: &[u8],
    out: &mut [u8],
) -> u32
    ensures { answer result out.new ≡ signed (asked_of method.now authority.now path.now lines.now names.now label.now key_id.now key.now) created out.old }
{
    carrier::carrier_sign(
        method, authority, path, lines, names, created, label, key_id, key, out,
    )
}

// Whether a message bears the signature that is asked for. Where it does, created becomes its time, as 8 bytes.
#[unsafe(no_mangle)]
pub extern "C" fn carrier_verify(
    method: &[u8],
    authority: &[u8],
    path: &[u8],
    lines: &[u8],
    names: &[u8],
    label: &[u8],
    key_id: &[u8],
    key: &[u8],
    input: &[u8],
    signature: &[u8],
    created: &mut [u8],
) -> u32
    ensures { answer result created.new ≡ verified (asked_of method.now authority.now path.now lines.now names.now label.now key_id.now key.now) input.now signature.now created.old }
{
    carrier::carrier_verify(
        method, authority, path, lines, names, label, key_id, key, input, signature, created,
    )
}
