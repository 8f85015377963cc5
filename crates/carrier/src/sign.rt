// Writing the two fields of a message that may be signed.
ghost use Rattle.std.specs.Prelude.{◌≡◌, ◌+◌, ◌≤◌, length, take};
ghost use Rattle.cells.specs.InnerLaid.{Laid};
ghost use Rattle.structured.specs.Reading.{last_integer};
ghost use Rattle.signatures.specs.Fields.{signature_value};
ghost use Rattle.carrier.specs.Asked.{asked_number};
ghost use Rattle.carrier.specs.Sign.{sign_text};
ghost use Rattle.carrier.specs.InnerSteps.{asked_in, Signs};

use super::asked::Asked;
use super::refusal::Refusal;
use signatures::Input;

const LATEST: u64 = 999999999999999;

const LEAST_OUT: usize = 4096;

// Both lines at the front of out, and how long they are.
pub fn sign(asked: &Asked, created: u64, out: &mut [u8]) -> Result<usize, Refusal>
    ensures { Signs (asked_in asked.now) created out.old out.new result }
{
    if LATEST < created || out.len() < LEAST_OUT {
        return Err(Refusal::BadSize);
    }
    asked.check()?;
    Ok(write(asked, created, out))
}

// Kept: that out has 4096 bytes as a clause: it is the C interface's buffer, and a slice has no type with a least length.
fn write(asked: &Asked, created: u64, out: &mut [u8]) -> usize
    requires { (created ≤ last_integer) × (4096 ≤ length out.old) × (asked_number (asked_in asked.now) ≡ 0) }
    ensures { Laid out.old out.new 0 result (sign_text (asked_in asked.now) created) }
{
    let input = Input {
        label: asked.label,
        names: asked.names,
        created,
        key_id: asked.key_id,
    };
    let start = cells::put_at(out, 0, b"Signature-Input: ");
    let end = signatures::put_input(out, start, &input);
    let params = start + asked.label.len() + 1;
    let code = signatures::code(&asked.message, asked.names, &out[params..end], asked.key);
    let next = cells::put_at(out, end, b"\r\nSignature: ");
    let last = put_code(out, next, asked.label, &code);
    cells::put_at(out, last, b"\r\n")
}

// The value of Signature with the code at the front of an array, from byte at of out on, and the place after it.
pub fn put_code(out: &mut [u8], at: usize, label: &[u8], code: &[u8; 64]) -> usize
    requires { at + length (signature_value label.now (take 32 code.now)) ≤ length out.old }
    ensures { Laid out.old out.new at result (signature_value label.now (take 32 code.now)) }
{
    let mut text = [0; 44];
    base_64::encode(&code[..32], &mut text);
    signatures::put_signature(out, at, label, &text)
}
