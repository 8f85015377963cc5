// Fields written into a buffer.
// Kept: a buffer and a place in it, as cells::put_at takes them. A writer that holds both would be lent by &mut, and the place is the answer here.
ghost use Rattle.std.specs.Prelude.{◌≡◌, [], ◌∷◌, ◌+◌, ◌*◌, ◌/◌, ◌≤◌, length};
ghost use Rattle.cells.specs.InnerLaid.{Laid};
ghost use Rattle.armor.specs.Numerals.{number_bytes, mask_bytes};
ghost use Rattle.armor.specs.Value.{field, field_text, following};

use super::numeral;

// A field from byte at of out on, and the place after it.
pub fn put_field(out: &mut [u8], at: usize, name: &[u8], content: &[u8]) -> usize
    requires { at + length name.now + 1 + 4 * ((length content.now + 2) / 3) ≤ length out.old }
    ensures { (result ≡ at + length name.now + 1 + 4 * ((length content.now + 2) / 3)) × Laid out.old out.new at result (field_text (field name.now content.now)) }
{
    let colon = cells::put_at(out, at, name);
    let text = cells::put_at(out, colon, b":");
    let len = base_64::encode(content, &mut out[text..]);
    text + len
}

// A field after others.
pub fn put_next(out: &mut [u8], at: usize, name: &[u8], content: &[u8]) -> usize
    requires { at + length name.now + 2 + 4 * ((length content.now + 2) / 3) ≤ length out.old }
    ensures { (result ≡ at + length name.now + 2 + 4 * ((length content.now + 2) / 3)) × Laid out.old out.new at result (following (field name.now content.now ∷ [])) }
{
    let first = cells::put_at(out, at, b";");
    put_field(out, first, name, content)
}

// A mask after other fields.
// Kept: beside put_number: docs/CONTRACTS.md names both, and each asks for the room that its own bytes take.
pub fn put_mask(out: &mut [u8], at: usize, name: &[u8], mask: u64) -> usize
    requires { at + length name.now + 14 ≤ length out.old }
    ensures { (result ≤ at + length name.now + 14) × Laid out.old out.new at result (following (field name.now (mask_bytes mask) ∷ [])) }
{
    put_next(out, at, name, numeral::mask_bytes(mask).as_slice())
}

// A number after other fields.
pub fn put_number(out: &mut [u8], at: usize, name: &[u8], n: u32) -> usize
    requires { at + length name.now + 10 ≤ length out.old }
    ensures { (result ≤ at + length name.now + 10) × Laid out.old out.new at result (following (field name.now (number_bytes n) ∷ [])) }
{
    put_next(out, at, name, numeral::number_bytes(n).as_slice())
}
