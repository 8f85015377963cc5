// Whether a request covers what the orders say.
#![tactic(auto)]

ghost use Rattle.std.specs.Prelude.{◌≡◌, true, ◌≤◌, IfSome, length};
ghost use Rattle.cells.specs.Runs.{same};
ghost use Rattle.base_64.specs.Encoding.{encoded};
ghost use Rattle.armor.specs.Value.{carried};
ghost use Rattle.armor.specs.Keys.{key_c};
ghost use Rattle.armor.specs.Fields.{the, request_fields};
ghost use Rattle.armor.specs.InnerAnswers.{Holds};
ghost use Rattle.coverage.specs.Coverage.{as_ordered};
ghost use Rattle.coverage.specs.InnerTold.{told};

use armor::{Request, Span};
use hashes::Hash;

// Whether h of a request is one that the orders allow, c as long as its digests, and ah and eah those that the orders say, byte for byte.
// Kept: extra's length as a clause: names::Covered says more, and a function that docs/CONTRACTS.md names may not ask more.
pub fn as_ordered(
    value: &[u8],
    request: &Request,
    c: &[u8],
    hashes: u64,
    mask: u64,
    extra: &[u8],
) -> bool
    requires { (request_fields (carried value.now) ≡ true) × Holds value.now (carried value.now) request.now × (length c.now ≡ length (the key_c (carried value.now))) × (length extra.now ≤ 128) }
    ensures { result ≡ as_ordered hashes mask extra.now (carried value.now) }
{
    let size = Hash::named(request.h).size();
    let hash_good = hashes::allowed_one(hashes, request.h) & (c.len() == size);
    let mask_good = request.ah == mask;
    hash_good & (mask_good & extra_good(value, request.eah, extra))
}

// Whether the text of eah, where it is carried, is that of the extra names, and it is carried exactly if there are any.
fn extra_good(value: &[u8], eah: Option<Span>, extra: &[u8]) -> bool
    requires { IfSome eah (λ s. (s.start ≤ s.end) × (s.end ≤ length value.now)) × (length extra.now ≤ 128) }
    ensures { result ≡ told value.now eah extra.now }
{
    match eah {
        None => extra.is_empty(),
        Some(span) => !extra.is_empty() && is_text_of(&value[span.start..span.end], extra),
    }
}

// Whether a text is the base64 of at most 128 bytes.
fn is_text_of(text: &[u8], bytes: &[u8]) -> bool
    requires { length bytes.now ≤ 128 }
    ensures { result ≡ same text.now (encoded bytes.now) }
{
    let mut out = [0u8; 172];
    let len = base_64::encode(bytes, &mut out);
    cells::same(text, &out[..len])
}
