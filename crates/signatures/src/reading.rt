// Reading the values of the two fields: what they tell, and whether they are what is written of that.
ghost use Rattle.std.specs.Prelude.{◌≡◌, ◌≤◌, length};
ghost use Rattle.base_64.specs.Decoding.{decoded};
ghost use Rattle.signatures.specs.Fields.{label_in, of_digest, good_input, good_signature};
ghost use Rattle.signatures.specs.InnerAnswers.{Tells, ToldIs};

use super::{Input, components, put_input, put_signature};
use structured::reading;

// How long the label, the names joined by commas and the key id are that a value of Signature-Input tells, and when it was created.
#[derive(Clone, Copy)]
pub struct Told {
    pub label: usize,
    pub names: usize,
    pub created: u64,
    pub key_id: usize,
}

// What a value of Signature-Input tells: the names and the key id at the fronts of their buffers.
// Kept: lengths and not slices of the buffers, since of two buffers from which the answer borrows no clause can say what they hold.
pub fn read_input(text: &[u8], names: &mut [u8], key_id: &mut [u8]) -> Told
    requires { (length text.now ≤ length names.old) × (length text.now ≤ length key_id.old) }
    ensures { ToldIs text.now names.new key_id.new result }
{
    let label = label_of(text);
    let list = reading::past(text, label.len() + 2);
    let close = reading::end_before(b')', list);
    let from = reading::past(list, close + 10);
    let created = reading::read_integer(from);
    let last = reading::past(from, created.digits + 8);
    Told {
        label: label.len(),
        names: reading::unlist(&list[..close], names),
        created: created.value,
        key_id: reading::unescape(reading::but_last(last), key_id),
    }
}

// Whether a value of Signature-Input is what is written of what it tells.
// Kept: the new form is no plainer (a type that says what a text tells would hold the text too, and an Input that is written has none).
pub fn good_input(text: &[u8], told: &Input) -> bool
    requires { (length text.now ≤ 4096) × Tells text.now told.now }
    ensures { result ≡ good_input text.now }
{
    if !(structured::is_key(told.label)
        & (components::all_components(told.names)
            & structured::all_between(32, 126, told.key_id)))
    {
        return false;
    }
    let mut anew = [0; 24832];
    let end = put_input(&mut anew, 0, told);
    cells::same(&anew[..end], text)
}

// Whether a value of Signature is a label with 32 bytes.
pub fn good_signature(text: &[u8]) -> bool
    requires { length text.now ≤ 4096 }
    ensures { result ≡ good_signature text.now }
{
    let label = label_of(text);
    let code = reading::front(reading::past(text, label.len() + 2), 44);
    let mut anew = [0; 4160];
    let end = put_signature(&mut anew, 0, label, code);
    structured::is_key(label) & (of_digest(code) & cells::same(&anew[..end], text))
}

// The label of either value.
pub fn label_of(value: &[u8]) -> &[u8]
    ensures { result.now ≡ label_in value.now }
{
    &value[..reading::end_before(b'=', value)]
}

// Whether a text is the base64 of 32 bytes.
fn of_digest(text: &[u8]) -> bool
    ensures { result ≡ of_digest (decoded text.now) }
{
    base_64::measure(text) == Some(32)
}
