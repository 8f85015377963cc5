// Whether the two fields' values are those that are asked for.
ghost use Rattle.std.specs.Prelude.{◌≡◌, ◌≤◌, length, take};
ghost use Rattle.cells.specs.Runs as R;
ghost use Rattle.signatures.specs.Fields.{signature_value};
ghost use Rattle.signatures.specs.InnerAnswers.{Tells};
ghost use Rattle.carrier.specs.Asked.{asked_number};
ghost use Rattle.carrier.specs.Verify.{told_number, first_refusal, agrees};
ghost use Rattle.carrier.specs.InnerRefusals.{number_in};
ghost use Rattle.carrier.specs.InnerSteps.{asked_in, VerdictIs};

use super::asked::Asked;
use super::refusal::Refusal;
use super::sign;
use super::values::Values;
use signatures::{Input, reading};

// When the signature is said to have been created.
pub fn judge(asked: &Asked, values: &Values) -> Result<u64, Refusal>
    ensures { VerdictIs (asked_in asked.now) values.now.input.now values.now.signature.now result }
{
    let mut names_room = [0; 4096];
    let mut key_room = [0; 4096];
    let sizes = reading::read_input(values.input, &mut names_room, &mut key_room);
    let told = Input {
        label: &values.input[..sizes.label],
        names: &names_room[..sizes.names],
        created: sizes.created,
        key_id: &key_room[..sizes.key_id],
    };
    first(asked.check(), check_told(asked, values, &told))?;
    if !agrees(asked, values, &told) {
        return Err(Refusal::BadSignature);
    }
    Ok(told.created)
}

// What is refused of the two values, the list and the code apart, by what the first tells.
fn check_told(asked: &Asked, values: &Values, told: &Input) -> Result<(), Refusal>
    requires { Tells values.now.input.now told.now }
    ensures { number_in result ≡ told_number (asked_in asked.now) values.now.input.now values.now.signature.now }
{
    let formed = reading::good_input(values.input, told)
        & reading::good_signature(values.signature);
    let asked_for = cells::same(asked.label, told.label)
        & (cells::same(asked.label, reading::label_of(values.signature))
            & cells::same(asked.key_id, told.key_id));
    if !formed {
        return Err(Refusal::Malformed);
    }
    if !asked_for {
        return Err(Refusal::BadLabel);
    }
    Ok(())
}

// The refusal with the lower number.
// Kept: by number and not a derived order: first_refusal is said of numbers, and 0, which refuses nothing, is not the least.
fn first(asked: Result<(), Refusal>, told: Result<(), Refusal>) -> Result<(), Refusal>
    ensures { number_in result ≡ first_refusal (number_in asked) (number_in told) }
{
    match (asked, told) {
        (Err(refusal), Err(other)) if other.number() < refusal.number() => told,
        (Ok(()), _) => told,
        _ => asked,
    }
}

// Whether the list is the one that is asked for, and the code that of the message.
fn agrees(asked: &Asked, values: &Values, told: &Input) -> bool
    requires { Tells values.now.input.now told.now × (asked_number (asked_in asked.now) ≡ 0) × (told_number (asked_in asked.now) values.now.input.now values.now.signature.now ≡ 0) }
    ensures { result ≡ agrees (asked_in asked.now) values.now.input.now values.now.signature.now }
{
    let params = structured::reading::past(values.input, asked.label.len() + 1);
    let code = signatures::code(&asked.message, asked.names, params, asked.key);
    cells::same(asked.names, told.names) & bears(asked.label, &code, values.signature)
}

// Whether a value of Signature is the label with a code: every byte is looked at, whatever the others are.
fn bears(label: &[u8], code: &[u8; 64], signature: &[u8]) -> bool
    requires { length label.now ≤ 64 }
    ensures { result ≡ R.same (signature_value label.now (take 32 code.now)) signature.now }
{
    let mut text = [0; 128];
    let end = sign::put_code(&mut text, 0, label, code);
    cells::same(&text[..end], signature)
}
