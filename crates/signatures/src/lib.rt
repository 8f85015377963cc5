// HTTP message signatures under hmac-sha256: RFC 9421. The signature base, which is never gathered, its code, and the values of the two fields.
#![tactic(auto)]

ghost use Rattle.std.specs.Prelude.{◌≡◌, true, ◌+◌, ◌^◌, ◌≤◌, ◌<◌, length, take};
ghost use Rattle.cells.specs.InnerLaid.{Laid};
ghost use Rattle.names.specs.Extra.{extra_names as listed};
ghost use Rattle.sha_2.specs.InnerTaken.{TookIn};
ghost use Rattle.signatures.specs.Components.{all_components};
ghost use Rattle.signatures.specs.Base.{component_line, component_lines, base_with, code_of};
ghost use Rattle.signatures.specs.Fields.{signature_text};
ghost use Rattle.signatures.specs.InnerAnswers.{message_in, value_of_input, Quoted};

use cells::decimal;
use hashes::Hash;
use names::Names;
use sha_2::State;

pub mod components;
mod input;
mod message;
pub mod reading;

pub use input::Input;
pub use message::Message;

// The code under key of the base that ends with these parameters, at the front.
pub fn code(message: &Message, names: &[u8], params: &[u8], key: &[u8]) -> [u8; 64]
    requires { (length names.now ≤ 1024) × (all_components (listed names.now) ≡ true) × (length params.now ≤ 4096) × (length key.now ≤ 256) }
    ensures { take 32 result ≡ code_of key.now (base_with (message_in message.now) names.now params.now) }
{
    let mut state = hmac::begin(Hash::Sha256, key);
    absorb_lines(&mut state, message, names);
    state.absorb(b"\"@signature-params\": ");
    state.absorb(params);
    hmac::finish(key, &state)
}

fn absorb_lines(state: &mut State, message: &Message, names: &[u8])
    requires { (all_components (listed names.now) ≡ true) × (state.old.length + length (component_lines (message_in message.now) (listed names.now)) < 2 ^ 61) }
    ensures { TookIn state.old (component_lines (message_in message.now) (listed names.now)) state.new }
{
    if names.is_empty() {
        return;
    }
    let mut buffer = [0; 16384];
    for name in Names::of(names) {
        let size = message.put_value(name, &mut buffer).unwrap_or(0);
        absorb_line(state, name, &buffer[..size]);
    }
}

fn absorb_line(state: &mut State, name: &[u8], value: &[u8])
    requires { Quoted name.now × (state.old.length + length (component_line name.now value.now) < 2 ^ 61) }
    ensures { TookIn state.old (component_line name.now value.now) state.new }
{
    state.absorb(b"\"");
    state.absorb(name);
    state.absorb(b"\": ");
    state.absorb(value);
    state.absorb(b"\n");
}

// The value of Signature-Input, from byte at of out on, and the place after it.
pub fn put_input(out: &mut [u8], at: usize, input: &Input) -> usize
    requires { at + length (value_of_input input.now) ≤ length out.old }
    ensures { Laid out.old out.new at result (value_of_input input.now) }
{
    let mut end = cells::put_at(out, at, input.label);
    end = cells::put_at(out, end, b"=");
    end = structured::put_list(out, end, input.names);
    end = cells::put_at(out, end, b";created=");
    end = cells::put_at(out, end, decimal::digits(input.created).as_slice());
    end = cells::put_at(out, end, b";keyid=");
    structured::put_string(out, end, input.key_id)
}

// The value of Signature with a code's base64, from byte at of out on, and the place after it.
pub fn put_signature(out: &mut [u8], at: usize, label: &[u8], code: &[u8]) -> usize
    requires { at + length (signature_text label.now code.now) ≤ length out.old }
    ensures { Laid out.old out.new at result (signature_text label.now code.now) }
{
    let mut end = cells::put_at(out, at, label);
    end = cells::put_at(out, end, b"=:");
    end = cells::put_at(out, end, code);
    cells::put_at(out, end, b":")
}
