// Texts of structured fields: RFC 8941. Here keys, strings and inner lists of strings; what such texts tell is read in `reading`.
#![tactic(auto)]

ghost use Rattle.std.specs.Prelude.{◌≡◌, [], ◌∷◌, ◌+◌, ◌≤◌, length};
ghost use Rattle.cells.specs.Spans.{all};
ghost use Rattle.cells.specs.InnerLaid.{Laid};
ghost use Rattle.names.specs.Names.{between};
ghost use Rattle.names.specs.Extra.{extra_names};
ghost use Rattle.structured.specs.Texts.{key_start, key_byte, is_key, escaped, string, strings, inner_list};

use names::Names;

pub mod reading;

pub fn is_key(run: &[u8]) -> bool
    ensures { result ≡ is_key run.now }
{
    match run.split_first() {
        Some((first, rest)) => key_start(*first) & cells::all(rest, key_byte),
        None => false,
    }
}

fn key_byte(b: u8) -> bool
    ensures { result ≡ key_byte b }
{
    key_start(b) | ((b'0' <= b) & (b <= b'9')) | ((b == b'_') | ((b == b'-') | (b == b'.')))
}

fn key_start(b: u8) -> bool
    ensures { result ≡ key_start b }
{
    ((b'a' <= b) & (b <= b'z')) | (b == b'*')
}

// Whether each byte of a run is from low to high.
pub fn all_between(low: u8, high: u8, run: &[u8]) -> bool
    ensures { result ≡ all (between low high) run.now }
{
    cells::all(run, |b| (low <= b) & (b <= high))
}

// The string of a text, from byte at of out on, and the place after it.
pub fn put_string(out: &mut [u8], at: usize, text: &[u8]) -> usize
    requires { at + length (string text.now) ≤ length out.old }
    ensures { Laid out.old out.new at result (string text.now) }
{
    let start = cells::put_at(out, at, b"\"");
    let end = put_escaped(out, start, text);
    cells::put_at(out, end, b"\"")
}

fn put_escaped(out: &mut [u8], at: usize, text: &[u8]) -> usize
    requires { at + length (escaped text.now) ≤ length out.old }
    ensures { Laid out.old out.new at result (escaped text.now) }
{
    let mut end = at;
    for b in text {
        end = put_byte(out, end, *b);
    }
    end
}

fn put_byte(out: &mut [u8], at: usize, b: u8) -> usize
    requires { at + length (escaped (b ∷ [])) ≤ length out.old }
    ensures { Laid out.old out.new at result (escaped (b ∷ [])) }
{
    if (b == b'"') | (b == b'\\') {
        return cells::put_at(out, at, &[b'\\', b]);
    }
    cells::put_at(out, at, &[b])
}

// The inner list of the texts that a run joins by commas, from byte at of out on, and the place after it.
pub fn put_list(out: &mut [u8], at: usize, run: &[u8]) -> usize
    requires { at + length (inner_list (extra_names run.now)) ≤ length out.old }
    ensures { Laid out.old out.new at result (inner_list (extra_names run.now)) }
{
    let start = cells::put_at(out, at, b"(");
    let end = put_strings(out, start, run);
    cells::put_at(out, end, b")")
}

fn put_strings(out: &mut [u8], at: usize, run: &[u8]) -> usize
    requires { at + length (strings (extra_names run.now)) ≤ length out.old }
    ensures { Laid out.old out.new at result (strings (extra_names run.now)) }
{
    let mut left = Names::of(run);
    let Some(first) = left.next() else {
        return at;
    };
    let mut end = put_string(out, at, first);
    for name in left {
        end = cells::put_at(out, end, b" ");
        end = put_string(out, end, name);
    }
    end
}
