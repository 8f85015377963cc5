// The keys that have a meaning, and the rule for what each holds.
ghost use Rattle.std.specs.Prelude.{◌≡◌, ◌+◌, ◌≤◌, drop};
ghost use Rattle.armor.specs.Keys.{keys, rank_of, key_number, number, mask, sized, either, free, rule_at};
ghost use Rattle.armor.specs.Value.{text_obeys};
ghost use Rattle.armor.specs.InnerScan.{place};

use super::numeral;

// The keys in the order of their places, and Other for every other key.
#[derive(Clone, Copy, PartialEq, Eq)]
pub enum Key {
    T,
    Lt,
    N,
    H,
    Ah,
    R,
    S,
    C,
    Iv,
    Tag,
    Eah,
    Other,
}

// The key of a name.
// Kept: a match on byte strings would be plainer; tried, and the proof of its 24 cases didn't close.
#[tactic(auto, unfolding(crate::specs::Keys::key_number, crate::specs::Keys::rank_of, crate::specs::Keys::keys, cells::specs::Text::codes))]
pub fn named(name: &[u8]) -> Key
    ensures { place result ≡ key_number name.now }
{
    if cells::same(name, b"t") {
        return Key::T;
    }
    if cells::same(name, b"lt") {
        return Key::Lt;
    }
    if cells::same(name, b"n") {
        return Key::N;
    }
    if cells::same(name, b"h") {
        return Key::H;
    }
    if cells::same(name, b"ah") {
        return Key::Ah;
    }
    if cells::same(name, b"r") {
        return Key::R;
    }
    later(name)
}

// The same for a name that is none of the first six.
#[tactic(auto, unfolding(crate::specs::Keys::rank_of, crate::specs::Keys::keys, cells::specs::Text::codes))]
fn later(name: &[u8]) -> Key
    ensures { place result ≡ 6 + rank_of (drop 6 keys) name.now }
{
    if cells::same(name, b"s") {
        return Key::S;
    }
    if cells::same(name, b"c") {
        return Key::C;
    }
    if cells::same(name, b"iv") {
        return Key::Iv;
    }
    if cells::same(name, b"tag") {
        return Key::Tag;
    }
    if cells::same(name, b"eah") {
        return Key::Eah;
    }
    Key::Other
}

// Whether a text encodes from low to high bytes.
fn is_sized(text: &[u8], low: usize, high: usize) -> bool
    requires { 1 ≤ low }
    ensures { result ≡ text_obeys (sized low high) text.now }
{
    base_64::measure(text).is_some_and(|n| (low <= n) & (n <= high))
}

// Whether a text encodes one of two numbers of bytes.
fn is_either(text: &[u8], short: usize, long: usize) -> bool
    requires { (1 ≤ short) × (1 ≤ long) }
    ensures { result ≡ text_obeys (either short long) text.now }
{
    base_64::measure(text).is_some_and(|n| (n == short) | (n == long))
}

// Whether a text encodes any bytes.
fn is_some(text: &[u8]) -> bool
    ensures { result ≡ text_obeys free text.now }
{
    base_64::measure(text).is_some_and(|n| 1 <= n)
}

// Whether a text encodes a number.
fn is_number(text: &[u8]) -> bool
    ensures { result ≡ text_obeys number text.now }
{
    let mut out = [0u8; 4];
    let Ok(n) = base_64::decode(text, &mut out) else {
        return false;
    };
    numeral::is_numeral(&out[..n], 4)
}

// Whether a text encodes a mask.
fn is_mask(text: &[u8]) -> bool
    ensures { result ≡ text_obeys mask text.now }
{
    let mut out = [0u8; 9];
    let Ok(n) = base_64::decode(text, &mut out) else {
        return false;
    };
    if n == 0 {
        return false;
    }
    (usize::from(out[0]) == n - 1) & numeral::is_numeral(&out[1..n], 8)
}

// Whether a text encodes what the rule of a key asks.
// Kept: a match on the key: a table of tests by key would be a table of functions, and no plainer.
#[tactic(auto, unfolding(crate::specs::Keys::rule_at, crate::specs::Keys::keys))]
pub fn is_good(text: &[u8], key: Key) -> bool
    ensures { result ≡ text_obeys (rule_at (place key)) text.now }
{
    match key {
        Key::T | Key::Lt | Key::N => is_number(text),
        Key::H | Key::Ah | Key::R => is_mask(text),
        Key::S => is_sized(text, 1, 118),
        Key::C => is_either(text, 32, 64),
        Key::Iv => is_sized(text, 12, 12),
        Key::Tag => is_sized(text, 16, 16),
        Key::Eah | Key::Other => is_some(text),
    }
}
