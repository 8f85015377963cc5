// What is kept of a key while a value is scanned.
ghost use Rattle.std.specs.Prelude.{◌≡◌, ◌+◌, min};

use super::Span;

// How often a key was seen, up to two, and where the text of its last field stands.
// Kept: a number and not an enum of none, one and several: right_times (specs/Fields.antt) compares how often a key stands.
#[derive(Clone, Copy)]
pub struct Tally {
    pub count: u8,
    pub text: Span,
}

// One more, up to two.
pub fn more(count: u8) -> u8
    ensures { result ≡ min 2 (count + 1) }
{
    count.saturating_add(1).min(2)
}
