// One line of the Common Log Format: document 02, K5.
ghost use Rattle.std.specs.Prelude.{◌≡◌, [], ◌∷◌, ◌&&◌, ◌≤◌, ◌<◌, length, drop};
ghost use Rattle.logs.specs.Line as L;
ghost use Rattle.logs.specs.Line.{◌then◌, space, status, digit};
ghost use Rattle.logs.specs.InnerParts.{word_part, date_part, request_part, status_part, PastIs, OnlyIs, GoesUnder};

use crate::search::find;

// Longer lines are unread.
const LONGEST: usize = 8192;

// The status that a line goes under; None: unread.
pub fn status(line: &[u8]) -> Option<usize>
    ensures { GoesUnder line.now result }
{
    if line.len() > LONGEST {
        return None;
    }
    let ident = past_word(line, 0)?;
    let user = past_word(line, ident)?;
    let date = past_word(line, user)?;
    let request = past_date(line, date)?;
    let status = past_request(line, request)?;
    ending(line, status)
}

// The place after the word that starts at byte at, and a space.
// Kept: a place beside the line, not the rest of the line: the search goes on from a place, and what a part promises is said of places.
fn past_word(line: &[u8], at: usize) -> Option<usize>
    requires { at ≤ length line.now }
    ensures { PastIs word_part line.now at result }
{
    let end = find(line, at, b' ');
    past_space(line, at < end, end)
}

// The place after the date in its brackets, and a space.
fn past_date(line: &[u8], at: usize) -> Option<usize>
    requires { at ≤ length line.now }
    ensures { PastIs date_part line.now at result }
{
    let end = find(line, at, b']');
    if end == line.len() {
        return None;
    }
    past_space(line, line[at] == b'[', end + 1)
}

// The place after the request in its quotes, and a space.
fn past_request(line: &[u8], at: usize) -> Option<usize>
    requires { (at ≤ length line.now) × (length line.now ≤ 8192) }
    ensures { PastIs request_part line.now at result }
{
    let mut i = at + 1;
    // Kept: a while, since a shielded byte is stepped over with its backslash.
    while i < line.len() {
        if line[i] == b'"' {
            return past_space(line, line[at] == b'"', i + 1);
        }
        i += if line[i] == b'\\' { 2 } else { 1 };
    }
    None
}

// The place after a part that ends at byte end, if it is good, and a space.
fn past_space(line: &[u8], good: bool, end: usize) -> Option<usize>
    requires { end ≤ length line.now }
    ensures { PastIs (λ rest xs. good && (space then rest) xs) line.now end result }
{
    if end == line.len() {
        return None;
    }
    if good & (line[end] == b' ') {
        Some(end + 1)
    } else {
        None
    }
}

// The status at byte at, where a status, a space and a size are the rest of the line.
fn ending(line: &[u8], at: usize) -> Option<usize>
    requires { at ≤ length line.now }
    ensures { OnlyIs (λ s. status_part s (drop at line.now)) result }
{
    if line.len() - at < 5 {
        return None;
    }
    if (line[at + 3] == b' ') & size(&line[at + 4..]) {
        three(line[at], line[at + 1], line[at + 2])
    } else {
        None
    }
}

// The status that three bytes are the digits of.
fn three(a: u8, b: u8, c: u8) -> Option<usize>
    ensures { OnlyIs (λ s. status s (a ∷ b ∷ c ∷ [])) result }
{
    if (b'1' <= a) & (a <= b'5') & is_digit(b) & is_digit(c) {
        Some(100 * (a as usize) + 10 * (b as usize) + (c as usize) - 5328)
    } else {
        None
    }
}

// Whether bytes are a size.
fn size(text: &[u8]) -> bool
    requires { 0 < length text.now }
    ensures { result ≡ L.size text.now }
{
    if text[0] == b'-' {
        return text.len() == 1;
    }
    // Not cells::all: behind the size of a line in another format stands the rest of it.
    cells::end(text, 0, is_digit) == text.len()
}

fn is_digit(b: u8) -> bool
    ensures { result ≡ digit b }
{
    (b'0' <= b) & (b <= b'9')
}
