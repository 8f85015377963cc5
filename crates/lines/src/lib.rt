// Header lines: where covered names stand in a block, and their values.
#![tactic(auto)]

ghost use Rattle.std.specs.Prelude.{◌≡◌, ◌≤◌, ◌%◌, length, get_or};
ghost use Rattle.cells.specs.Spans.{Spans};
ghost use Rattle.lines.specs.Lines.{value_byte, good_block};
ghost use Rattle.lines.specs.Values.{joined};
ghost use Rattle.lines.specs.InnerPlaces.{LineIs, Stands, front_at, own_at, FoundIs, AgainIs};
ghost use Rattle.lines.specs.InnerNotes.{place_of, PlaceIn, first_by};

use names::token;

mod blocks;
pub mod noting;
mod remarks;

pub use blocks::Blocks;

// Whether a block is lines, and nothing else.
// Kept: a walk by places, as in find and noting: where it ends tells whether the block is lines alone, and an iterator would not say.
pub fn good_block(block: &[u8]) -> bool
    ensures { result ≡ good_block block.now }
{
    let mut at = 0;
    while let Some(line) = line_at(block, at) {
        at = line.end + 2;
    }
    at == block.len()
}

// The value of a covered name by its notes, of its first line where it has several: a part of one of the two blocks.
// Kept: head and aside, not Blocks: docs/CONTRACTS.md names it, and it takes blocks of any length.
pub fn covered<'a>(head: &'a [u8], aside: &'a [u8], in_head: u16, in_aside: u16) -> &'a [u8]
    requires { PlaceIn head.now in_head × PlaceIn aside.now in_aside }
    ensures { result.now ≡ first_by aside.now head.now in_head in_aside }
{
    if in_aside != 0 {
        return value_at(aside, place_of(in_aside));
    }
    if in_head != 0 {
        return value_at(head, place_of(in_head));
    }
    &head[..0]
}

// Where the line stands that a note tells of.
pub fn place_of(note: u16) -> usize
    requires { 1 ≤ note % 32768 }
    ensures { result ≡ place_of note }
{
    (note % 32768) as usize - 1
}

// How long the value is that the line at byte at and those after it that bear its name have together.
// Kept: Stands as a clause: see again.
pub fn joined_size(block: &[u8], at: usize) -> usize
    requires { Stands block.now at }
    ensures { result ≡ length (joined (own_at block.now at)) }
{
    let mut size = value_at(block, at).len();
    let mut place = at;
    while let Some(next) = again(block, place) {
        size += 2 + value_at(block, next).len();
        place = next;
    }
    size
}

// The trimmed value of the line at byte at.
// Kept: that at is within the block, here and below, is what an index of a slice asks.
pub fn value_at<'a>(block: &'a [u8], at: usize) -> &'a [u8]
    requires { at ≤ length block.now }
    ensures { result.now ≡ front_at block.now at }
{
    match line_at(block, at) {
        // Of the bytes of a value a space and a tab alone are ASCII white space.
        Some(line) => block[line.colon + 1..line.end].trim_ascii(),
        None => &block[..0],
    }
}

// Where the first line after the one at byte at starts that bears its name.
// Kept: a block and a place in it, not a line held as a value: a note holds a place alone, and whoever reads one has no more.
pub fn again(block: &[u8], at: usize) -> Option<usize>
    requires { Stands block.now at }
    ensures { AgainIs block.now at result }
{
    let line = line_at(block, at)?;
    find(block, line.end + 2, &block[at..line.colon])
}

// Where the first line from byte at on starts that bears the name.
pub fn find(block: &[u8], at: usize, name: &[u8]) -> Option<usize>
    requires { at ≤ length block.now }
    ensures { FoundIs block.now at name.now result }
{
    let mut place = at;
    while let Some(line) = line_at(block, place) {
        if names::same_name(&block[place..line.colon], name) {
            return Some(place);
        }
        place = line.end + 2;
    }
    None
}

// The colon of a line stands at colon, and its CR LF at end.
#[derive(Clone, Copy)]
struct Line {
    colon: usize,
    end: usize,
}

// The line that starts at byte at.
fn line_at(block: &[u8], at: usize) -> Option<Line>
    requires { at ≤ length block.now }
    ensures { LineIs block.now at result }
{
    let colon = token::token_end(block, at);
    if !((at < colon) & (byte_at(block, colon) == b':')) {
        return None;
    }
    let end = value_end(block, colon + 1);
    if !((byte_at(block, end) == b'\r') & (byte_at(block, end + 1) == b'\n')) {
        return None;
    }
    Some(Line { colon, end })
}

// The byte at i, or 0 past the end.
fn byte_at(block: &[u8], i: usize) -> u8
    ensures { result ≡ get_or block.now i 0 }
{
    block.get(i).copied().unwrap_or(0)
}

// Where the bytes of a value end that start at byte at.
fn value_end(block: &[u8], at: usize) -> usize
    requires { at ≤ length block.now }
    ensures { Spans value_byte block.now at result }
{
    cells::end_by_sixteens(block, at, value_byte)
}

fn value_byte(b: u8) -> bool
    ensures { result ≡ value_byte b }
{
    (b == b'\t') | ((32 <= b) & (b != 127))
}
