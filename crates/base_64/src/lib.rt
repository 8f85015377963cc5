// Base64 as RFC 4648, section 4, has it: padded, the spare bits zero.
#![tactic(auto)]

ghost use Rattle.std.specs.Prelude.{◌≡◌, ◌+◌, ◌*◌, ◌/◌, ◌≤◌, ◌<◌, length};
ghost use Rattle.cells.specs.Runs.{fronted};
ghost use Rattle.base_64.specs.Encoding.{encoded};
ghost use Rattle.base_64.specs.Decoding.{decoded};
ghost use Rattle.base_64.specs.InnerAnswers.{measured, outcome, decoded_into};
ghost use Rattle.base_64.specs.InnerSteps.{content, full_of, one_of, two_of, size_first, eight_of, byte_of};

use tables::{Alphabet, Reverse};

mod tables;

// Why a text was not decoded: it encodes nothing, or more bytes than the buffer holds.
#[derive(Clone, Copy, PartialEq, Eq)]
pub enum Undecoded {
    Bad,
    TooLong,
}

// Whether all four values of a group are those of characters.
fn full(w: u8, x: u8, y: u8, z: u8) -> bool
    ensures { result ≡ full_of w x y z }
{
    (w < 64) & ((x < 64) & ((y < 64) & (z < 64)))
}

// Whether a last group has one byte, whose second character has four spare bits.
fn one(group: &[u8; 4], w: u8, x: u8) -> bool
    ensures { result ≡ one_of group.now w x }
{
    (group[3] == b'=') & ((group[2] == b'=') & ((w < 64) & ((x < 64) & (x % 16 == 0))))
}

// Whether a last group has two bytes, whose third character has two spare bits.
fn two(group: &[u8; 4], w: u8, x: u8, y: u8) -> bool
    ensures { result ≡ two_of group.now w x y }
{
    (group[3] == b'=') & ((group[2] != b'=') & ((w < 64) & ((x < 64) & ((y < 64) & (y % 4 == 0)))))
}

// How many bytes a group has, which are fewer than three only in the last one.
fn group_size(table: &Reverse, group: &[u8; 4], last: bool) -> Option<usize>
    ensures { result ≡ size_first group.now last }
{
    let w = table.six_bits(group[0]);
    let x = table.six_bits(group[1]);
    let y = table.six_bits(group[2]);
    let z = table.six_bits(group[3]);
    if full(w, x, y, z) {
        return Some(3);
    }
    if last & one(group, w, x) {
        return Some(1);
    }
    if last & two(group, w, x, y) {
        return Some(2);
    }
    None
}

fn size(table: &Reverse, text: &[u8]) -> Option<usize>
    ensures { result ≡ measured text.now }
{
    let mut left = text;
    let mut n = 0;
    while let Some((group, rest)) = left.split_first_chunk::<4>() {
        n += group_size(table, group, rest.is_empty())?;
        left = rest;
    }
    if !left.is_empty() {
        return None;
    }
    Some(n)
}

// How many bytes a text encodes, if it encodes any. The empty text encodes the empty run.
pub fn measure(text: &[u8]) -> Option<usize>
    ensures { result ≡ measured text.now }
{
    size(&Reverse::new(), text)
}

// Eight bits of two six-bit values in a row: those of byte k of a group.
fn eight(a: u8, b: u8, k: usize) -> u8
    requires { k < 3 }
    ensures { result ≡ eight_of a b k }
{
    (((u32::from(a) * 64 + u32::from(b)) >> (4 - 2 * k)) % 256) as u8
}

// Byte i of those that a text encodes.
fn byte(table: &Reverse, text: &[u8], i: usize) -> u8
    requires { i + i / 3 + 1 < length text.now }
    ensures { result ≡ byte_of text.now i }
{
    let at = i + i / 3;
    eight(
        table.six_bits(text[at]),
        table.six_bits(text[at + 1]),
        i % 3,
    )
}

// The bytes of a text that encodes as many as the buffer holds.
fn fill(table: &Reverse, text: &[u8], out: &mut [u8])
    requires { measured text.now ≡ Some (length out.old) }
    ensures { out.new ≡ content (decoded text.now) }
{
    for (i, b) in out.iter_mut().enumerate() {
        *b = byte(table, text, i);
    }
}

// The bytes that a text encodes, at the front of the buffer; a buffer that they do not fit in, or a text that encodes none, keeps every byte.
pub fn decode(text: &[u8], out: &mut [u8]) -> Result<usize, Undecoded>
    ensures { outcome result out.new ≡ decoded_into text.now out.old }
{
    let table = Reverse::new();
    let n = size(&table, text).ok_or(Undecoded::Bad)?;
    if out.len() < n {
        return Err(Undecoded::TooLong);
    }
    fill(&table, text, &mut out[..n]);
    Ok(n)
}

// The text of a byte run, at the front of the buffer, and its length.
pub fn encode(bytes: &[u8], out: &mut [u8]) -> usize
    requires { 4 * ((length bytes.now + 2) / 3) ≤ length out.old }
    ensures { (result ≡ length (encoded bytes.now)) × (out.new ≡ fronted (encoded bytes.now) out.old) }
{
    let n = bytes.len().div_ceil(3) * 4;
    spell(bytes, &mut out[..n]);
    n
}

// The text of a byte run, in a buffer of its length.
fn spell(bytes: &[u8], out: &mut [u8])
    requires { length out.old ≡ length (encoded bytes.now) }
    ensures { out.new ≡ encoded bytes.now }
{
    let table = Alphabet::new();
    for (i, b) in out.iter_mut().enumerate() {
        *b = table.character(bytes, i);
    }
}
