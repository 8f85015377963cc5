// Base64. Above each function stand its kind and the word that it takes.
ghost use Rattle.std.specs.Prelude.{◌≤◌, length};

use crate::print;
use base_64::Undecoded;
use std::alloc::Global;
use std::io;
use std::io::Write;

// encode RUN: its text
pub fn encode<W: Write>(alloc: Global, out: &mut W, run: &[u8]) -> io::Result<()>
    requires { length run.now ≤ 49152 }
{
    let mut text = vec![in alloc; 0; 4 * run.len().div_ceil(3)]?;
    base_64::encode(run, &mut text);
    print(out, &text)
}

// decode TEXT: its bytes, or a single digit where it encodes none
pub fn decode<W: Write>(alloc: Global, out: &mut W, text: &[u8]) -> io::Result<()> {
    let mut run = vec![in alloc; 0; text.len()]?;
    match base_64::decode(text, &mut run) {
        Ok(n) => {
            run.truncate(n);
            print(out, &run)
        }
        Err(Undecoded::Bad) => write!(out, "1"),
        Err(Undecoded::TooLong) => Ok(()),
    }
}
