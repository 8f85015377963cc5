// Published vectors: prints, for each line of the input, a line of what our code computes for it.
// A line is a kind, which is told by its first letter, and words in hexadecimal, each after a comma. A digest's kind has a
// small letter for SHA-512 and a capital for SHA-256. A line of no kind, as one that names a source, gives an empty line.
// No line is tested for its form: a wrong one shows by a wrong answer.
#![tactic(auto)]

mod ciphers;
mod digests;
mod texts;
mod words;

use hashes::Hash;
use std::alloc::Global;
use std::io;
use std::io::{BufWriter, Read, Write};
use words::Words;

fn main(rt: HostRuntime) -> io::Result<()> {
    let mut text = Vec::new(rt.alloc());
    rt.stdin().read_to_end(&mut text)?;
    let mut out = BufWriter::new(rt.alloc(), rt.stdout())?;
    for line in text.split_inclusive(|b| *b == b'\n') {
        if line.ends_with(b"\n") {
            run(rt.alloc(), &mut out, line)?;
            out.write_all(b"\n")?;
        }
    }
    out.flush()
}

fn run<W: Write>(alloc: Global, out: &mut W, line: &[u8]) -> io::Result<()> {
    let Some(kind) = line.first() else {
        return Ok(());
    };
    let words = Words::of(alloc, line)?;
    let first = words.get(0);
    let second = words.get(1);
    let third = words.get(2);
    let fourth = words.get(3);
    match *kind {
        b'w' => digests::whole(out, Hash::Sha512, fourth),
        b'W' => digests::whole(out, Hash::Sha256, fourth),
        b'p' => digests::parts(out, Hash::Sha512, third, fourth),
        b'P' => digests::parts(out, Hash::Sha256, third, fourth),
        b'l' => digests::letters(out, Hash::Sha512, fourth),
        b'L' => digests::letters(out, Hash::Sha256, fourth),
        b'm' => digests::monte(out, Hash::Sha512, fourth),
        b'M' => digests::monte(out, Hash::Sha256, fourth),
        b'h' => digests::hmac(out, Hash::Sha512, third, fourth, 64),
        b'H' => digests::hmac(out, Hash::Sha256, third, fourth, 32),
        b't' => digests::hmac(out, Hash::Sha512, third, fourth, 16),
        b'T' => digests::hmac(out, Hash::Sha256, third, fourth, 16),
        b'a' => ciphers::aes(out, third, fourth),
        b's' => ciphers::seal(alloc, out, second, third, fourth),
        b'o' => ciphers::open(alloc, out, first, second, third, fourth),
        b'e' => texts::encode(alloc, out, fourth),
        b'd' => texts::decode(alloc, out, fourth),
        _ => Ok(()),
    }
}

// Prints a run in hexadecimal.
fn print<W: Write>(out: &mut W, run: &[u8]) -> io::Result<()> {
    for b in run {
        write!(out, "{b:02x}")?;
    }
    Ok(())
}
