// SHA-256, SHA-512, and HMAC over each. Above each function stand its kind and the words that it takes.
ghost use Rattle.std.specs.Prelude.{◌≤◌, length};

use crate::print;
use hashes::Hash;
use sha_2::State;
use std::io;
use std::io::Write;

// The digest of a message, at the front, by the call that is exported for the hash.
// Kept: digest and code call what is exported for each hash, and those are two functions each.
fn digest(hash: Hash, message: &[u8]) -> [u8; 64] {
    let mut out = [0u8; 64];
    match hash {
        Hash::Sha256 => primitives::prim_sha256(message, &mut out[..32]),
        Hash::Sha512 => primitives::prim_sha512(message, &mut out),
    };
    out
}

// The code of a text under key likewise.
fn code(hash: Hash, key: &[u8], text: &[u8]) -> [u8; 64] {
    let mut out = [0u8; 64];
    match hash {
        Hash::Sha256 => primitives::prim_hmac_sha256(key, text, &mut out[..32]),
        Hash::Sha512 => primitives::prim_hmac_sha512(key, text, &mut out),
    };
    out
}

// whole MESSAGE
pub fn whole<W: Write>(out: &mut W, hash: Hash, message: &[u8]) -> io::Result<()> {
    print(out, &digest(hash, message)[..hash.size()])
}

// parts FIRST MESSAGE: the message is taken in by parts as long as the first, and whole where that has no bytes
pub fn parts<W: Write>(out: &mut W, hash: Hash, first: &[u8], message: &[u8]) -> io::Result<()>
    requires { length message.now ≤ 1000000 }
{
    let size = if first.is_empty() {
        message.len()
    } else {
        first.len()
    };
    let mut state = State::new(hash);
    for part in message.chunks(size.max(1)) {
        state.absorb(part);
    }
    print(out, &state.finish()[..hash.size()])
}

// letters FIRST: a million letters a, by parts as long as the first
pub fn letters<W: Write>(out: &mut W, hash: Hash, first: &[u8]) -> io::Result<()> {
    let message = [b'a'; 1000000];
    parts(out, hash, first, &message)
}

// monte SEEDS: a round of NIST's Monte Carlo test, SHAVS 6.4. It begins with three digests that are the seed; each of the
// thousand that follow is that of the three before it.
pub fn monte<W: Write>(out: &mut W, hash: Hash, seeds: &[u8]) -> io::Result<()> {
    let size = hash.size();
    let mut three = [0u8; 192];
    for (b, seed) in three.iter_mut().zip(seeds) {
        *b = *seed;
    }
    for _ in 0..1000 {
        let next = digest(hash, &three[..3 * size]);
        three.copy_within(size..3 * size, 0);
        three[2 * size..3 * size].copy_from_slice(&next[..size]);
    }
    print(out, &three[2 * size..3 * size])
}

// hmac KEY TEXT, truncated KEY TEXT: the first bytes of the code
pub fn hmac<W: Write>(
    out: &mut W,
    hash: Hash,
    key: &[u8],
    text: &[u8],
    shown: usize,
) -> io::Result<()> {
    print(out, &code(hash, key, text)[..shown.min(64)])
}
