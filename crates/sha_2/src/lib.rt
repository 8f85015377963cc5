// SHA-256 and SHA-512 over a message that arrives in parts: FIPS 180-4.
#![tactic(auto)]

ghost use Rattle.std.specs.Prelude.{◌≡◌, ℕ, ◌+◌, ◌*◌, ◌/◌, ◌%◌, ◌^◌, ◌<◌, ◌≤◌, List, [], length, take};
ghost use Rattle.hashes.specs.declared.Hash as Declared;
ghost use Rattle.hashes.specs.Hashes.{digest_size};
ghost use Rattle.sha_2.specs.Constants.{initial};
ghost use Rattle.sha_2.specs.Hash.{block_size, zeros, after_blocks, digest, sha2};
ghost use Rattle.sha_2.specs.InnerTaken.{Taken, TookIn};
ghost use Rattle.sha_2.specs.InnerWords.{Fit};

use hashes::Hash;

mod block;
mod word;
mod word256;
mod word512;
mod words;

pub use words::Words;

// The hash value after the whole blocks of a message, the bytes after them, and the message's length.
// Kept: a tail without a length beside it: length tells how many of its bytes count.
#[derive(Clone, Copy)]
pub struct State {
    pub hash: Hash,
    pub value: Words<u64>,
    pub tail: [u8; 128],
    pub length: u64,
}

// Bytes in a block.
pub fn block_size(hash: Hash) -> usize
    ensures { result ≡ block_size hash }
{
    match hash {
        Hash::Sha256 => 64,
        Hash::Sha512 => 128,
    }
}

// Bytes of a message after its whole blocks. A division by a size that is known when the code is made is a shift.
// Kept: numbers for each hash, here and in the next two functions, and not block_size: by a known number a division is a shift.
fn begun(hash: Hash, length: u64) -> usize
    ensures { result ≡ length % block_size hash }
{
    match hash {
        Hash::Sha256 => (length % 64) as usize,
        Hash::Sha512 => (length % 128) as usize,
    }
}

// Whole blocks in n bytes.
fn blocks_in(hash: Hash, n: usize) -> usize
    ensures { result ≡ n / block_size hash }
{
    match hash {
        Hash::Sha256 => n / 64,
        Hash::Sha512 => n / 128,
    }
}

// 5.1: the zero bytes after a message.
fn zeros(hash: Hash, length: u64) -> usize
    ensures { result ≡ zeros hash length }
{
    match hash {
        Hash::Sha256 => (119 - (length % 64) as usize) % 64,
        Hash::Sha512 => (239 - (length % 128) as usize) % 128,
    }
}

// 5.3.3 and 5.3.5.
#[tactic(auto, unfolding(crate::specs::Constants::initial))]
fn initial(hash: Hash) -> Words<u64>
    ensures { result ≡ initial hash }
{
    match hash {
        Hash::Sha256 => Words {
            a: 0x6a09e667,
            b: 0xbb67ae85,
            c: 0x3c6ef372,
            d: 0xa54ff53a,
            e: 0x510e527f,
            f: 0x9b05688c,
            g: 0x1f83d9ab,
            h: 0x5be0cd19,
        },
        Hash::Sha512 => Words {
            a: 0x6a09e667f3bcc908,
            b: 0xbb67ae8584caa73b,
            c: 0x3c6ef372fe94f82b,
            d: 0xa54ff53a5f1d36f1,
            e: 0x510e527fade682d1,
            f: 0x9b05688c2b3e6c1f,
            g: 0x1f83d9abfb41bd6b,
            h: 0x5be0cd19137e2179,
        },
    }
}

// The hash value v after the first n blocks of m.
// Kept: a match, here and in digest: which hash it is is told by a value (docs/DECISIONS.md, K2), and the block function is generic over a type.
fn after_blocks(hash: Hash, v: Words<u64>, m: &[u8], n: usize) -> Words<u64>
    requires { block_size hash * n ≤ length m.now }
    ensures { Fit hash v → result ≡ after_blocks hash v m.now n }
{
    match hash {
        Hash::Sha256 => block::after_blocks::<u32>(v, m, n),
        Hash::Sha512 => block::after_blocks::<u64>(v, m, n),
    }
}

// The hash value as bytes, at the front.
fn digest(hash: Hash, v: Words<u64>) -> [u8; 64]
    ensures { Fit hash v → take (digest_size hash) result ≡ digest hash v }
{
    match hash {
        Hash::Sha256 => block::digest::<u32>(v),
        Hash::Sha512 => block::digest::<u64>(v),
    }
}

impl State {
    // The state that has taken in nothing.
    pub fn new(hash: Hash) -> State
        ensures { (result.length ≡ 0) × Taken hash result [] }
    {
        State {
            hash,
            value: initial(hash),
            tail: [0u8; 128],
            length: 0,
        }
    }

    // Part ends before the block that was begun does.
    // Kept: the bound is one of state and part together, here and in the next three, which no invariant of State can say.
    fn keep(&mut self, part: &[u8])
        requires { (self.old.length % block_size self.old.hash + length part.now < block_size self.old.hash) × (self.old.length + length part.now < 2 ^ 61) }
        ensures { TookIn self.old part.now self.new }
    {
        let begun = begun(self.hash, self.length);
        cells::put_at(&mut self.tail, begun, part);
        self.length += part.len() as u64;
    }

    // Part ends with the block that was begun.
    fn complete(&mut self, part: &[u8])
        requires { (self.old.length % block_size self.old.hash + length part.now ≡ block_size self.old.hash) × (self.old.length + length part.now < 2 ^ 61) }
        ensures { TookIn self.old part.now self.new }
    {
        let begun = begun(self.hash, self.length);
        cells::put_at(&mut self.tail, begun, part);
        self.value = after_blocks(self.hash, self.value, &self.tail, 1);
        self.length += part.len() as u64;
    }

    // No block is begun: part's whole blocks are hashed where they lie.
    fn whole(&mut self, part: &[u8])
        requires { (self.old.length % block_size self.old.hash ≡ 0) × (self.old.length + length part.now < 2 ^ 61) }
        ensures { TookIn self.old part.now self.new }
    {
        let n = blocks_in(self.hash, part.len());
        self.value = after_blocks(self.hash, self.value, part, n);
        cells::put_at(&mut self.tail, 0, &part[block_size(self.hash) * n..]);
        self.length += part.len() as u64;
    }

    // Takes in part too.
    pub fn absorb(&mut self, part: &[u8])
        requires { self.old.length + length part.now < 2 ^ 61 }
        ensures { TookIn self.old part.now self.new }
    {
        let begun = begun(self.hash, self.length);
        if begun == 0 {
            return self.whole(part);
        }
        let missing = block_size(self.hash) - begun;
        if part.len() < missing {
            return self.keep(part);
        }
        self.complete(&part[..missing]);
        self.whole(&part[missing..]);
    }

    // The hash of the message that was taken in, at the front. The block that was begun and the padding lie side by side: no state takes in the padding.
    // Kept: 64 bytes and not a Run: the hash tells how many count, and what may not change is said of the array.
    pub fn finish(&self) -> [u8; 64]
        requires { self.now.length < 2 ^ 61 }
        ensures { (h : Declared.Hash) (m : List ℕ) → Taken h self.now m → take (digest_size h) result ≡ sha2 h m }
    {
        let begun = begun(self.hash, self.length);
        let end = begun + 1 + zeros(self.hash, self.length) + block_size(self.hash) / 8;
        let mut last = [0u8; 256];
        cells::put_front(&mut last, &self.tail[..begun]);
        last[begun] = 128;
        cells::put64(&mut last, end - 8, 8 * self.length);
        let closed = after_blocks(self.hash, self.value, &last, blocks_in(self.hash, end));
        digest(self.hash, closed)
    }
}
