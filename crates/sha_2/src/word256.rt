// A word of SHA-256: FIPS 180-4, 4.1.2.
ghost use Rattle.std.proofs.Common.{lit<};
ghost use Rattle.hashes.specs.declared.Hash.TheVariants.{Sha256};

use crate::word::Word;

// Ch and Maj have fewer operations than the standard writes them with. In a round y ^ z of Maj is x ^ y of the round before.
//
// Two of the standard's rotations are one within the other, which saves a copy of x: first by the difference of their amounts, x mixed in, and then by the smaller.
// All three within each other, as for SHA-512, were measured slower: each step waits for the one before.
impl Word for u32 {
    ghost hash = { Sha256 };

    ghost value = { λ x. x };

    ghost small = { lit< tt };

    fn width() -> usize {
        4
    }

    fn rounds() -> usize {
        64
    }

    fn low(x: u64) -> u32 {
        (x % 4294967296) as u32
    }

    fn wide(self) -> u64 {
        u64::from(self)
    }

    fn load(run: &[u8], at: usize) -> u32 {
        cells::load32(run, at)
    }

    fn put(self, out: &mut [u8], at: usize) {
        cells::put32(out, at, self);
    }

    // The constant's first 32 bits are that of SHA-256.
    fn constant(_t: usize, k: u64) -> u32 {
        (k >> 32) as u32
    }

    fn add(self, y: u32) -> u32 {
        self.wrapping_add(y)
    }

    fn ch(self, y: u32, z: u32) -> u32 {
        z ^ (self & (y ^ z))
    }

    fn maj(self, y: u32, z: u32) -> u32 {
        y ^ ((self ^ y) & (y ^ z))
    }

    fn big_sigma0(self) -> u32 {
        (self.rotate_right(21) ^ self).rotate_right(13) ^ self.rotate_right(22)
    }

    fn big_sigma1(self) -> u32 {
        (self.rotate_right(27) ^ self).rotate_right(11) ^ self.rotate_right(25)
    }

    fn small_sigma0(self) -> u32 {
        (self.rotate_right(21) ^ self).rotate_right(18) ^ (self >> 3)
    }

    fn small_sigma1(self) -> u32 {
        (self.rotate_right(30) ^ self).rotate_right(19) ^ (self >> 10)
    }
}
