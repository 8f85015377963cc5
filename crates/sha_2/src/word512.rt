// A word of SHA-512: FIPS 180-4, 4.1.3.
ghost use Rattle.std.proofs.Common.{lit<};
ghost use Rattle.hashes.specs.declared.Hash.TheVariants.{Sha512};

use crate::word::Word;

// Ch and Maj as for SHA-256.
// Kept: for each word by itself, since the shorter Ch is the standard's only of words below 2 ^ 64, which no law of the trait can say of its values.
//
// The standard's rotations are rotations within rotations: by the difference between one amount and the next, x mixed in, and in the end by the smallest.
// A rotation writes over its word, so the standard's form takes two copies of x more.
impl Word for u64 {
    ghost hash = { Sha512 };

    ghost value = { λ x. x };

    ghost small = { lit< tt };

    fn width() -> usize {
        8
    }

    fn rounds() -> usize {
        80
    }

    fn low(x: u64) -> u64 {
        x
    }

    fn wide(self) -> u64 {
        self
    }

    fn load(run: &[u8], at: usize) -> u64 {
        cells::load64(run, at)
    }

    fn put(self, out: &mut [u8], at: usize) {
        cells::put64(out, at, self);
    }

    fn constant(_t: usize, k: u64) -> u64 {
        k
    }

    fn add(self, y: u64) -> u64 {
        self.wrapping_add(y)
    }

    fn ch(self, y: u64, z: u64) -> u64 {
        z ^ (self & (y ^ z))
    }

    fn maj(self, y: u64, z: u64) -> u64 {
        y ^ ((self ^ y) & (y ^ z))
    }

    fn big_sigma0(self) -> u64 {
        ((self.rotate_right(58) ^ self).rotate_right(59) ^ self).rotate_right(39)
    }

    fn big_sigma1(self) -> u64 {
        ((self.rotate_right(60) ^ self).rotate_right(41) ^ self).rotate_right(41)
    }

    fn small_sigma0(self) -> u64 {
        (self.rotate_right(57) ^ self).rotate_right(8) ^ (self >> 7)
    }

    fn small_sigma1(self) -> u64 {
        (self.rotate_right(22) ^ self).rotate_right(61) ^ (self >> 6)
    }
}
