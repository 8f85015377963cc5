// A word of a hash, and the functions on words: FIPS 180-4, 3.2, 4.1.2 and 4.1.3. A word of SHA-256 has 32 bits, one of SHA-512 has 64.
ghost use Rattle.std.specs.Prelude.{◌≡◌, ℕ, ◌+◌, ◌*◌, ◌%◌, ◌^◌, ◌<◌, ◌≤◌, length, slice_index};
ghost use Rattle.std.specs.Mem.{type_size};
ghost use Rattle.cells.specs.Numbers.{number, bytes_of};
ghost use Rattle.cells.specs.Runs.{part, spliced};
ghost use Rattle.hashes.specs.declared.Hash.{Hash};
ghost use Rattle.hashes.specs.declared.Hash.TheVariants.{Sha512};
ghost use Rattle.sha_2.specs.Word as Word;
ghost use Rattle.sha_2.specs.Word.{width, bits, ◌⊞⟨◌⟩◌};
ghost use Rattle.sha_2.specs.Constants as Constants;
ghost use Rattle.sha_2.specs.Block.{turns};

pub trait Word: Copy {
    // The hash whose words these are, and a word as a number.
    ghost hash: { Hash };

    ghost value: { Self → ℕ };

    // Bytes in a word.
    fn width() -> usize
        ensures { result ≡ width hash };

    // Rounds of a block.
    fn rounds() -> usize
        ensures { result ≡ turns hash };

    // The lowest bits of x, as many as a word has.
    fn low(x: u64) -> Self
        ensures { value result ≡ x % 2 ^ bits hash };

    fn wide(self) -> u64
        ensures { result ≡ value self };

    // The word that begins at a byte of a run.
    fn load(run: &[u8], at: usize) -> Self
        requires { at + width hash ≤ length run.now }
        ensures { value result ≡ number (part run.now at (width hash)) };

    // The word's bytes from byte at of out on.
    fn put(self, out: &mut [u8], at: usize)
        requires { at + width hash ≤ length out.old }
        ensures { out.new ≡ spliced out.old at (bytes_of (width hash) (value self)) };

    // The constant of round t, of which k is the one of SHA-512.
    fn constant(t: usize, k: u64) -> Self
        requires { (t < turns hash) × (k ≡ slice_index (Constants.K Sha512) t) }
        ensures { value result ≡ slice_index (Constants.K hash) t };

    fn add(self, y: Self) -> Self
        ensures { value result ≡ value self ⊞⟨ hash ⟩ value y };

    fn ch(self, y: Self, z: Self) -> Self
        ensures { value result ≡ Word.Ch hash (value self) (value y) (value z) };

    fn maj(self, y: Self, z: Self) -> Self
        ensures { value result ≡ Word.Maj (value self) (value y) (value z) };

    fn big_sigma0(self) -> Self
        ensures { value result ≡ Word.Σ0 hash (value self) };

    fn big_sigma1(self) -> Self
        ensures { value result ≡ Word.Σ1 hash (value self) };

    fn small_sigma0(self) -> Self
        ensures { value result ≡ Word.σ0 hash (value self) };

    fn small_sigma1(self) -> Self
        ensures { value result ≡ Word.σ1 hash (value self) };

    // Sixteen words have room in memory.
    ghost small: { 16 * type_size Self.row < 2 ^ 63 };
}
