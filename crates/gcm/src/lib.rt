// AES-256-GCM (NIST SP 800-38D) with IVs of 96 bits, tags of 128 bits and no associated data. A block is a number, its leftmost bit the highest.
#![tactic(auto)]

ghost use Rattle.std.specs.Prelude.{◌≡◌, List, [], ◌++◌, ℕ, ◌+◌, ◌-◌, ◌*◌, ◌/◌, ◌^◌, ◌≤◌, ◌<◌, length, replicate};
ghost use Rattle.std.specs.Int.Bits.{bit_xor};
ghost use Rattle.aes.specs.Cipher.{key_expansion, cipher};
ghost use Rattle.cells.specs.Numbers.{bytes_of, number};
ghost use Rattle.gcm.specs.Multiply as M;
ghost use Rattle.gcm.specs.Ghash.{hashed, ghash};
ghost use Rattle.gcm.specs.Gctr as G;
ghost use Rattle.gcm.specs.Gcm as S;
ghost use Rattle.gcm.specs.InnerCode.{answer, left};

// R of 6.3: 11100001 and 120 zeros.
const REDUCTION: u128 = 0xe1 << 120;

// x where bit is 1, and 0 where it is 0, with no branch on the bit.
fn chosen(bit: u128, x: u128) -> u128
    requires { bit < 2 }
    ensures { result ≡ bit * x }
{
    bit * x
}

fn halved(v: u128) -> u128
    ensures { result ≡ M.halved v }
{
    (v >> 1) ^ chosen(v % 2, REDUCTION)
}

// Algorithm 1; the bits of x that are left stand highest in bits.
fn multiply(x: u128, y: u128) -> u128
    ensures { result ≡ M.product x y }
{
    let mut bits = x;
    let mut z = 0;
    let mut v = y;
    for _i in 0..u128::BITS {
        z ^= chosen(bits >> 127, v);
        v = halved(v);
        bits <<= 1;
    }
    z
}

// The block that begins with part and ends in zeros.
fn filled(part: &[u8]) -> u128
    requires { length part.now ≤ 16 }
    ensures { result ≡ number (part.now ++ replicate (16 - length part.now) 0) }
{
    let mut block = [0; 16];
    cells::put_front(&mut block, part);
    u128::from_be_bytes(block)
}

// The hash of s and of the zeros that make its blocks whole.
// Kept: blocks by number: of a loop over chunks, none of which is empty, the compiler makes a call of memset in each turn, which the archive for C did not need.
fn hash(h: u128, s: &[u8]) -> u128
    ensures { result ≡ hashed h (S.padded s.now) ((length s.now + 15) / 16) }
{
    let mut y = 0;
    for n in 0..s.len().div_ceil(16) {
        let at = 16 * n;
        let end = s.len().min(at + 16);
        y = multiply(y ^ filled(&s[at..end]), h);
    }
    y
}

// GHASH of what authenticates a cipher text.
fn digest(h: u128, cipher: &[u8]) -> u128
    requires { length cipher.now < 2 ^ 61 }
    ensures { result ≡ ghash h (S.hash_input [] cipher.now) }
{
    let lengths = 8 * cipher.len() as u128;
    multiply(hash(h, cipher) ^ lengths, h)
}

// The counter block after b.
fn next(b: u128) -> u128
    ensures { result ≡ G.inc32 b }
{
    let count = b % 4294967296;
    b - count + (count + 1) % 4294967296
}

// The counter block before the first.
fn pre_counter(iv: &[u8; 12]) -> u128
    ensures { result ≡ S.pre_counter iv.now }
{
    let mut block = [0; 16];
    block[15] = 1;
    cells::put_front(&mut block, iv);
    u128::from_be_bytes(block)
}

// A block of text, which may be short, added to the cipher of its counter block.
fn mask(keys: &[u8; 240], counter: u128, text: &[u8], out: &mut [u8])
    requires { (length text.now ≤ 16) × (length out.old ≡ length text.now) }
    ensures { out.new ≡ G.added text.now (cipher keys.now (bytes_of 16 counter)) }
{
    let stream = aes::encrypt(keys, counter.to_be_bytes());
    for (i, b) in out.iter_mut().enumerate() {
        *b = text[i] ^ stream[i];
    }
}

// GCTR of text, from the counter block first on. No byte of text is written but masked: out may be seen by others meanwhile.
// Kept: blocks by number, and in mask bytes by index; tried over chunks_mut, and over a zip, and the proof didn't close: no fact says what out is after such a loop.
fn stream(keys: &[u8; 240], first: u128, text: &[u8], out: &mut [u8])
    requires { length out.old ≡ length text.now }
    ensures { (key : List ℕ) → keys.now ≡ key_expansion key → out.new ≡ G.gctr key first text.now }
{
    let mut counter = first;
    for n in 0..text.len().div_ceil(16) {
        let at = 16 * n;
        let end = text.len().min(at + 16);
        mask(keys, counter, &text[at..end], &mut out[at..end]);
        counter = next(counter);
    }
}

fn hash_key(keys: &[u8; 240]) -> u128
    ensures { (key : List ℕ) → keys.now ≡ key_expansion key → result ≡ S.hash_key key }
{
    u128::from_be_bytes(aes::encrypt(keys, [0; 16]))
}

// The tag of a cipher text.
fn tag_of(keys: &[u8; 240], iv: &[u8; 12], cipher: &[u8]) -> [u8; 16]
    requires { length cipher.now < 2 ^ 61 }
    ensures { (key : List ℕ) → keys.now ≡ key_expansion key → result ≡ S.tag_of key iv.now [] cipher.now }
{
    let hash = digest(hash_key(keys), cipher).to_be_bytes();
    let mut tag = [0; 16];
    stream(keys, pre_counter(iv), &hash, &mut tag);
    tag
}

// text under key and iv into out, and the tag of that.
pub fn seal(key: &[u8; 32], iv: &[u8; 12], text: &[u8], out: &mut [u8], tag: &mut [u8; 16])
    requires { (length text.now ≤ 2 ^ 36 - 32) × (length out.old ≡ length text.now) }
    ensures { (out.new ≡ (S.sealed key.now iv.now [] text.now).cipher) × (tag.new ≡ (S.sealed key.now iv.now [] text.now).tag) }
{
    let keys = aes::expand(key);
    stream(&keys, next(pre_counter(iv)), text, out);
    *tag = tag_of(&keys, iv, out);
}

// Why nothing was opened: the tag is not that of the cipher text.
#[derive(Clone, Copy, PartialEq, Eq)]
pub struct WrongTag;

// The text of cipher under key and iv into out, if tag is the right one; else out stays.
pub fn unseal(
    key: &[u8; 32],
    iv: &[u8; 12],
    cipher: &[u8],
    tag: &[u8; 16],
    out: &mut [u8],
) -> Result<(), WrongTag>
    requires { (length cipher.now ≤ 2 ^ 36 - 32) × (length out.old ≡ length cipher.now) }
    ensures { (result ≡ answer (S.opened key.now iv.now [] cipher.now tag.now)) × (out.new ≡ left (S.opened key.now iv.now [] cipher.now tag.now) out.old) }
{
    let keys = aes::expand(key);
    if !cells::same(tag, &tag_of(&keys, iv, cipher)) {
        return Err(WrongTag);
    }
    stream(&keys, next(pre_counter(iv)), cipher, out);
    Ok(())
}
