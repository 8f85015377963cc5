// The hash value after one more block: FIPS 180-4, 6.2.2 and 6.4.2.
ghost use Rattle.std.specs.Prelude.{◌≡◌, ℕ, ◌+◌, ◌*◌, ◌<◌, ◌≤◌, List, length, map, take, slice_index};
ghost use Rattle.hashes.specs.Hashes.{digest_size};
ghost use Rattle.hashes.specs.declared.Hash.TheVariants.{Sha512};
ghost use Rattle.sha_2.specs.Constants as Constants;
ghost use Rattle.sha_2.specs.Block as Block;
ghost use Rattle.sha_2.specs.Hash as Hash;
ghost use Rattle.sha_2.specs.Numbers.{Numbers, numbers};
ghost use Rattle.sha_2.specs.InnerTurned.{Turned};
ghost use Rattle.sha_2.specs.InnerWords.{Fit};

use crate::word::Word;
use crate::words::Words;

#[tactic(auto, unfolding(crate::specs::Block::mix))]
fn mix<W: Word>(w2: W, w7: W, w15: W, w16: W) -> W
    ensures { W.value result ≡ Block.mix W.hash (W.value w2) (W.value w7) (W.value w15) (W.value w16) }
{
    w2.small_sigma1().add(w7).add(w15.small_sigma0()).add(w16)
}

#[tactic(auto, unfolding(crate::specs::Block::T1, crate::specs::Block::T2, crate::specs::Block::round_of))]
fn round<W: Word>(v: Words<W>, k: W, w: W) -> Words<W>
    ensures { numbers W.value result ≡ Block.round_of W.hash (numbers W.value v) (W.value k) (W.value w) }
{
    let t1 = v
        .h
        .add(v.e.big_sigma1())
        .add(v.e.ch(v.f, v.g))
        .add(k)
        .add(w);
    let t2 = v.a.big_sigma0().add(v.a.maj(v.b, v.c));
    Words {
        a: t1.add(t2),
        b: v.a,
        c: v.b,
        d: v.c,
        e: v.d.add(t1),
        f: v.e,
        g: v.f,
        h: v.g,
    }
}

// Round t with one of the block's own words, which takes its place among the sixteen.
// Kept: a block's size as a clause: Rattle has no computed const argument for an array's size; and k's clause names a round, which a type cannot.
fn first_turn<W: Word>(v: Words<W>, w: &mut [W; 16], block: &[u8], t: usize, k: u64) -> Words<W>
    requires { (t < 16) × (length block.now ≡ Hash.block_size W.hash) × (k ≡ slice_index (Constants.K Sha512) t) }
    ensures { (v0 : Numbers) → Turned W.hash block.now v0 t (numbers W.value v) (map W.value w.old) → Turned W.hash block.now v0 (t + 1) (numbers W.value result) (map W.value w.new) }
{
    let x = W::load(block, W::width() * t);
    w[t] = x;
    round(v, W::constant(t, k), x)
}

// Round t with a word that is made from four before it, in the place of the one that is sixteen back.
fn turn<W: Word>(v: Words<W>, w: &mut [W; 16], t: usize, k: u64) -> Words<W>
    requires { (16 ≤ t) × (t < Block.turns W.hash) × (k ≡ slice_index (Constants.K Sha512) t) }
    ensures { (block : List ℕ) (v0 : Numbers) → Turned W.hash block v0 t (numbers W.value v) (map W.value w.old) → Turned W.hash block v0 (t + 1) (numbers W.value result) (map W.value w.new) }
{
    let x = mix(
        w[(t - 2) % 16],
        w[(t - 7) % 16],
        w[(t - 15) % 16],
        w[(t - 16) % 16],
    );
    w[t % 16] = x;
    round(v, W::constant(t, k), x)
}

// The rounds, each with its constant of 4.2.3, whose first half is that of 4.2.2.
// Kept: fixed memory: a table of the constants would lie on the stack, 640 bytes in each call.
#[tactic(auto, using(crate::proofs::Rounds::early), unfolding(crate::specs::Constants::K))]
fn rounds_0_15<W: Word>(v: Words<W>, w: &mut [W; 16], block: &[u8]) -> Words<W>
    requires { length block.now ≡ Hash.block_size W.hash }
    ensures { (v0 : Numbers) → Turned W.hash block.now v0 0 (numbers W.value v) (map W.value w.old) → Turned W.hash block.now v0 16 (numbers W.value result) (map W.value w.new) }
{
    let mut v = v;
    v = first_turn(v, w, block, 0, 0x428a2f98d728ae22);
    v = first_turn(v, w, block, 1, 0x7137449123ef65cd);
    v = first_turn(v, w, block, 2, 0xb5c0fbcfec4d3b2f);
    v = first_turn(v, w, block, 3, 0xe9b5dba58189dbbc);
    v = first_turn(v, w, block, 4, 0x3956c25bf348b538);
    v = first_turn(v, w, block, 5, 0x59f111f1b605d019);
    v = first_turn(v, w, block, 6, 0x923f82a4af194f9b);
    v = first_turn(v, w, block, 7, 0xab1c5ed5da6d8118);
    v = first_turn(v, w, block, 8, 0xd807aa98a3030242);
    v = first_turn(v, w, block, 9, 0x12835b0145706fbe);
    v = first_turn(v, w, block, 10, 0x243185be4ee4b28c);
    v = first_turn(v, w, block, 11, 0x550c7dc3d5ffb4e2);
    v = first_turn(v, w, block, 12, 0x72be5d74f27b896f);
    v = first_turn(v, w, block, 13, 0x80deb1fe3b1696b1);
    v = first_turn(v, w, block, 14, 0x9bdc06a725c71235);
    first_turn(v, w, block, 15, 0xc19bf174cf692694)
}

#[tactic(auto, using(crate::proofs::Rounds::early), unfolding(crate::specs::Constants::K))]
fn rounds_16_31<W: Word>(v: Words<W>, w: &mut [W; 16]) -> Words<W>
    ensures { (block : List ℕ) (v0 : Numbers) → Turned W.hash block v0 16 (numbers W.value v) (map W.value w.old) → Turned W.hash block v0 32 (numbers W.value result) (map W.value w.new) }
{
    let mut v = v;
    v = turn(v, w, 16, 0xe49b69c19ef14ad2);
    v = turn(v, w, 17, 0xefbe4786384f25e3);
    v = turn(v, w, 18, 0x0fc19dc68b8cd5b5);
    v = turn(v, w, 19, 0x240ca1cc77ac9c65);
    v = turn(v, w, 20, 0x2de92c6f592b0275);
    v = turn(v, w, 21, 0x4a7484aa6ea6e483);
    v = turn(v, w, 22, 0x5cb0a9dcbd41fbd4);
    v = turn(v, w, 23, 0x76f988da831153b5);
    v = turn(v, w, 24, 0x983e5152ee66dfab);
    v = turn(v, w, 25, 0xa831c66d2db43210);
    v = turn(v, w, 26, 0xb00327c898fb213f);
    v = turn(v, w, 27, 0xbf597fc7beef0ee4);
    v = turn(v, w, 28, 0xc6e00bf33da88fc2);
    v = turn(v, w, 29, 0xd5a79147930aa725);
    v = turn(v, w, 30, 0x06ca6351e003826f);
    turn(v, w, 31, 0x142929670a0e6e70)
}

#[tactic(auto, using(crate::proofs::Rounds::early), unfolding(crate::specs::Constants::K))]
fn rounds_32_47<W: Word>(v: Words<W>, w: &mut [W; 16]) -> Words<W>
    ensures { (block : List ℕ) (v0 : Numbers) → Turned W.hash block v0 32 (numbers W.value v) (map W.value w.old) → Turned W.hash block v0 48 (numbers W.value result) (map W.value w.new) }
{
    let mut v = v;
    v = turn(v, w, 32, 0x27b70a8546d22ffc);
    v = turn(v, w, 33, 0x2e1b21385c26c926);
    v = turn(v, w, 34, 0x4d2c6dfc5ac42aed);
    v = turn(v, w, 35, 0x53380d139d95b3df);
    v = turn(v, w, 36, 0x650a73548baf63de);
    v = turn(v, w, 37, 0x766a0abb3c77b2a8);
    v = turn(v, w, 38, 0x81c2c92e47edaee6);
    v = turn(v, w, 39, 0x92722c851482353b);
    v = turn(v, w, 40, 0xa2bfe8a14cf10364);
    v = turn(v, w, 41, 0xa81a664bbc423001);
    v = turn(v, w, 42, 0xc24b8b70d0f89791);
    v = turn(v, w, 43, 0xc76c51a30654be30);
    v = turn(v, w, 44, 0xd192e819d6ef5218);
    v = turn(v, w, 45, 0xd69906245565a910);
    v = turn(v, w, 46, 0xf40e35855771202a);
    turn(v, w, 47, 0x106aa07032bbd1b8)
}

#[tactic(auto, using(crate::proofs::Rounds::early), unfolding(crate::specs::Constants::K))]
fn rounds_48_63<W: Word>(v: Words<W>, w: &mut [W; 16]) -> Words<W>
    ensures { (block : List ℕ) (v0 : Numbers) → Turned W.hash block v0 48 (numbers W.value v) (map W.value w.old) → Turned W.hash block v0 64 (numbers W.value result) (map W.value w.new) }
{
    let mut v = v;
    v = turn(v, w, 48, 0x19a4c116b8d2d0c8);
    v = turn(v, w, 49, 0x1e376c085141ab53);
    v = turn(v, w, 50, 0x2748774cdf8eeb99);
    v = turn(v, w, 51, 0x34b0bcb5e19b48a8);
    v = turn(v, w, 52, 0x391c0cb3c5c95a63);
    v = turn(v, w, 53, 0x4ed8aa4ae3418acb);
    v = turn(v, w, 54, 0x5b9cca4f7763e373);
    v = turn(v, w, 55, 0x682e6ff3d6b2b8a3);
    v = turn(v, w, 56, 0x748f82ee5defb2fc);
    v = turn(v, w, 57, 0x78a5636f43172f60);
    v = turn(v, w, 58, 0x84c87814a1f0ab72);
    v = turn(v, w, 59, 0x8cc702081a6439ec);
    v = turn(v, w, 60, 0x90befffa23631e28);
    v = turn(v, w, 61, 0xa4506cebde82bde9);
    v = turn(v, w, 62, 0xbef9a3f7b2c67915);
    turn(v, w, 63, 0xc67178f2e372532b)
}

// Those of SHA-512 alone.
#[tactic(auto, unfolding(crate::specs::Constants::K))]
fn rounds_64_79<W: Word>(v: Words<W>, w: &mut [W; 16]) -> Words<W>
    requires { Block.turns W.hash ≡ 80 }
    ensures { (block : List ℕ) (v0 : Numbers) → Turned W.hash block v0 64 (numbers W.value v) (map W.value w.old) → Turned W.hash block v0 80 (numbers W.value result) (map W.value w.new) }
{
    let mut v = v;
    v = turn(v, w, 64, 0xca273eceea26619c);
    v = turn(v, w, 65, 0xd186b8c721c0c207);
    v = turn(v, w, 66, 0xeada7dd6cde0eb1e);
    v = turn(v, w, 67, 0xf57d4f7fee6ed178);
    v = turn(v, w, 68, 0x06f067aa72176fba);
    v = turn(v, w, 69, 0x0a637dc5a2c898a6);
    v = turn(v, w, 70, 0x113f9804bef90dae);
    v = turn(v, w, 71, 0x1b710b35131c471b);
    v = turn(v, w, 72, 0x28db77f523047d84);
    v = turn(v, w, 73, 0x32caab7b40c72493);
    v = turn(v, w, 74, 0x3c9ebe0a15c9bebc);
    v = turn(v, w, 75, 0x431d67c49c100d4c);
    v = turn(v, w, 76, 0x4cc5d4becb3e42b6);
    v = turn(v, w, 77, 0x597f299cfc657e2a);
    v = turn(v, w, 78, 0x5fcb6fab3ad6faec);
    turn(v, w, 79, 0x6c44198c4a475817)
}

#[tactic(auto, unfolding(crate::specs::Block::sum_of))]
fn sum<W: Word>(v: Words<W>, x: Words<W>) -> Words<W>
    ensures { numbers W.value result ≡ Block.sum_of W.hash (numbers W.value v) (numbers W.value x) }
{
    Words {
        a: v.a.add(x.a),
        b: v.b.add(x.b),
        c: v.c.add(x.c),
        d: v.d.add(x.d),
        e: v.e.add(x.e),
        f: v.f.add(x.f),
        g: v.g.add(x.g),
        h: v.h.add(x.h),
    }
}

// The hash value v after the block.
fn after_block<W: Word>(v: Words<W>, block: &[u8]) -> Words<W>
    requires { length block.now ≡ Hash.block_size W.hash }
    ensures { numbers W.value result ≡ Block.after_block W.hash (numbers W.value v) block.now }
{
    let mut w = [W::low(0); 16];
    let mut x = rounds_0_15(v, &mut w, block);
    x = rounds_16_31(x, &mut w);
    x = rounds_32_47(x, &mut w);
    x = rounds_48_63(x, &mut w);
    if W::rounds() == 80 {
        x = rounds_64_79(x, &mut w);
    }
    sum(v, x)
}

// Words taken out of words of 64 bits, and put back.
fn narrowed<W: Word>(v: Words<u64>) -> Words<W>
    ensures { Fit W.hash v → numbers W.value result ≡ v }
{
    Words {
        a: W::low(v.a),
        b: W::low(v.b),
        c: W::low(v.c),
        d: W::low(v.d),
        e: W::low(v.e),
        f: W::low(v.f),
        g: W::low(v.g),
        h: W::low(v.h),
    }
}

fn widened<W: Word>(v: Words<W>) -> Words<u64>
    ensures { result ≡ numbers W.value v }
{
    Words {
        a: v.a.wide(),
        b: v.b.wide(),
        c: v.c.wide(),
        d: v.d.wide(),
        e: v.e.wide(),
        f: v.f.wide(),
        g: v.g.wide(),
        h: v.h.wide(),
    }
}

// The hash value v after the first n blocks of m.
pub fn after_blocks<W: Word>(v: Words<u64>, m: &[u8], n: usize) -> Words<u64>
    requires { Hash.block_size W.hash * n ≤ length m.now }
    ensures { Fit W.hash v → result ≡ Hash.after_blocks W.hash v m.now n }
{
    let size = 16 * W::width();
    let mut x: Words<W> = narrowed(v);
    for block in m[..n * size].chunks_exact(size) {
        x = after_block(x, block);
    }
    widened(x)
}

// The hash value as bytes, at the front.
pub fn digest<W: Word>(v: Words<u64>) -> [u8; 64]
    ensures { Fit W.hash v → take (digest_size W.hash) result ≡ Hash.digest W.hash v }
{
    let x: Words<W> = narrowed(v);
    let mut out = [0u8; 64];
    let size = W::width();
    x.a.put(&mut out, 0);
    x.b.put(&mut out, size);
    x.c.put(&mut out, 2 * size);
    x.d.put(&mut out, 3 * size);
    x.e.put(&mut out, 4 * size);
    x.f.put(&mut out, 5 * size);
    x.g.put(&mut out, 6 * size);
    x.h.put(&mut out, 7 * size);
    out
}
