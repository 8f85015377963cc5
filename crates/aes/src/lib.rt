// AES-256 (FIPS 197): the key schedule and the cipher of one block.
#![tactic(auto)]

ghost use Rattle.std.specs.Prelude.{◌≡◌, ◌+◌, ◌-◌, ◌*◌, ◌≤◌, ◌<◌, length};
ghost use Rattle.aes.specs.Field.{xtimes, power_of_x};
ghost use Rattle.aes.specs.Sbox as S;
ghost use Rattle.aes.specs.Cipher as C;
ghost use Rattle.aes.specs.InnerCode.{listed, shifted_word, mix_word};

use std::array;

// FIPS 197, 5.1.1, Table 4.
static SBOX: [u8; 256] = [
    0x63, 0x7c, 0x77, 0x7b, 0xf2, 0x6b, 0x6f, 0xc5, 0x30, 0x01, 0x67, 0x2b, 0xfe, 0xd7, 0xab, 0x76,
    0xca, 0x82, 0xc9, 0x7d, 0xfa, 0x59, 0x47, 0xf0, 0xad, 0xd4, 0xa2, 0xaf, 0x9c, 0xa4, 0x72, 0xc0,
    0xb7, 0xfd, 0x93, 0x26, 0x36, 0x3f, 0xf7, 0xcc, 0x34, 0xa5, 0xe5, 0xf1, 0x71, 0xd8, 0x31, 0x15,
    0x04, 0xc7, 0x23, 0xc3, 0x18, 0x96, 0x05, 0x9a, 0x07, 0x12, 0x80, 0xe2, 0xeb, 0x27, 0xb2, 0x75,
    0x09, 0x83, 0x2c, 0x1a, 0x1b, 0x6e, 0x5a, 0xa0, 0x52, 0x3b, 0xd6, 0xb3, 0x29, 0xe3, 0x2f, 0x84,
    0x53, 0xd1, 0x00, 0xed, 0x20, 0xfc, 0xb1, 0x5b, 0x6a, 0xcb, 0xbe, 0x39, 0x4a, 0x4c, 0x58, 0xcf,
    0xd0, 0xef, 0xaa, 0xfb, 0x43, 0x4d, 0x33, 0x85, 0x45, 0xf9, 0x02, 0x7f, 0x50, 0x3c, 0x9f, 0xa8,
    0x51, 0xa3, 0x40, 0x8f, 0x92, 0x9d, 0x38, 0xf5, 0xbc, 0xb6, 0xda, 0x21, 0x10, 0xff, 0xf3, 0xd2,
    0xcd, 0x0c, 0x13, 0xec, 0x5f, 0x97, 0x44, 0x17, 0xc4, 0xa7, 0x7e, 0x3d, 0x64, 0x5d, 0x19, 0x73,
    0x60, 0x81, 0x4f, 0xdc, 0x22, 0x2a, 0x90, 0x88, 0x46, 0xee, 0xb8, 0x14, 0xde, 0x5e, 0x0b, 0xdb,
    0xe0, 0x32, 0x3a, 0x0a, 0x49, 0x06, 0x24, 0x5c, 0xc2, 0xd3, 0xac, 0x62, 0x91, 0x95, 0xe4, 0x79,
    0xe7, 0xc8, 0x37, 0x6d, 0x8d, 0xd5, 0x4e, 0xa9, 0x6c, 0x56, 0xf4, 0xea, 0x65, 0x7a, 0xae, 0x08,
    0xba, 0x78, 0x25, 0x2e, 0x1c, 0xa6, 0xb4, 0xc6, 0xe8, 0xdd, 0x74, 0x1f, 0x4b, 0xbd, 0x8b, 0x8a,
    0x70, 0x3e, 0xb5, 0x66, 0x48, 0x03, 0xf6, 0x0e, 0x61, 0x35, 0x57, 0xb9, 0x86, 0xc1, 0x1d, 0x9e,
    0xe1, 0xf8, 0x98, 0x11, 0x69, 0xd9, 0x8e, 0x94, 0x9b, 0x1e, 0x87, 0xe9, 0xce, 0x55, 0x28, 0xdf,
    0x8c, 0xa1, 0x89, 0x0d, 0xbf, 0xe6, 0x42, 0x68, 0x41, 0x99, 0x2d, 0x0f, 0xb0, 0x54, 0xbb, 0x16,
];

fn sub_byte(b: u8) -> u8
    ensures { result ≡ S.sub_byte b }
{
    SBOX[b as usize]
}

fn double(b: u8) -> u8
    ensures { result ≡ xtimes b }
{
    (b << 1) ^ ((b >> 7) * 0x1b)
}

fn mixed(a: u8, b: u8, c: u8, d: u8) -> u8
    ensures { result ≡ C.mixed a b c d }
{
    double(a) ^ (double(b) ^ b) ^ c ^ d
}

// 5.1.3, of one column.
fn mix_column(w: [u8; 4]) -> [u8; 4]
    ensures { result ≡ mix_word w }
{
    array::from_fn(|r| mixed(w[r], w[(r + 1) % 4], w[(r + 2) % 4], w[(r + 3) % 4]))
}

// Column c after 5.1.1 and 5.1.2.
// Kept: c < 4, here and in the next two, is what an index of the four columns asks.
fn shifted(s: &[[u8; 4]; 4], c: usize) -> [u8; 4]
    requires { c < 4 }
    ensures { result ≡ shifted_word s.now c }
{
    array::from_fn(|r| sub_byte(s[(c + r) % 4][r]))
}

// Column c of a full round.
fn full_column(s: &[[u8; 4]; 4], c: usize, key: [u8; 4]) -> [u8; 4]
    requires { c < 4 }
    ensures { result ≡ C.xor_word (mix_word (shifted_word s.now c)) key }
{
    xor_word(mix_column(shifted(s, c)), key)
}

// Column c of the last round, which does not mix.
// Kept: beside full_column: the last round is without a step in the standard too.
fn last_column(s: &[[u8; 4]; 4], c: usize, key: [u8; 4]) -> [u8; 4]
    requires { c < 4 }
    ensures { result ≡ C.xor_word (shifted_word s.now c) key }
{
    xor_word(shifted(s, c), key)
}

// The state before the rounds, as its four columns.
fn first_round(keys: &[u8; 240], block: &[u8; 16]) -> [[u8; 4]; 4]
    ensures { listed result ≡ C.add_round_key block.now keys.now 0 }
{
    [
        xor_word(word(block, 0), word(keys, 0)),
        xor_word(word(block, 1), word(keys, 1)),
        xor_word(word(block, 2), word(keys, 2)),
        xor_word(word(block, 3), word(keys, 3)),
    ]
}

fn round(s: &[[u8; 4]; 4], keys: &[u8; 240], n: usize) -> [[u8; 4]; 4]
    requires { n < 14 }
    ensures { listed result ≡ C.full_round (listed s.now) keys.now n }
{
    [
        full_column(s, 0, word(keys, 4 * n)),
        full_column(s, 1, word(keys, 4 * n + 1)),
        full_column(s, 2, word(keys, 4 * n + 2)),
        full_column(s, 3, word(keys, 4 * n + 3)),
    ]
}

fn last_round(s: &[[u8; 4]; 4], keys: &[u8; 240]) -> [[u8; 4]; 4]
    ensures { listed result ≡ C.add_round_key (C.shift_rows (C.sub_bytes (listed s.now))) keys.now 14 }
{
    [
        last_column(s, 0, word(keys, 56)),
        last_column(s, 1, word(keys, 57)),
        last_column(s, 2, word(keys, 58)),
        last_column(s, 3, word(keys, 59)),
    ]
}

// The cipher of one block under a schedule.
pub fn encrypt(keys: &[u8; 240], block: [u8; 16]) -> [u8; 16]
    ensures { result ≡ C.cipher keys.now block }
{
    let mut s = first_round(keys, &block);
    for n in 1..14 {
        s = round(&s, keys, n);
    }
    let z = last_round(&s, keys);
    array::from_fn(|i| z[i / 4][i % 4])
}

// Word i of a schedule, or column i of a block.
fn word(w: &[u8], i: usize) -> [u8; 4]
    requires { 4 * i + 4 ≤ length w.now }
    ensures { result ≡ C.word_at w.now i }
{
    [w[4 * i], w[4 * i + 1], w[4 * i + 2], w[4 * i + 3]]
}

fn xor_word(v: [u8; 4], w: [u8; 4]) -> [u8; 4]
    ensures { result ≡ C.xor_word v w }
{
    array::from_fn(|r| v[r] ^ w[r])
}

fn rot_word(w: [u8; 4]) -> [u8; 4]
    ensures { result ≡ C.rot_word w }
{
    [w[1], w[2], w[3], w[0]]
}

fn sub_word(w: [u8; 4]) -> [u8; 4]
    ensures { result ≡ C.sub_word w }
{
    w.map(sub_byte)
}

fn round_constant(j: usize) -> u8
    requires { (1 ≤ j) × (j < 8) }
    ensures { result ≡ power_of_x (j - 1) }
{
    1 << (j - 1)
}

// What is added to word i - 8 to give word i, from the word before.
fn temp(w: [u8; 4], i: usize) -> [u8; 4]
    requires { (8 ≤ i) × (i < 60) }
    ensures { result ≡ C.temp w i }
{
    if i % 8 == 0 {
        return xor_word(sub_word(rot_word(w)), [round_constant(i / 8), 0, 0, 0]);
    }
    if i % 8 == 4 {
        return sub_word(w);
    }
    w
}

// The schedule of a key.
pub fn expand(key: &[u8; 32]) -> [u8; 240]
    ensures { result ≡ C.key_expansion key.now }
{
    let mut w = [0; 240];
    cells::put_front(&mut w, key);
    for i in 8..60 {
        let next = xor_word(word(&w, i - 8), temp(word(&w, i - 1), i));
        cells::put_at(&mut w, 4 * i, &next);
    }
    w
}
