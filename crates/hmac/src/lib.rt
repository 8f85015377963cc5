// HMAC over SHA-256 or SHA-512 and a text that arrives in parts: RFC 2104.
#![tactic(auto)]

ghost use Rattle.std.specs.Prelude.{◌≡◌, List, ◌++◌, ℕ, ◌^◌, ◌≤◌, ◌<◌, length, take};
ghost use Rattle.hashes.specs.declared.Hash as Declared;
ghost use Rattle.hashes.specs.Hashes.{digest_size};
ghost use Rattle.sha_2.specs.Hash.{block_size, sha2};
ghost use Rattle.sha_2.specs.InnerTaken.{Taken};
ghost use Rattle.hmac.specs.Hmac.{key_block, xored, inner_key, hmac_of};

use hashes::Hash;
use sha_2::State;

// The key in a block, at the front.
// Kept: key's bound as a clause: callers have keys of 32 bytes, of up to 256 and below 2 ^ 60; a type of them all would be made in each call.
fn key_block(hash: Hash, key: &[u8]) -> [u8; 128]
    requires { length key.now < 2 ^ 61 }
    ensures { take (block_size hash) result ≡ key_block (sha2 hash) (block_size hash) key.now }
{
    let mut block = [0u8; 128];
    if sha_2::block_size(hash) < key.len() {
        let mut state = State::new(hash);
        state.absorb(key);
        cells::put_front(&mut block, &state.finish()[..hash.size()]);
    } else {
        cells::put_front(&mut block, key);
    }
    block
}

// The state that has taken in the key under pad: the inner or the outer key.
fn keyed(hash: Hash, key: &[u8], pad: u8) -> State
    requires { length key.now < 2 ^ 61 }
    ensures { (result.length ≤ 128) × Taken hash result (xored pad (key_block (sha2 hash) (block_size hash) key.now)) }
{
    let mut block = key_block(hash, key);
    for b in &mut block {
        *b ^= pad;
    }
    let mut state = State::new(hash);
    state.absorb(&block[..sha_2::block_size(hash)]);
    state
}

// The state that has taken in the inner key. It takes in the text's parts by itself.
pub fn begin(hash: Hash, key: &[u8]) -> State
    requires { length key.now < 2 ^ 61 }
    ensures { (result.length ≤ 128) × Taken hash result (inner_key (sha2 hash) (block_size hash) key.now) }
{
    keyed(hash, key, 0x36)
}

// The HMAC under key of the text that the state has taken in after the inner key, at the front.
// The outer key is taken in only here, so that no second state goes along with the text.
pub fn finish(key: &[u8], state: &State) -> [u8; 64]
    requires { (length key.now < 2 ^ 61) × (state.now.length < 2 ^ 61) }
    ensures { (h : Declared.Hash) (text : List ℕ) → Taken h state.now (inner_key (sha2 h) (block_size h) key.now ++ text) → take (digest_size h) result ≡ hmac_of h key.now text }
{
    let inner = state.finish();
    let mut outer = keyed(state.hash, key, 0x5c);
    outer.absorb(&inner[..state.hash.size()]);
    outer.finish()
}
