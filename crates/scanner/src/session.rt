// A session, its parts where they lie: in a state, or in the reply to a setup.
ghost use Rattle.std.specs.Prelude.{◌≡◌, ◌≤◌, length};

use hashes::Hash;
use window::time::Time;

#[derive(Clone, Copy)]
pub struct Session<'a> {
    // The time of the last request, at first that of the setup, and the next nonce.
    pub last: Time,
    pub next: u64,
    pub mask: u64,
    pub hash: Hash,
    pub iv: &'a [u8],
    pub tag: &'a [u8],
    pub key: &'a [u8; 32],
    pub s: &'a [u8],
    pub extra: &'a [u8],
    pub ghost iv_size: { length iv.now ≡ 12 },
    pub ghost tag_size: { length tag.now ≡ 16 },
    pub ghost key_size: { length key.now ≡ 32 },
    pub ghost s_fits: { length s.now ≤ 118 },
    pub ghost extra_fits: { length extra.now ≤ 128 },
}
