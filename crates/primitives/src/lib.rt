// The primitives by themselves, for outside vectors and benchmarks: primitives_c exports them to C, and no call asks anything of its caller.
// Each answers 0 when it is done, and 1 where a size does not fit, with every byte as it was.
#![tactic(auto)]

ghost use Rattle.std.specs.Prelude.{◌≡◌};
ghost use Rattle.hashes.specs.declared.Hash.TheVariants.{Sha256, Sha512};
ghost use Rattle.primitives.specs.Answer.{answer, number_of};
ghost use Rattle.primitives.specs.Digests.{digest_call, hmac_call};
ghost use Rattle.primitives.specs.Sealing.{seal_answer, seal_call, open_call};

use gcm::WrongTag;
use hashes::Hash;
use sha_2::State;
use std::array::TryFromSliceError;

// Why a call is not done.
#[derive(Clone, Copy, PartialEq, Eq)]
enum Undone {
    Size,
    Tag,
}

impl From<WrongTag> for Undone {
    ghost use Rattle.primitives.specs.declared.Undone.TheVariants as Undone;

    ghost from_gives = { λ _ undone. undone ≡ Undone.Tag };

    fn from(_: WrongTag) -> Undone {
        Undone::Tag
    }
}

impl From<TryFromSliceError> for Undone {
    ghost use Rattle.primitives.specs.declared.Undone.TheVariants as Undone;

    ghost from_gives = { λ _ undone. undone ≡ Undone.Size };

    fn from(_: TryFromSliceError) -> Undone {
        Undone::Size
    }
}

// A call's answer.
// Kept: the C interface: a call answers a number.
fn number(done: Result<(), Undone>) -> u32
    ensures { result ≡ number_of done }
{
    match done {
        Ok(()) => 0,
        Err(Undone::Size) => 1,
        Err(Undone::Tag) => 2,
    }
}

// A text to hash is shorter, which is far above what memory holds.
const LIMIT: usize = 1 << 60;

// The hash of text into out, which has as many bytes.
fn digest(hash: Hash, text: &[u8], out: &mut [u8]) -> Result<(), Undone>
    ensures { answer (number_of result) out.new ≡ digest_call hash text.now out.old }
{
    if out.len() != hash.size() || LIMIT <= text.len() {
        return Err(Undone::Size);
    }
    let mut state = State::new(hash);
    state.absorb(text);
    out.copy_from_slice(&state.finish()[..hash.size()]);
    Ok(())
}

// SHA-256 of text into out, which has 32 bytes.
// Kept: the C interface: two calls for two hashes, here and for the codes.
pub fn prim_sha256(text: &[u8], out: &mut [u8]) -> u32
    ensures { answer result out.new ≡ digest_call Sha256 text.now out.old }
{
    number(digest(Hash::Sha256, text, out))
}

// SHA-512 of text into out, which has 64 bytes.
pub fn prim_sha512(text: &[u8], out: &mut [u8]) -> u32
    ensures { answer result out.new ≡ digest_call Sha512 text.now out.old }
{
    number(digest(Hash::Sha512, text, out))
}

// The HMAC of text under key into out, which has as many bytes.
fn code(hash: Hash, key: &[u8], text: &[u8], out: &mut [u8]) -> Result<(), Undone>
    ensures { answer (number_of result) out.new ≡ hmac_call hash key.now text.now out.old }
{
    if out.len() != hash.size() || LIMIT <= key.len() || LIMIT <= text.len() {
        return Err(Undone::Size);
    }
    let mut state = hmac::begin(hash, key);
    state.absorb(text);
    out.copy_from_slice(&hmac::finish(key, &state)[..hash.size()]);
    Ok(())
}

// HMAC-SHA-256 of text under key into out, which has 32 bytes.
pub fn prim_hmac_sha256(key: &[u8], text: &[u8], out: &mut [u8]) -> u32
    ensures { answer result out.new ≡ hmac_call Sha256 key.now text.now out.old }
{
    number(code(Hash::Sha256, key, text, out))
}

// HMAC-SHA-512 of text under key into out, which has 64 bytes.
pub fn prim_hmac_sha512(key: &[u8], text: &[u8], out: &mut [u8]) -> u32
    ensures { answer result out.new ≡ hmac_call Sha512 key.now text.now out.old }
{
    number(code(Hash::Sha512, key, text, out))
}

// SP 800-38D's longest text.
const LONGEST: usize = (1 << 36) - 32;

// The sealed text into out, and the tag.
fn seal(key: &[u8], iv: &[u8], text: &[u8], out: &mut [u8], tag: &mut [u8]) -> Result<(), Undone>
    ensures { seal_answer (number_of result) out.new tag.new ≡ seal_call key.now iv.now text.now out.old tag.old }
{
    let key = key.try_into()?;
    let iv = iv.try_into()?;
    if LONGEST < text.len() || tag.len() != 16 || out.len() != text.len() {
        return Err(Undone::Size);
    }
    let mut right = [0u8; 16];
    gcm::seal(key, iv, text, out, &mut right);
    tag.copy_from_slice(&right);
    Ok(())
}

// AES-256-GCM with no associated data: the sealed text into out, which is as long as text, and the tag's 16 bytes.
pub fn prim_gcm_seal(key: &[u8], iv: &[u8], text: &[u8], out: &mut [u8], tag: &mut [u8]) -> u32
    ensures { seal_answer result out.new tag.new ≡ seal_call key.now iv.now text.now out.old tag.old }
{
    number(seal(key, iv, text, out, tag))
}

// The text of a sealed one into out.
fn open(key: &[u8], iv: &[u8], text: &[u8], tag: &[u8], out: &mut [u8]) -> Result<(), Undone>
    ensures { answer (number_of result) out.new ≡ open_call key.now iv.now text.now tag.now out.old }
{
    let key = key.try_into()?;
    let iv = iv.try_into()?;
    let tag = tag.try_into()?;
    if LONGEST < text.len() || out.len() != text.len() {
        return Err(Undone::Size);
    }
    gcm::unseal(key, iv, text, tag, out)?;
    Ok(())
}

// The text of a sealed one into out, which is as long; 2 where the tag is wrong, with every byte as it was.
pub fn prim_gcm_open(key: &[u8], iv: &[u8], text: &[u8], tag: &[u8], out: &mut [u8]) -> u32
    ensures { answer result out.new ≡ open_call key.now iv.now text.now tag.now out.old }
{
    number(open(key, iv, text, tag, out))
}
