// The primitives for C. Each export is the function of its name of the crate primitives, whose clauses it states again.
#![tactic(auto)]

ghost use Rattle.std.specs.Prelude.{◌≡◌};
ghost use Rattle.hashes.specs.declared.Hash.TheVariants.{Sha256, Sha512};
ghost use Rattle.primitives.specs.Answer.{answer};
ghost use Rattle.primitives.specs.Digests.{digest_call, hmac_call};
ghost use Rattle.primitives.specs.Sealing.{seal_answer, seal_call, open_call};

// SHA-256 of text into out, which has 32 bytes.
#[unsafe(no_mangle)]
pub extern "C" fn prim_sha256(text: &[u8], out: &mut [u8]) -> u32
    ensures { answer result out.new ≡ digest_call Sha256 text.now out.old }
{
    primitives::prim_sha256(text, out)
}

// SHA-512 of text into out, which has 64 bytes.
#[unsafe(no_mangle)]
pub extern "C" fn prim_sha512(text: &[u8], out: &mut [u8]) -> u32
    ensures { answer result out.new ≡ digest_call Sha512 text.now out.old }
{
    primitives::prim_sha512(text, out)
}

// HMAC-SHA-256 of text under key into out, which has 32 bytes.
#[unsafe(no_mangle)]
pub extern "C" fn prim_hmac_sha256(key: &[u8], text: &[u8], out: &mut [u8]) -> u32
    ensures { answer result out.new ≡ hmac_call Sha256 key.now text.now out.old }
{
    primitives::prim_hmac_sha256(key, text, out)
}

// HMAC-SHA-512 of text under key into out, which has 64 bytes.
#[unsafe(no_mangle)]
pub extern "C" fn prim_hmac_sha512(key: &[u8], text: &[u8], out: &mut [u8]) -> u32
    ensures { answer result out.new ≡ hmac_call Sha512 key.now text.now out.old }
{
    primitives::prim_hmac_sha512(key, text, out)
}

// AES-256-GCM with no associated data: the sealed text into out, which is as long as text, and the tag's 16 bytes.
#[unsafe(no_mangle)]
pub extern "C" fn prim_gcm_seal(
    key: &[u8],
    iv: &[u8],
    text: &[u8],
    out: &mut [u8],
    tag: &mut [u8],
) -> u32
    ensures { seal_answer result out.new tag.new ≡ seal_call key.now iv.now text.now out.old tag.old }
{
    primitives::prim_gcm_seal(key, iv, text, out, tag)
}

// The text of a sealed one into out, which is as long; 2 where the tag is wrong, with every byte as it was.
#[unsafe(no_mangle)]
pub extern "C" fn prim_gcm_open(
    key: &[u8],
    iv: &[u8],
    text: &[u8],
    tag: &[u8],
    out: &mut [u8],
) -> u32
    ensures { answer result out.new ≡ open_call key.now iv.now text.now tag.now out.old }
{
    primitives::prim_gcm_open(key, iv, text, tag, out)
}
