// The token: session key, session id and expiry as three netstrings, sealed under the server's key.
#![tactic(auto)]

ghost use Rattle.std.specs.Prelude.{◌≡◌, [], ◌∷◌, ◌≤◌, length};
ghost use Rattle.cells.specs.InnerRun.{run_of};
ghost use Rattle.netstring.specs.Netstring.{netstrings};
ghost use Rattle.token.specs.Token.{token_text, token_in, sealed_token, opened_token};
ghost use Rattle.token.specs.InnerHeld.{Unseals, SealsTo};

use cells::{Run, decimal};
use window::time::Time;

mod expiry;

// Bytes in a session id, at most.
const LONGEST_ID: usize = 64;

// What an opened token holds.
#[derive(Clone, Copy)]
pub struct Token {
    pub key: [u8; 32],
    pub id: Run<64>,
    pub expiry: Time,
}

#[derive(Clone, Copy)]
pub struct SealedToken {
    pub s: Run<118>,
    pub tag: [u8; 16],
}

// The text of a token.
fn text_of(key: &[u8; 32], id: &[u8], expiry: Time) -> Run<118>
    requires { (1 ≤ length id.now) × (length id.now ≤ 64) }
    ensures { run_of result ≡ token_text (record { key = key.now; id = id.now; expiry = expiry.0 }) }
{
    let digits = decimal::digits(u64::from(expiry.0));
    let mut text = [0; 118];
    let key_end = netstring::write(key, &mut text, 0);
    let id_end = netstring::write(id, &mut text, key_end);
    let end = netstring::write(digits.as_slice(), &mut text, id_end);
    Run::of(&text[..end])
}

// The token of a new session, sealed under the server's key and the session's IV.
pub fn seal(
    server_key: &[u8; 32],
    iv: &[u8; 12],
    key: &[u8; 32],
    id: &[u8],
    expiry: Time,
) -> SealedToken
    requires { (1 ≤ length id.now) × (length id.now ≤ 64) }
    ensures { SealsTo (sealed_token server_key.now iv.now (record { key = key.now; id = id.now; expiry = expiry.0 })) result }
{
    let text = text_of(key, id, expiry);
    let mut s = [0; 118];
    let s = &mut s[..text.len()];
    let mut tag = [0; 16];
    gcm::seal(server_key, iv, text.as_slice(), s, &mut tag);
    SealedToken { s: Run::of(s), tag }
}

// The token of three parts, if each is within its size or range.
fn token_of(key: &[u8], id: &[u8], digits: &[u8]) -> Option<Token>
    ensures { Unseals (token_in (netstrings (key.now ∷ id.now ∷ digits.now ∷ []))) result }
{
    let key: [u8; 32] = key.try_into().ok()?;
    if id.is_empty() || LONGEST_ID < id.len() {
        return None;
    }
    Some(Token {
        key,
        id: Run::of(id),
        expiry: expiry::read(digits)?,
    })
}

// The token whose text this is: three netstrings and nothing after them.
fn token_in(text: &[u8]) -> Option<Token>
    ensures { Unseals (token_in text.now) result }
{
    let (key, after_key) = netstring::read(text)?;
    let (id, after_id) = netstring::read(after_key)?;
    let (digits, after_digits) = netstring::read(after_id)?;
    if !after_digits.is_empty() {
        return None;
    }
    token_of(key, id, digits)
}

// The token of s, if its tag is right and it is three netstrings as document 01 has them.
pub fn unseal(server_key: &[u8; 32], iv: &[u8; 12], s: &[u8], tag: &[u8; 16]) -> Option<Token>
    requires { length s.now ≤ 118 }
    ensures { Unseals (opened_token server_key.now iv.now s.now tag.now) result }
{
    let mut text = [0; 118];
    let text = &mut text[..s.len()];
    gcm::unseal(server_key, iv, s, tag, text).ok()?;
    token_in(text)
}
