// Whether the token opens, still holds, and its session key has signed the request: checks 9 to 11. The token is opened by itself, so that the
// stack that it takes is free again when the signature is made.
ghost use Rattle.std.specs.Prelude.{◌≡◌};
ghost use Rattle.names.specs.Covered.{covered_names};
ghost use Rattle.lines.specs.InnerNotes.{NotesOf};
ghost use Rattle.stages.specs.InnerStages.{UnsealIs, VouchIs, SignIs};

use super::refusal::Refusal;
use armor::{Fields, Request};
use hashes::Hash;
use lines::noting::Notes;
use names::Covered;
use signed::Brought;
use token::Token;
use window::time::Time;

// Check 9: the token.
pub fn unseal(server_key: &[u8; 32], fields: &Fields) -> Result<Token, Refusal>
    ensures { UnsealIs server_key.now fields.now result }
{
    token::unseal(server_key, &fields.iv, fields.s.as_slice(), &fields.tag).ok_or(Refusal::BadToken)
}

// Checks 9 to 11, of what unseal answered.
// Kept: this clause on the notes, which signs and signed::code have too. A struct of covered, brought and notes is no plainer: each of the three
// places that note would make one for this call alone.
pub fn vouch(
    covered: &Covered,
    clock: Time,
    opened: Result<&Token, Refusal>,
    request: &Request,
    fields: &Fields,
    brought: &Brought,
    notes: &Notes,
) -> Result<(), Refusal>
    requires { NotesOf (covered_names covered.now.mask covered.now.extra.now) brought.now.lines.head.now brought.now.lines.aside.now notes.now }
    ensures { VouchIs covered.now clock.0 opened.entry request.now fields.now brought.now result }
{
    let token = opened?;
    if token.expiry <= clock {
        return Err(Refusal::Expired);
    }
    if !signs(covered, &token.key, request, fields, brought, notes) {
        return Err(Refusal::WrongSignature);
    }
    Ok(())
}

// Whether a session key has signed the request, under the hash that its h names.
pub fn signs(
    covered: &Covered,
    key: &[u8; 32],
    request: &Request,
    fields: &Fields,
    brought: &Brought,
    notes: &Notes,
) -> bool
    requires { NotesOf (covered_names covered.now.mask covered.now.extra.now) brought.now.lines.head.now brought.now.lines.aside.now notes.now }
    ensures { SignIs covered.now key.now request.now fields.now brought.now result }
{
    let hash = Hash::named(request.h);
    let code = signed::code(
        key, hash, covered, request.n, request.t, request.lt, brought, notes,
    );
    signed::same_code(fields.c.as_slice(), &code, hash)
}
