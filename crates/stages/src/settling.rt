// What becomes of a request that was read and whose token opened, over its session.
ghost use Rattle.std.specs.Prelude.{◌≡◌, Err, option_map};
ghost use Rattle.stages.specs.InnerStages.{SettleIs};
ghost use Rattle.stages.specs.declared.refusal.Refusal as Declared;

use super::admitting;
use super::admitting::Session;
use super::refusal::Refusal;
use armor::Request;
use hashes::Hash;
use orders::Limits;
use table::session::Record;
use token::Token;
use window::time::Time;

// What the effect needs: the session's place, token and hash; and where it is accepted and nonces are ordered its next record.
#[derive(Clone, Copy)]
pub struct Decision {
    pub place: Option<usize>,
    pub token: Token,
    pub hash: Hash,
    pub outcome: Result<Option<Record>, Refusal>,
}

// Kept: nonces, clock, request, limits and session are what admit takes; a struct of them would be made here alone.
pub fn settle(
    nonces: bool,
    clock: Time,
    vouched: Result<(), Refusal>,
    token: &Token,
    request: &Request,
    limits: &Limits,
    session: Option<Session>,
) -> Decision
    ensures settled { SettleIs nonces clock.0 vouched token.now request.now limits.now session result }
    ensures refused { (refusal : Declared.Refusal) → vouched ≡ Err refusal → result.outcome ≡ Err refusal }
    ensures place { result.place ≡ option_map (λ s. s.place) session }
{
    Decision {
        place: session.map(|s| s.place),
        token: *token,
        hash: Hash::named(request.h),
        outcome: vouched.and_then(|()| admitting::admit(session, clock, request, limits, nonces)),
    }
}
