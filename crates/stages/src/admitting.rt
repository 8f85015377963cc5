// Whether the request's session admits it: checks 12, 8 against the record, 13, 14, 21, 15 and 16.
ghost use Rattle.stages.specs.InnerStages.{AdmitIs};

use super::refusal::Refusal;
use armor::Request;
use hashes::Hash;
use orders::Limits;
use table::session::Record;
use window::time::Time;
use window::{Verdict, time};

// Where the session stands in the table, and what its record holds.
#[derive(Clone, Copy)]
pub struct Session {
    pub place: usize,
    pub record: Record,
}

// Where nonces are ordered, the session's next record.
pub fn admit(
    session: Option<Session>,
    clock: Time,
    request: &Request,
    limits: &Limits,
    nonces: bool,
) -> Result<Option<Record>, Refusal>
    ensures { AdmitIs session clock.0 request.now limits.now nonces result }
{
    let Some(session) = session else {
        return Err(Refusal::NoSession);
    };
    let hash = Hash::named(request.h);
    if u64::from(session.record.hash) != hash.mask() {
        return Err(Refusal::NotAsOrdered);
    }
    if time::idle(request.t, request.lt, limits.idle) {
        return Err(Refusal::Idle);
    }
    if time::too_old(clock, request.t, limits.request_life) {
        return Err(Refusal::TooOld);
    }
    if time::too_far_ahead(clock, request.t) {
        return Err(Refusal::TooFarAhead);
    }
    if !nonces {
        return Ok(None);
    }
    let stepped = session.record.window().step(request.n);
    match stepped.verdict {
        Verdict::Accepted => Ok(Some(session.record.with_window(stepped.window))),
        Verdict::TooOld => Err(Refusal::NonceTooLow),
        Verdict::Seen => Err(Refusal::NonceSeen),
    }
}
