// A request held against the reply to a setup, by the stages that judge a request.
ghost use Rattle.std.specs.Prelude.{◌≡◌};
ghost use Rattle.stages.specs.InnerRefusals.{number_in};
ghost use Rattle.gate.specs.Trial.{trial_of, tried};
ghost use Rattle.gate.specs.InnerTrials.{SameTokenIs, AgainstIs};

use super::asked::Asked;
use super::sizes;
use armor::{Fields, Reply};
use lines::noting::Notes;
use names::KnownNames;
use orders::{Numbers, Ordered};
use reply::reading;
use stages::refusal::Refusal;
use stages::vouching;

// Whether a client's request fits the reply to its setup: checks 1, 23, 4 to 8 and 11.
// Kept: the parameters of gate_fits, a C call.
pub fn fits<'a>(
    setup_reply: &[u8],
    value: &[u8],
    method: &[u8],
    head: &'a [u8],
    aside: &'a [u8],
    path: &[u8],
    body: &[u8],
) -> Result<(), Refusal>
    ensures { number_in result ≡ tried (trial_of setup_reply.now value.now method.now head.now aside.now path.now body.now) }
{
    let Some(asked) = sizes::trial(setup_reply, value, method, head, aside, path, body) else {
        return Err(Refusal::WrongSize);
    };
    let Some(reply) = reading::read(setup_reply) else {
        return Err(Refusal::BadReply);
    };
    let known = names::known();
    let numbers = Numbers {
        mask: reply.ah,
        hashes: reply.h,
        request_life: 0,
        idle: 0,
        session_life: 0,
    };
    let Some(ordered) = orders::check(&known, numbers, reply.eah.as_slice()) else {
        return Err(Refusal::BadReply);
    };
    against(&known, &ordered, &reply, &asked)
}

// Checks 4 to 8 and 11, by the orders and the key of a reply.
fn against(
    known: &KnownNames,
    ordered: &Ordered,
    reply: &Reply,
    asked: &Asked,
) -> Result<(), Refusal>
    ensures { AgainstIs ordered.now reply.now asked.now result }
{
    let mut fields = Fields::new();
    let mut notes = Notes::new();
    let brought = &asked.brought;
    let request = stages::reading::read(
        known,
        ordered,
        asked.value,
        brought.method,
        &brought.lines,
        &mut fields,
        &mut notes,
    )?;
    if !same_token(&fields, reply) {
        return Err(Refusal::NotAsOrdered);
    }
    if !vouching::signs(
        &ordered.covered,
        &reply.key,
        &request,
        &fields,
        brought,
        &notes,
    ) {
        return Err(Refusal::WrongSignature);
    }
    Ok(())
}

// Whether a request's s, iv and tag are the reply's.
fn same_token(fields: &Fields, reply: &Reply) -> bool
    ensures { SameTokenIs fields.now reply.now result }
{
    cells::same(fields.s.as_slice(), reply.s.as_slice())
        & (cells::same(&fields.iv, &reply.iv) & cells::same(&fields.tag, &reply.tag))
}
