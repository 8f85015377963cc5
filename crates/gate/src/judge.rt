// Judging a request: a decision that writes nothing, and its effect.
ghost use Rattle.std.specs.Prelude.{◌≡◌, true, ◌≤◌, List, ℕ, length};
ghost use Rattle.table.specs.Table.{places, Within};
ghost use Rattle.index.specs.Index.{Indexed};
ghost use Rattle.orders.specs.Orders.{orders};
ghost use Rattle.stages.specs.Parts.{invalidates};
ghost use Rattle.stages.specs.InnerRefusals.{number_of, number_in};
ghost use Rattle.stages.specs.InnerStages.{tells};
ghost use Rattle.gate.specs.State.{holding};
ghost use Rattle.gate.specs.Sizes.{state_fits};
ghost use Rattle.gate.specs.InnerDecisions.{DecidesRequest, JudgesRequest, StandsIn, left_by, AnswerIs};

use super::asked::Asked;
use super::entry;
use armor::Fields;
use index::{change, lookup};
use lines::noting::Notes;
use names::KnownNames;
use orders::{Numbers, Ordered};
use stages::admitting::Session;
use stages::refusal::Refusal;
use stages::settling::Decision;
use stages::{reading, settling, vouching};
use table::session;
use window::time::Time;

// Kept: orders, clock and key come from three places, and decide, its twin in one.rt and judged take them together.
pub fn decide(
    numbers: Numbers,
    extra: &[u8],
    clock: Time,
    server_key: &[u8; 32],
    asked: &Asked,
    table: &[u8],
    index: &[u8],
) -> Result<Decision, Refusal>
    requires { state_fits (holding table.now index.now) ≡ true }
    ensures { DecidesRequest (orders numbers extra.now) clock.0 server_key.now asked.now (holding table.now index.now) result }
{
    let known = names::known();
    let Some(ordered) = orders::check(&known, numbers, extra) else {
        return Err(Refusal::BadOrders);
    };
    entry::state(table, index)?;
    judged(&known, &ordered, clock, server_key, asked, |iv| {
        found(table, index, iv)
    })
}

// The session of an IV, through the index.
// Kept: Indexed as a clause: see index::lookup::find.
fn found(table: &[u8], index: &[u8], iv: &[u8; 12]) -> Option<Session>
    requires { Indexed table.now index.now }
    ensures { StandsIn table.now iv.now result }
{
    let place = lookup::find(table, index, iv)?;
    Some(Session {
        place,
        record: session::read(table, place),
    })
}

// The stages from reading on, over the session that `find` finds by its IV.
pub fn judged<F: Fn(&[u8; 12]) -> Option<Session>>(
    known: &KnownNames,
    ordered: &Ordered,
    clock: Time,
    server_key: &[u8; 32],
    asked: &Asked,
    find: F,
) -> Result<Decision, Refusal>
    requires { (iv : _) → F.pre find iv }
    ensures { (table : List ℕ) → ((iv : _) (session : _) → F.post find iv session → StandsIn table iv.now session) → JudgesRequest ordered.now clock.0 server_key.now asked.now table result }
{
    let mut fields = Fields::new();
    let mut notes = Notes::new();
    let brought = &asked.brought;
    let request = reading::read(
        known,
        ordered,
        asked.value,
        brought.method,
        &brought.lines,
        &mut fields,
        &mut notes,
    )?;
    let token = vouching::unseal(server_key, &fields)?;
    let session = find(&fields.iv);
    let covered = &ordered.covered;
    let vouched = vouching::vouch(
        covered,
        clock,
        Ok(&token),
        &request,
        &fields,
        brought,
        &notes,
    );
    Ok(settling::settle(
        covered.mask % 2 == 1,
        clock,
        vouched,
        &token,
        &request,
        &ordered.limits,
        session,
    ))
}

// Whether a refusal frees the session's record and tells the client.
pub fn invalidates(refusal: Refusal) -> bool
    ensures { result ≡ invalidates (number_of refusal) }
{
    matches!(refusal, Refusal::Expired | Refusal::Idle)
}

// The effect of a decision on table and index.
pub fn apply(decision: &Decision, table: &mut [u8], index: &mut [u8])
    requires { Within (places table.old) decision.now.place × (tells (number_in decision.now.outcome) ≡ true → Indexed table.old index.old) }
    ensures { holding table.new index.new ≡ left_by decision.now (holding table.old index.old) }
{
    match decision.outcome {
        Ok(Some(next)) => session::put(table, decision.place, next),
        Err(refusal) if invalidates(refusal) => change::free(table, index, decision.place),
        _ => {}
    }
}

// The reply of a decision, and its answer.
// Kept: the C interface: number plus 256 times the reply's length.
pub fn answer(decision: &Decision, reply: &mut [u8]) -> u32
    requires { tells (number_in decision.now.outcome) ≡ true → 1024 ≤ length reply.old }
    ensures { AnswerIs decision.now reply.old reply.new result }
{
    match decision.outcome {
        Ok(_) => {
            let id = decision.token.id.as_slice();
            cells::put_front(reply, id);
            256 * (id.len() as u32)
        }
        Err(refusal) if invalidates(refusal) => {
            let len = reply::invalidate(reply, decision.hash, &decision.token.key);
            refusal.number() + 256 * (len as u32)
        }
        Err(refusal) => refusal.number(),
    }
}
