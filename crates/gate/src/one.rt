// Judging a request over one session's record, as a table of that one record would.
ghost use Rattle.std.specs.Prelude.{◌≡◌, ◌≤◌, length};
ghost use Rattle.orders.specs.Orders.{orders, orders_of};
ghost use Rattle.table.specs.Record.{record_bytes};
ghost use Rattle.stages.specs.Checks.{first};
ghost use Rattle.stages.specs.Request.{request_of};
ghost use Rattle.stages.specs.InnerRefusals.{number_in};
ghost use Rattle.gate.specs.State.{indexed, outcome};
ghost use Rattle.gate.specs.InnerSizes.{request_by};
ghost use Rattle.gate.specs.Judge.{judged};
ghost use Rattle.gate.specs.Entry.{state_checks};
ghost use Rattle.gate.specs.InnerDecisions.{StandsIn, DecidesRequest, left_by, Keeps};

use super::asked::Asked;
use super::{judge, sizes};
use orders::Numbers;
use stages::admitting::Session;
use stages::refusal::Refusal;
use stages::settling::Decision;
use table::session::Record;
use table::{rule, session};
use window::time::Time;

// What the call answers, and the session's record after it.
#[derive(Clone, Copy)]
pub struct Judged {
    pub answer: u32,
    pub next: Record,
}

// Judges a request of any parts, over any record.
// Kept: parts by themselves, and not an Asked, which has the sizes: docs/CONTRACTS.md names judge, which takes parts of any size.
pub fn judge<'a>(
    mask: u64,
    hashes: u64,
    extra: &[u8],
    request_life: u32,
    idle: u32,
    session_life: u32,
    clock: u32,
    server_key: &[u8],
    value: &[u8],
    method: &[u8],
    head: &'a [u8],
    aside: &'a [u8],
    path: &[u8],
    body: &[u8],
    record: Record,
    reply: &mut [u8],
) -> Judged
    ensures { outcome result.answer reply.new (indexed (record_bytes result.next)) ≡ judged (request_of (orders_of mask hashes extra.now request_life idle session_life) clock server_key.now value.now method.now head.now aside.now path.now body.now reply.old) (indexed (record_bytes «record»)) }
{
    let Some((server_key, asked)) = sizes::request(
        server_key, value, method, head, aside, path, body, reply,
    ) else {
        return Judged {
            answer: Refusal::WrongSize.number(),
            next: record,
        };
    };
    let numbers = Numbers {
        mask,
        hashes,
        request_life,
        idle,
        session_life,
    };
    let (answer, next) = sized(
        numbers,
        extra,
        Time(clock),
        server_key,
        &asked,
        record,
        reply,
    );
    Judged { answer, next }
}

// The answer to a request whose parts have the sizes, and the record after it.
fn sized(
    numbers: Numbers,
    extra: &[u8],
    clock: Time,
    server_key: &[u8; 32],
    asked: &Asked,
    record: Record,
    reply: &mut [u8],
) -> (u32, Record)
    requires { 1024 ≤ length reply.old }
    ensures { outcome result.0 reply.new (indexed (record_bytes result.1)) ≡ judged (request_by (orders numbers extra.now) clock.0 server_key.now asked.now reply.old) (indexed (record_bytes «record»)) }
{
    match decide(numbers, extra, clock, server_key, asked, record) {
        Ok(decision) => (judge::answer(&decision, reply), after(&decision, record)),
        Err(refusal) => (refusal.number(), record),
    }
}

fn decide(
    numbers: Numbers,
    extra: &[u8],
    clock: Time,
    server_key: &[u8; 32],
    asked: &Asked,
    record: Record,
) -> Result<Decision, Refusal>
    ensures { DecidesRequest (orders numbers extra.now) clock.0 server_key.now asked.now (indexed (record_bytes «record»)) result }
{
    let known = names::known();
    let Some(ordered) = orders::check(&known, numbers, extra) else {
        return Err(Refusal::BadOrders);
    };
    sound(record)?;
    judge::judged(&known, &ordered, clock, server_key, asked, |iv| {
        found(record, iv)
    })
}

// The session of an IV, if it is the record's: in a table of its own that stands at the first place.
fn found(record: Record, iv: &[u8; 12]) -> Option<Session>
    ensures { StandsIn (record_bytes «record») iv.now result }
{
    record.is_of(iv).then_some(Session { place: 0, record })
}

// Whether a table of this record, beside the index that fits it, is well formed: checks 3 and 22.
fn sound(record: Record) -> Result<(), Refusal>
    ensures { number_in result ≡ first (state_checks (indexed (record_bytes «record»))) }
{
    if rule::record_sound(record) {
        Ok(())
    } else {
        Err(Refusal::BadTable)
    }
}

// The record after a decision, where it is the session's.
fn after(decision: &Decision, record: Record) -> Record
    requires { Keeps decision.now «record» }
    ensures { indexed (record_bytes result) ≡ left_by decision.now (indexed (record_bytes «record»)) }
{
    if decision.place.is_none() {
        return record;
    }
    match decision.outcome {
        Ok(next) => next.unwrap_or(record),
        Err(refusal) if judge::invalidates(refusal) => session::freed(),
        Err(_) => record,
    }
}
