// The login gate: setting up a session, judging a request, ending a session, and making an index anew, for a proxy written in C; and trying a
// client's request.
// Each call takes any numbers and bytes, and answers its number plus 256 times the reply's length.
#![tactic(auto)]

ghost use Rattle.std.specs.Prelude.{◌≡◌, []};
ghost use Rattle.table.specs.Record.{record_bytes};
ghost use Rattle.orders.specs.Orders.{orders_of};
ghost use Rattle.stages.specs.Request.{request_of};
ghost use Rattle.gate.specs.State.{holding, indexed, outcome};
ghost use Rattle.gate.specs.Calls.{setup_of};
ghost use Rattle.gate.specs.Setup.{set_up};
ghost use Rattle.gate.specs.Judge.{judged};
ghost use Rattle.gate.specs.End.{ended};
ghost use Rattle.gate.specs.Remake.{remade};
ghost use Rattle.gate.specs.Trial.{trial_of, tried};

use names::Covered;
use orders::Numbers;
use stages::refusal::Refusal;
use table::session::Record;
use window::time::Time;

mod asked;
mod entry;
mod judge;
mod lent;
mod number;
pub mod one;
mod setup;
mod sizes;
mod trying;
mod upkeep;

// Sets up a session.
// Kept: the C interface, in every call here: parts by themselves, and a number as the answer.
pub fn gate_setup(
    mask: u64,
    hashes: u64,
    extra: &[u8],
    request_life: u32,
    idle: u32,
    session_life: u32,
    clock: u32,
    server_key: &[u8],
    session_key: &[u8],
    iv: &[u8],
    session_id: &[u8],
    value: &[u8],
    table: &mut [u8],
    index: &mut [u8],
    reply: &mut [u8],
) -> u32
    ensures { outcome result reply.new (holding table.new index.new) ≡ set_up (setup_of (orders_of mask hashes extra.now request_life idle session_life) clock server_key.now session_key.now iv.now session_id.now value.now reply.old) (holding table.old index.old) }
{
    let Some(lent) = sizes::setup(
        server_key,
        session_key,
        iv,
        session_id,
        value,
        table,
        index,
        reply,
    ) else {
        return Refusal::WrongSize.number();
    };
    let numbers = Numbers {
        mask,
        hashes,
        request_life,
        idle,
        session_life,
    };
    match setup::decide(numbers, extra, Time(clock), &lent, table, index) {
        Ok(start) => {
            let covered = Covered { mask, extra };
            setup::apply(&covered, &lent, &start, table, index, reply)
        }
        Err(refusal) => refusal.number(),
    }
}

// Judges a request.
pub fn gate_judge<'a>(
    mask: u64,
    hashes: u64,
    extra: &[u8],
    request_life: u32,
    idle: u32,
    session_life: u32,
    clock: u32,
    server_key: &[u8],
    value: &[u8],
    method: &[u8],
    head: &'a [u8],
    aside: &'a [u8],
    path: &[u8],
    body: &[u8],
    table: &mut [u8],
    index: &mut [u8],
    reply: &mut [u8],
) -> u32
    ensures { outcome result reply.new (holding table.new index.new) ≡ judged (request_of (orders_of mask hashes extra.now request_life idle session_life) clock server_key.now value.now method.now head.now aside.now path.now body.now reply.old) (holding table.old index.old) }
{
    let (server_key, asked) = match sizes::request(
        server_key, value, method, head, aside, path, body, reply,
    ) {
        Some(lent) if sizes::state_fits(table, index) => lent,
        _ => return Refusal::WrongSize.number(),
    };
    let numbers = Numbers {
        mask,
        hashes,
        request_life,
        idle,
        session_life,
    };
    match judge::decide(
        numbers,
        extra,
        Time(clock),
        server_key,
        &asked,
        table,
        index,
    ) {
        Ok(decision) => {
            judge::apply(&decision, table, index);
            judge::answer(&decision, reply)
        }
        Err(refusal) => refusal.number(),
    }
}

// Judges a request over one session's record, which the host lends: the new record stands there afterwards.
pub fn gate_judge_one<'a>(
    mask: u64,
    hashes: u64,
    extra: &[u8],
    request_life: u32,
    idle: u32,
    session_life: u32,
    clock: u32,
    server_key: &[u8],
    value: &[u8],
    method: &[u8],
    head: &'a [u8],
    aside: &'a [u8],
    path: &[u8],
    body: &[u8],
    record: &mut Record,
    reply: &mut [u8],
) -> u32
    ensures { outcome result reply.new (indexed (record_bytes «record».new)) ≡ judged (request_of (orders_of mask hashes extra.now request_life idle session_life) clock server_key.now value.now method.now head.now aside.now path.now body.now reply.old) (indexed (record_bytes «record».old)) }
{
    let judged = one::judge(
        mask,
        hashes,
        extra,
        request_life,
        idle,
        session_life,
        clock,
        server_key,
        value,
        method,
        head,
        aside,
        path,
        body,
        *record,
        reply,
    );
    *record = judged.next;
    judged.answer
}

// Ends the session that has this IV.
pub fn gate_end(iv: &[u8], table: &mut [u8], index: &mut [u8]) -> u32
    ensures { outcome result [] (holding table.new index.new) ≡ ended iv.now (holding table.old index.old) }
{
    number::of(upkeep::end(iv, table, index))
}

// Makes the index that fits a table, whatever stands in it.
pub fn gate_index(table: &[u8], index: &mut [u8]) -> u32
    ensures { outcome result [] (holding table.now index.new) ≡ remade (holding table.now index.old) }
{
    number::of(upkeep::remake(table, index))
}

// Tries a client: whether its request fits the reply to its setup, and otherwise the first rule that it breaks.
pub fn gate_fits<'a>(
    setup_reply: &[u8],
    value: &[u8],
    method: &[u8],
    head: &'a [u8],
    aside: &'a [u8],
    path: &[u8],
    body: &[u8],
) -> u32
    ensures { result ≡ tried (trial_of setup_reply.now value.now method.now head.now aside.now path.now body.now) }
{
    number::of(trying::fits(setup_reply, value, method, head, aside, path, body))
}
