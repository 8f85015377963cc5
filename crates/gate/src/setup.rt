// Setting up a session: a decision that writes nothing, and its effect.
ghost use Rattle.std.specs.Prelude.{◌≡◌, true, ◌+◌, ◌<◌, ◌≤◌, length};
ghost use Rattle.table.specs.Session.{place_of};
ghost use Rattle.table.specs.Table.{places};
ghost use Rattle.index.specs.Index.{Indexed};
ghost use Rattle.orders.specs.Orders.{orders};
ghost use Rattle.gate.specs.State.{holding, outcome};
ghost use Rattle.gate.specs.Sizes.{state_fits};
ghost use Rattle.gate.specs.InnerStarts.{DecidesStart, UntilIs, OfferIs, RoomIs, start_at};

use super::entry;
use super::lent::Lent;
use armor::Reply;
use cells::Run;
use hashes::Hash;
use index::{change, lookup};
use names::Covered;
use orders::Numbers;
use stages::refusal::Refusal;
use table::{place, session};
use window::time::Time;

// The place that the new session takes, its hash and its expiry.
#[derive(Clone, Copy)]
pub struct Start {
    pub place: usize,
    pub hash: Hash,
    pub expiry: Time,
}

pub fn decide(
    numbers: Numbers,
    extra: &[u8],
    clock: Time,
    lent: &Lent,
    table: &[u8],
    index: &[u8],
) -> Result<Start, Refusal>
    requires { state_fits (holding table.now index.now) ≡ true }
    ensures { DecidesStart (orders numbers extra.now) clock.0 lent.now (holding table.now index.now) result }
{
    let Some(ordered) = orders::check(&names::known(), numbers, extra) else {
        return Err(Refusal::BadOrders);
    };
    entry::state(table, index)?;
    let offer = offered(
        lent.value,
        ordered.hashes,
        clock,
        ordered.limits.session_life,
    )?;
    let place = room(table, index, lent.iv, clock)?;
    Ok(Start {
        place,
        hash: offer.hash,
        expiry: offer.expiry,
    })
}

// The hash that client and orders come to, and until when the session would last.
#[derive(Clone, Copy)]
struct Offer {
    hash: Hash,
    expiry: Time,
}

// Checks 4, 5, 19 and 20.
fn offered(value: &[u8], hashes: u64, clock: Time, life: u32) -> Result<Offer, Refusal>
    requires { length value.now ≤ 4096 }
    ensures { OfferIs value.now hashes (clock.0 + life) result }
{
    let mask = armor::read_setup(value)?;
    until(mask, hashes, clock, life)
}

fn until(mask: u64, hashes: u64, clock: Time, life: u32) -> Result<Offer, Refusal>
    ensures { UntilIs mask hashes (clock.0 + life) result }
{
    let Some(hash) = Hash::common(mask, hashes) else {
        return Err(Refusal::NoCommonHash);
    };
    let Some(end) = clock.0.checked_add(life) else {
        return Err(Refusal::ExpiryTooLate);
    };
    Ok(Offer {
        hash,
        expiry: Time(end),
    })
}

// The place for the new session: checks 17 and 18.
fn room(table: &[u8], index: &[u8], iv: &[u8; 12], clock: Time) -> Result<usize, Refusal>
    requires { Indexed table.now index.now }
    ensures { RoomIs table.now iv.now clock.0 result }
{
    if lookup::find(table, index, iv).is_some() {
        return Err(Refusal::IvInUse);
    }
    place::to_take(table, clock).ok_or(Refusal::TableFull)
}

// The effect of a setup that nothing refuses.
pub fn apply(
    covered: &Covered,
    lent: &Lent,
    start: &Start,
    table: &mut [u8],
    index: &mut [u8],
    reply: &mut [u8],
) -> u32
    requires { (start.now.place < places table.old) × (1024 ≤ length reply.old) × Indexed table.old index.old × (place_of table.old lent.now.iv.now ≡ None) }
    ensures { outcome result reply.new (holding table.new index.new) ≡ start_at covered.now lent.now start.now table.old reply.old }
{
    let sealed = token::seal(
        lent.server_key,
        lent.iv,
        lent.session_key,
        lent.session_id,
        start.expiry,
    );
    // Kept: a variable: an array goes out of one struct into another by one of its own.
    let tag = sealed.tag;
    let told = Reply {
        s: sealed.s,
        iv: *lent.iv,
        tag,
        key: *lent.session_key,
        h: start.hash.mask(),
        ah: covered.mask,
        eah: Run::of(covered.extra),
    };
    let len = reply::setup(reply, &told);
    let session = session::begin(lent.iv, start.expiry, start.hash.mask() as u8);
    change::take(table, index, start.place, session);
    256 * (len as u32)
}
