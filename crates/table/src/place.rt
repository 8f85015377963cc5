// The places of the table that a call looks for.
ghost use Rattle.std.specs.Prelude.{◌≡◌, ℕ, Bool, ◌+◌, ◌*◌, ◌<◌, ◌≤◌, length, drop};
ghost use Rattle.cells.specs.Runs.{part, same};
ghost use Rattle.table.specs.Table.{places, record_at, records, first_from, holds, is_free, lapsed, taken, Placed};
ghost use Rattle.table.specs.declared.session.Record.{Record};

use super::session::SIZE;
use window::time::Time;

// Whether a place has a used record with this IV.
// Kept: that a place is within the table is what an index of a slice asks; a struct of table and place would be made for each call.
pub fn has_iv(table: &[u8], place: usize, iv: &[u8]) -> bool
    requires { place < places table.now }
    ensures { result ≡ holds iv.now (record_at table.now place) }
{
    let at = SIZE * place;
    (table[at] == 1) & same_iv(table, at + 1, iv)
}

// Whether the IV stands in the table from byte at on. An IV is no secret, and two numbers are compared sooner than twelve bytes.
// Kept: not ==: two numbers are compared sooner than twelve bytes (docs/SPEED.md).
fn same_iv(table: &[u8], at: usize, iv: &[u8]) -> bool
    requires { at + 12 ≤ length table.now }
    ensures { result ≡ same (part table.now at 12) iv.now }
{
    if iv.len() != 12 {
        return false;
    }
    if cells::load64(table, at) != cells::load64(iv, 0) {
        return false;
    }
    cells::load32(table, at + 8) == cells::load32(iv, 8)
}

// The lowest place from `start` on whose record passes a test.
// Kept: a for: tried as the range's find, which needs a clause on its closure and took 12 percent longer where no place passes.
fn first<F: Fn(usize) -> bool>(table: &[u8], start: usize, passes: F) -> Option<usize>
    requires within { start ≤ places table.now }
    requires callable { (place : ℕ) → place < places table.now → F.pre passes place }
    ensures { (test : Record → Bool) → ((place : ℕ) (r : Bool) → place < places table.now → F.post passes place r → r ≡ test (record_at table.now place)) → Placed (first_from test start (drop start (records table.now))) (places table.now) result }
{
    for place in start..table.len() / SIZE {
        if passes(place) {
            return Some(place);
        }
    }
    None
}

// The lowest place from `start` on that has a used record with this IV.
pub fn find_from(table: &[u8], start: usize, iv: &[u8]) -> Option<usize>
    requires { start ≤ places table.now }
    ensures { Placed (first_from (holds iv.now) start (drop start (records table.now))) (places table.now) result }
{
    first(table, start, |place| has_iv(table, place, iv))
}

// Whether a place is free.
fn is_free(table: &[u8], place: usize) -> bool
    requires { place < places table.now }
    ensures { result ≡ is_free (record_at table.now place) }
{
    table[SIZE * place] == 0
}

// The lowest free place.
fn first_free(table: &[u8]) -> Option<usize>
    ensures { Placed (first_from is_free 0 (records table.now)) (places table.now) result }
{
    first(table, 0, |place| is_free(table, place))
}

// Whether the expiry at a place is at or before now.
fn has_lapsed(table: &[u8], place: usize, clock: Time) -> bool
    requires { place < places table.now }
    ensures { result ≡ lapsed clock.0 (record_at table.now place) }
{
    Time(cells::load32(table, SIZE * place + 13)) <= clock
}

// The lowest place whose expiry is at or before now.
fn first_lapsed(table: &[u8], clock: Time) -> Option<usize>
    ensures { Placed (first_from (lapsed clock.0) 0 (records table.now)) (places table.now) result }
{
    first(table, 0, |place| has_lapsed(table, place, clock))
}

// The place that a setup takes: the lowest free one, else the lowest whose expiry is at or before now.
pub fn to_take(table: &[u8], clock: Time) -> Option<usize>
    ensures { Placed (taken (records table.now) clock.0) (places table.now) result }
{
    first_free(table).or_else(|| first_lapsed(table, clock))
}
