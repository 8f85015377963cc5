// Whether a table is well formed and an index fits it, in one pass over each.
ghost use Rattle.std.specs.Prelude.{◌≡◌, ◌&&◌, ◌*◌, ◌/◌, ◌≤◌, length};
ghost use Rattle.cells.specs.Runs.{same};
ghost use Rattle.table.specs.Table.{places, records};
ghost use Rattle.table.specs.WellFormed.{well_formed};
ghost use Rattle.index.specs.Index.{vacant, index_of};
ghost use Rattle.index.specs.InnerEntries.{rises_at, vacant_at, every, TallyIs};

use super::{entries, order};
use table::rule;
use table::session::SIZE;

// How many records are used, where all are sound.
// Kept: places and not records, since the checks of a record (table::rule) take the table and a place.
fn tally(table: &[u8]) -> Option<usize>
    ensures { TallyIs (records table.now) result }
{
    let mut used = 0;
    for place in 0..table.len() / SIZE {
        if !rule::sound_at(table, place) {
            return None;
        }
        if table[SIZE * place] == 1 {
            used += 1;
        }
    }
    Some(used)
}

// Whether some entries name used records by rising IV.
fn climb(table: &[u8], entries: &[u8]) -> bool
    ensures { result ≡ every (rises_at (records table.now) entries.now) (length entries.now / 2) }
{
    let mut last = 0;
    let (pairs, _) = entries.as_chunks::<2>();
    for (k, entry) in pairs.iter().enumerate() {
        let place = entries::place_of(*entry);
        if !order::is_used(table, place) {
            return false;
        }
        let next = order::key_at(table, SIZE * place + 1);
        if 0 < k && last >= next {
            return false;
        }
        last = next;
    }
    true
}

// Whether some entries are vacant.
fn are_vacant(entries: &[u8]) -> bool
    ensures { result ≡ every (vacant_at entries.now) (length entries.now / 2) }
{
    let (entries, _) = entries.as_chunks::<2>();
    entries
        .iter()
        .all(|entry| entries::place_of(*entry) == 65535)
}

// IVs that rise from entry to entry stand nowhere twice, so no two records are compared.
pub fn fits(table: &[u8], index: &[u8]) -> bool
    requires { (places table.now ≤ vacant) × (length index.now ≡ 2 * places table.now) }
    ensures { result ≡ (well_formed (records table.now) && same index.now (index_of (records table.now))) }
{
    let Some(count) = tally(table) else {
        return false;
    };
    let (entries, rest) = index.split_at(2 * count);
    climb(table, entries) & are_vacant(rest)
}
