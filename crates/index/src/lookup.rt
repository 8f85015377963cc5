// Finding a session through the index.
ghost use Rattle.std.specs.Prelude.{◌≡◌};
ghost use Rattle.table.specs.Table.{places, records, found, Placed};
ghost use Rattle.index.specs.Index.{Indexed};
ghost use Rattle.index.specs.InnerEntries.{Ordered, Ranks};

use super::{entries, order};
use table::place;
use table::session::SIZE;

// How many entries are of lower IVs than this.
pub fn rank(table: &[u8], index: &[u8], iv: &[u8; 12]) -> usize
    requires { Ordered (records table.now) index.now }
    ensures { Ranks (records table.now) index.now iv.now result }
{
    let (entries, _) = index.as_chunks::<2>();
    entries.partition_point(|entry| order::is_low(table, entries::place_of(*entry), iv))
}

// The place of the used record with this IV.
// Kept: a struct of table and index would be two, one to read both and one to write both, and every caller holds them apart.
pub fn find(table: &[u8], index: &[u8], iv: &[u8; 12]) -> Option<usize>
    requires { Indexed table.now index.now }
    ensures { Placed (found (records table.now) iv.now) (places table.now) result }
{
    let n = table.len() / SIZE;
    let at = rank(table, index, iv);
    if n <= at {
        return None;
    }
    let place = entries::read(index, at);
    (place < n && place::has_iv(table, place, iv)).then_some(place)
}
