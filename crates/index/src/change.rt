// Records taken and freed, the index kept right; and the index made anew.
ghost use Rattle.std.specs.Prelude.{◌≡◌, ◌+◌, ◌*◌, ◌<◌, ◌≤◌, length, true};
ghost use Rattle.table.specs.Record.{freed};
ghost use Rattle.table.specs.Session.{with_record};
ghost use Rattle.table.specs.Table.{places, records, found, Within};
ghost use Rattle.table.specs.WellFormed.{Sound, WellFormed, well_formed};
ghost use Rattle.index.specs.Index.{vacant, index_of, Indexed};
ghost use Rattle.index.specs.InnerEntries.{Enterable, Entered, Made};

use super::{entries, lookup, order};
use table::session;
use table::session::{Record, SIZE};

// The entry of a place is taken out, if its record is used: that record is to be freed.
fn leave(table: &[u8], index: &mut [u8], place: usize)
    requires { (place < places table.now) × Indexed table.now index.old }
    ensures { Indexed (with_record table.now (Some place) freed) index.new }
{
    if !order::is_used(table, place) {
        return;
    }
    let record = session::read(table, place);
    let at = lookup::rank(table, index, &record.iv);
    entries::close(&mut index[2 * at..]);
}

// An entry is made for a used record's place.
fn enter(table: &[u8], index: &mut [u8], place: usize)
    requires { Enterable (records table.now) index.old place }
    ensures { Entered (records table.now) index.old index.new place }
{
    let record = session::read(table, place);
    let at = lookup::rank(table, index, &record.iv);
    entries::open(&mut index[2 * at..], place);
}

// The record at a place is free afterwards.
pub fn free(table: &mut [u8], index: &mut [u8], place: Option<usize>)
    requires { Within (places table.old) place × Indexed table.old index.old }
    ensures { (table.new ≡ with_record table.old place freed) × Indexed table.new index.new }
{
    if let Some(at) = place {
        leave(table, index, at);
        session::store(table, at, session::freed());
    }
}

// The record takes a place of the table, whatever stood there.
pub fn take(table: &mut [u8], index: &mut [u8], place: usize, record: Record)
    requires { (place < places table.old) × Indexed table.old index.old × («record».used ≡ 1) × Sound «record» × (found (records table.old) «record».iv ≡ None) }
    ensures { (table.new ≡ with_record table.old (Some place) «record») × Indexed table.new index.new }
{
    free(table, index, Some(place));
    session::store(table, place, record);
    enter(table, index, place);
}

// The next place, where its record is used, is put among those before it.
fn enter_next(table: &[u8], index: &mut [u8], place: usize)
    requires { Made (records table.now) place index.old × WellFormed (records table.now) × (place < places table.now) }
    ensures { Made (records table.now) (place + 1) index.new }
{
    if order::is_used(table, place) {
        enter(table, index, place);
    }
}

// The index that fits a well-formed table, whatever stood in it.
pub fn make(table: &[u8], index: &mut [u8])
    requires { (places table.now ≤ vacant) × (length index.old ≡ 2 * places table.now) × (well_formed (records table.now) ≡ true) }
    ensures { index.new ≡ index_of (records table.now) }
{
    index.fill(255);
    for place in 0..table.len() / SIZE {
        enter_next(table, index, place);
    }
}
