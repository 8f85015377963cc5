// Ending a session, and making an index anew.
ghost use Rattle.std.specs.Prelude.{◌≡◌, []};
ghost use Rattle.stages.specs.InnerRefusals.{number_in};
ghost use Rattle.gate.specs.State.{holding, outcome};
ghost use Rattle.gate.specs.End.{ended};
ghost use Rattle.gate.specs.Remake.{remade};

use super::{entry, sizes};
use index::{change, lookup};
use stages::refusal::Refusal;
use table::rule;

// Checks 1, 3, 22 and 12, and the record freed where none of them holds.
pub fn end(iv: &[u8], table: &mut [u8], index: &mut [u8]) -> Result<(), Refusal>
    ensures { outcome (number_in result) [] (holding table.new index.new) ≡ ended iv.now (holding table.old index.old) }
{
    let Some(iv) = sizes::ending(iv, table, index) else {
        return Err(Refusal::WrongSize);
    };
    entry::state(table, index)?;
    let place = lookup::find(table, index, iv);
    if place.is_none() {
        return Err(Refusal::NoSession);
    }
    change::free(table, index, place);
    Ok(())
}

// Checks 1 and 3, and the index made anew where neither holds.
pub fn remake(table: &[u8], index: &mut [u8]) -> Result<(), Refusal>
    ensures { outcome (number_in result) [] (holding table.now index.new) ≡ remade (holding table.now index.old) }
{
    if !sizes::state_fits(table, index) {
        return Err(Refusal::WrongSize);
    }
    if !rule::well_formed(table) {
        return Err(Refusal::BadTable);
    }
    change::make(table, index);
    Ok(())
}
