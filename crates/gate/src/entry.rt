// What calls look at in the state that they are lent: checks 3 and 22.
ghost use Rattle.std.specs.Prelude.{◌≡◌, true};
ghost use Rattle.stages.specs.Checks.{first};
ghost use Rattle.stages.specs.InnerRefusals.{number_in};
ghost use Rattle.gate.specs.State.{holding};
ghost use Rattle.gate.specs.Sizes.{state_fits};
ghost use Rattle.gate.specs.Entry.{state_checks};

use stages::refusal::Refusal;
use table::rule;

// Whether a table is well formed and its index fits it: checks 3 and 22. Records are compared with each other only where the index does not fit:
// to tell 3 from 22.
// Kept: table and index side by side: the C interface lends both; a type of the two would be one to read and one to write, and state_fits would stand in each.
pub fn state(table: &[u8], index: &[u8]) -> Result<(), Refusal>
    requires { state_fits (holding table.now index.now) ≡ true }
    ensures { number_in result ≡ first (state_checks (holding table.now index.now)) }
{
    if index::rule::fits(table, index) {
        return Ok(());
    }
    if rule::well_formed(table) {
        return Err(Refusal::BadIndex);
    }
    Err(Refusal::BadTable)
}
