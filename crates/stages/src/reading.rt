// Reading a request: checks 4 to 8.
ghost use Rattle.std.specs.Prelude.{◌≡◌, true, OnOk};
ghost use Rattle.armor.specs.Value.{carried};
ghost use Rattle.armor.specs.Fields.{request_fields};
ghost use Rattle.armor.specs.InnerAnswers.{Holds, Lies};
ghost use Rattle.stages.specs.InnerStages.{CoveredNotes, CoversIs, ReadIs};

use super::refusal::Refusal;
use armor::{Fields, Request};
use lines::noting::Notes;
use lines::{Blocks, noting};
use names::KnownNames;
use names::token::is_token;
use orders::Ordered;

// What the value carries, its byte fields apart, and the notes on the covered names.
// Kept: value, method and blocks by themselves: a struct of them is gate's Asked, which stands above this crate; fields and notes are lent for the stack.
pub fn read(
    known: &KnownNames,
    ordered: &Ordered,
    value: &[u8],
    method: &[u8],
    blocks: &Blocks,
    fields: &mut Fields,
    notes: &mut Notes,
) -> Result<Request, Refusal>
    ensures told { ReadIs ordered.now value.now method.now blocks.now.head.now blocks.now.aside.now fields.new result }
    ensures noted { OnOk result (CoveredNotes ordered.now.covered blocks.now.head.now blocks.now.aside.now notes.new) }
{
    let request = armor::read_request(value, fields)?;
    compare(
        known, ordered, value, &request, fields, method, blocks, notes,
    )?;
    Ok(request)
}

// Checks 6 to 8, and the notes: all three are made before one is told (docs/DECISIONS.md, K10).
// Kept: what read takes, and the request: a struct would be made for this call alone.
fn compare(
    known: &KnownNames,
    ordered: &Ordered,
    value: &[u8],
    request: &Request,
    fields: &Fields,
    method: &[u8],
    blocks: &Blocks,
    notes: &mut Notes,
) -> Result<(), Refusal>
    requires { (request_fields (carried value.now) ≡ true) × Holds value.now (carried value.now) request.now × Lies (carried value.now) fields.now }
    ensures told { CoversIs ordered.now value.now method.now blocks.now.head.now blocks.now.aside.now result }
    ensures noted { OnOk result (CoveredNotes ordered.now.covered blocks.now.head.now blocks.now.aside.now notes.new) }
{
    let noted = noting::note(known, &ordered.covered, blocks, notes);
    let same = coverage::as_ordered(
        value,
        request,
        fields.c.as_slice(),
        ordered.hashes,
        ordered.covered.mask,
        ordered.covered.extra,
    );
    if !is_token(method) {
        Err(Refusal::BadLines)
    } else if let Err(unnoted) = noted {
        Err(Refusal::from(unnoted))
    } else if !same {
        Err(Refusal::NotAsOrdered)
    } else {
        Ok(())
    }
}
