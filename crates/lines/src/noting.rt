// Going through the lines of a block once: whether they are lines, and where each covered name stands.
ghost use Rattle.std.specs.Prelude.{◌≡◌, ◌≤◌, ◌<◌, length};
ghost use Rattle.names.specs.Covered.{covered_names};
ghost use Rattle.names.specs.InnerSheet.{Entered};
ghost use Rattle.lines.specs.InnerNotes.{marked, NotesTaken, Counted, RepeatsIs, NotedIs};

pub use super::remarks::Notes;
use super::{Blocks, line_at};
use names::sheet::Sheet;
use names::{Covered, KnownNames};

// Why the lines of a request are refused.
#[derive(Clone, Copy, PartialEq, Eq, Drop)]
pub enum Unnoted {
    NotLines,
    // A covered name that is no list field stands twice in a block.
    Twice,
}

// The notes on the covered names in both blocks.
// Kept: the notes are lent and not the answer: a copy would add its bytes to the stack, on which gate has a bound.
pub fn note(
    known: &KnownNames,
    covered: &Covered,
    blocks: &Blocks,
    notes: &mut Notes,
) -> Result<(), Unnoted>
    ensures count { notes.new.count ≡ length (covered_names covered.now.mask covered.now.extra.now) }
    ensures told { NotedIs (covered_names covered.now.mask covered.now.extra.now) blocks.now.head.now blocks.now.aside.now notes.new result }
{
    let sheet = Sheet::of(known, covered);
    notes.count = sheet.count;
    let head_good = note_block(&sheet, blocks.head, &mut notes.head);
    let aside_good = note_block(&sheet, blocks.aside, &mut notes.aside);
    if !(head_good & aside_good) {
        return Err(Unnoted::NotLines);
    }
    if repeats(&sheet, &notes.head) | repeats(&sheet, &notes.aside) {
        return Err(Unnoted::Twice);
    }
    Ok(())
}

fn note_block(sheet: &Sheet, block: &[u8], notes: &mut [u16; 64]) -> bool
    requires { Entered sheet.now.known.now sheet.now.extra.now sheet.now.entries × (length block.now ≤ 16384) }
    ensures size { length notes.new ≡ 64 }
    ensures taken { NotesTaken sheet.now.known.now sheet.now.extra.now sheet.now.entries block.now notes.new result }
{
    *notes = [0; 64];
    let mut at = 0;
    while let Some(line) = line_at(block, at) {
        if let Some(number) = sheet.number(&block[at..line.colon]) {
            notes[number] = marked(notes[number], at);
        }
        at = line.end + 2;
    }
    at == block.len()
}

// A note when the name stands on the line at byte at too.
fn marked(note: u16, at: usize) -> u16
    requires { at < 16384 }
    ensures { result ≡ marked note at }
{
    match note {
        0 => at as u16 + 1,
        1..=32767 => note + 32768,
        _ => note,
    }
}

// Whether a name on the sheet that is no list field stands on several lines.
fn repeats(sheet: &Sheet, notes: &[u16; 64]) -> bool
    requires { Counted sheet.now.known.now sheet.now.extra.now sheet.now.entries sheet.now.count }
    ensures { RepeatsIs sheet.now.known.now sheet.now.extra.now sheet.now.entries notes.now sheet.now.count result }
{
    // Kept: a range, since a name's number is asked of the sheet as of the notes.
    for i in 0..sheet.count {
        if (32768 <= notes[i]) && sheet.single(i) {
            return true;
        }
    }
    false
}
