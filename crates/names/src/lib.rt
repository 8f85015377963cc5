// Names of header fields: the 55 of the mask, whether two are the same, and going through those of a run.
#![tactic(auto)]

ghost use Rattle.std.specs.Prelude.{◌≡◌, ◌≤◌, length};
ghost use Rattle.cells.specs.Spans.{Spans};
ghost use Rattle.names.specs.Names.{same_name, has_name};
ghost use Rattle.names.specs.InnerWalk.{no_comma, names_from};

mod covered;
mod each;
pub mod extra;
mod mask;
pub mod sheet;
pub mod token;

pub use covered::Covered;
pub use each::Names;
pub use mask::{KnownNames, known};

// Where the name that starts at byte at ends.
// Kept: a run and an index within it, as cells::end takes them; a type of the two is no plainer, since each is used alone too.
pub fn name_end(run: &[u8], at: usize) -> usize
    requires { at ≤ length run.now }
    ensures { Spans no_comma run.now at result }
{
    cells::end(run, at, |b| b != b',')
}

// Whether name is one of the names of run from the one that starts at byte at on.
pub fn has_name(run: &[u8], at: usize, name: &[u8]) -> bool
    ensures { result ≡ has_name (names_from run.now at) name.now }
{
    Names::from_byte(run, at).have(name)
}

// Whether two names are the same without regard to ASCII case.
pub fn same_name(a: &[u8], b: &[u8]) -> bool
    ensures { result ≡ same_name a.now b.now }
{
    a.eq_ignore_ascii_case(b)
}
