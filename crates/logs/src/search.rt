// A search for a byte.
ghost use Rattle.std.specs.Prelude.{◌≤◌, length};
ghost use Rattle.cells.specs.Spans.{Spans};
ghost use Rattle.logs.specs.Line.{other};

// Where the first b from byte at on stands, or the end.
// Kept: a run and a place in it, as cells::end_by_sixteens takes them.
pub fn find(run: &[u8], at: usize, b: u8) -> usize
    requires { at ≤ length run.now }
    ensures { Spans (other b) run.now at result }
{
    cells::end_by_sixteens(run, at, |x| x != b)
}
