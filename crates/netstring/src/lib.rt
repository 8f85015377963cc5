// Netstrings: the length in decimal, a colon, the bytes, and a comma.
#![tactic(auto)]

ghost use Rattle.std.specs.Prelude.{◌≡◌, ◌+◌, ◌≤◌, length};
ghost use Rattle.cells.specs.InnerLaid.{Laid};
ghost use Rattle.cells.specs.InnerRun.{run_of};
ghost use Rattle.netstring.specs.Netstring.{netstring};
ghost use Rattle.netstring.specs.InnerOpening.{opening};

use cells::{Run, decimal};

mod reading;

pub use reading::read;

// What stands before the contents: their length in decimal, and a colon.
pub fn opening(size: usize) -> Run<21>
    ensures { run_of result ≡ opening size }
{
    let digits = decimal::digits(size as u64);
    let mut all = [b':'; 21];
    cells::put_front(&mut all, digits.as_slice());
    Run::of(&all[..digits.len() + 1])
}

// The netstring of a part, from byte at of the buffer on, and the place after it.
pub fn write(part: &[u8], out: &mut [u8], at: usize) -> usize
    requires { at + length (netstring part.now) ≤ length out.old }
    ensures { Laid out.old out.new at result (netstring part.now) }
{
    let contents = cells::put_at(out, at, opening(part.len()).as_slice());
    let end = cells::put_at(out, contents, part);
    cells::put_at(out, end, b",")
}
