// Numbers in decimal.
ghost use Rattle.std.specs.Prelude.{◌≡◌};
ghost use Rattle.cells.specs.InnerRun.{run_of};
ghost use Rattle.cells.specs.Decimal.{decimal};

use crate::run::Run;

// The decimal digits of a number.
// Kept: a while from the last digit on: where the first one stands shows only as they are made, and there is no heap for a text.
pub fn digits(n: u64) -> Run<20>
    ensures { run_of result ≡ decimal n }
{
    let mut all = [b'0'; 20];
    let mut start = 19;
    let mut left = n;
    while 10 <= left {
        all[start] = b'0' + (left % 10) as u8;
        left /= 10;
        start -= 1;
    }
    all[start] = b'0' + left as u8;
    Run::of(&all[start..])
}
