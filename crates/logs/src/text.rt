// The text that is printed of the counts.
ghost use Rattle.std.specs.Prelude.{◌≡◌, ◌+◌, ◌^◌, ◌≤◌, ◌<◌, length, sum};
ghost use Rattle.cells.specs.InnerLaid.{Laid};
ghost use Rattle.logs.specs.Counts as C;
ghost use Rattle.logs.specs.Printed as P;
ghost use Rattle.logs.specs.Printed.{printed};

use cells::decimal;

// The longest text: header, 500 statuses, unread and total, each number of 20 digits.
pub const TEXT_SIZE: usize = 12568;

// Writes the text to the front of out; how long it is.
pub fn print(counts: &[u64; 600], out: &mut [u8; TEXT_SIZE]) -> usize
    requires { C.sum counts.now < 2 ^ 64 }
    ensures { (result ≤ length out.new) × Laid out.old out.new 0 result (printed counts.now) }
{
    let mut at = cells::put_at(out, 0, b"status lines\n");
    // Kept: a range, since s is the status that is printed.
    for s in 100..600 {
        at = status_row(out, at, s, counts[s]);
    }
    let after_unread = row(out, at, b"unread", counts[0]);
    row(out, after_unread, b"total", total(counts))
}

// The row of a status from byte at of out on, if lines go under it, and the place after it.
fn status_row(out: &mut [u8], at: usize, s: usize, n: u64) -> usize
    requires { (s < 600) × (at + 25 ≤ length out.old) }
    ensures { (result ≤ at + 25) × Laid out.old out.new at result (P.status_row s n) }
{
    if n == 0 {
        return at;
    }
    row(out, at, decimal::digits(s as u64).as_slice(), n)
}

// A row from byte at of out on, and the place after it.
fn row(out: &mut [u8], at: usize, name: &[u8], n: u64) -> usize
    requires { at + length name.now + 22 ≤ length out.old }
    ensures { (result ≤ at + length name.now + 22) × Laid out.old out.new at result (P.row name.now n) }
{
    let after_name = cells::put_at(out, at, name);
    let number = cells::put_at(out, after_name, b" ");
    let end = cells::put_at(out, number, decimal::digits(n).as_slice());
    cells::put_at(out, end, b"\n")
}

fn total(counts: &[u64]) -> u64
    requires { sum counts.now < 2 ^ 64 }
    ensures { result ≡ sum counts.now }
{
    counts.iter().sum()
}
