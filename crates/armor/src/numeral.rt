// Numbers and masks as bytes.
ghost use Rattle.std.specs.Prelude.{◌≡◌, ◌+◌, ◌≤◌, length};
ghost use Rattle.cells.specs.InnerRun.{run_of};
ghost use Rattle.cells.specs.Numbers.{number};
ghost use Rattle.armor.specs.Numerals.{shortest, plain, number_bytes, is_numeral, mask_bytes};

use cells::Run;

// A run without its leading zero bytes; the last byte stays.
fn shortest(run: &[u8]) -> &[u8]
    requires { 1 ≤ length run.now }
    ensures is { result.now ≡ shortest run.now }
    ensures within { length result.now ≤ length run.now }
{
    let zeros = cells::end(&run[..run.len() - 1], 0, |b| b == 0);
    &run[zeros..]
}

// A number as its bytes.
pub fn number_bytes(n: u32) -> Run<4>
    ensures { run_of result ≡ number_bytes n }
{
    Run::of(shortest(&n.to_be_bytes()))
}

// A mask as its bytes.
pub fn mask_bytes(m: u64) -> Run<9>
    ensures { run_of result ≡ mask_bytes m }
{
    let eight = m.to_be_bytes();
    let number = shortest(&eight);
    let len = number.len();
    let mut bytes = [0; 9];
    bytes[0] = len as u8;
    cells::put_at(&mut bytes, 1, number);
    Run::of(&bytes[..len + 1])
}

// Whether a run has no leading zero byte, or is one byte.
fn is_plain(bytes: &[u8]) -> bool
    ensures { result ≡ plain bytes.now }
{
    bytes.len() < 2 || bytes[0] != 0
}

// Whether a run is the bytes of a number, of which there are 1 to most.
pub fn is_numeral(bytes: &[u8], most: usize) -> bool
    ensures { result ≡ is_numeral most bytes.now }
{
    let len = bytes.len();
    (1 <= len) & ((len <= most) & is_plain(bytes))
}

// The number of at most eight bytes.
pub fn number_of(bytes: &[u8]) -> u64
    requires { length bytes.now ≤ 8 }
    ensures { result ≡ number bytes.now }
{
    let mut eight = [0u8; 8];
    cells::put_at(&mut eight, 8 - bytes.len(), bytes);
    cells::load64(&eight, 0)
}

// The number of at most four bytes.
pub fn number32(bytes: &[u8]) -> u32
    requires { length bytes.now ≤ 4 }
    ensures { result ≡ number bytes.now }
{
    number_of(bytes) as u32
}
