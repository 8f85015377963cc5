// IVs compared from their first byte.
ghost use Rattle.std.specs.Prelude.{◌≡◌, ◌+◌, ◌≤◌, length};
ghost use Rattle.cells.specs.Runs.{part};
ghost use Rattle.cells.specs.Numbers.{number};
ghost use Rattle.table.specs.Table.{records};
ghost use Rattle.index.specs.InnerEntries.{used_at, low_at};

use table::session::SIZE;

// The IV that stands in some bytes from byte at on, as one number: two of them are compared sooner than twelve bytes.
// Kept: not the order of slices: a number is read once and kept for the next entry, which is compared sooner.
pub fn key_at(s: &[u8], at: usize) -> u128
    requires { at + 12 ≤ length s.now }
    ensures { result ≡ number (part s.now at 12) }
{
    u128::from(cells::load32(s, at)) * 0x1_0000_0000_0000_0000
        + u128::from(cells::load64(s, at + 4))
}

// Whether a used record stands at a place, which may be any number.
pub fn is_used(table: &[u8], place: usize) -> bool
    ensures { result ≡ used_at (records table.now) place }
{
    place < table.len() / SIZE && table[SIZE * place] == 1
}

// And whether its IV is lower than this.
pub fn is_low(table: &[u8], place: usize, iv: &[u8; 12]) -> bool
    ensures { result ≡ low_at (records table.now) iv.now place }
{
    is_used(table, place) && key_at(table, SIZE * place + 1) < key_at(iv, 0)
}
