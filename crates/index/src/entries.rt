// The entries of an index: two bytes each, highest byte first.
ghost use Rattle.std.specs.Prelude.{◌≡◌, [], ◌∷◌, ◌++◌, ◌+◌, ◌-◌, ◌*◌, ◌≤◌, ◌<◌, length, take, drop};
ghost use Rattle.cells.specs.Numbers.{bytes_of};
ghost use Rattle.index.specs.InnerEntries.{entry_at};

// The place that an entry names; a vacant one names none that there is.
pub fn place_of(entry: [u8; 2]) -> usize
    ensures { result ≡ entry_at entry 0 }
{
    usize::from(u16::from_be_bytes(entry))
}

// That of entry k.
pub fn read(index: &[u8], k: usize) -> usize
    requires { 2 * k + 2 ≤ length index.now }
    ensures { result ≡ entry_at index.now k }
{
    place_of([index[2 * k], index[2 * k + 1]])
}

// An entry at the front of some; the others move up by one, and the last is lost.
pub fn open(run: &mut [u8], entry: usize)
    requires { (2 ≤ length run.old) × (entry < 65536) }
    ensures { run.new ≡ bytes_of 2 entry ++ take (length run.old - 2) run.old }
{
    run.copy_within(..run.len() - 2, 2);
    run[..2].copy_from_slice(&(entry as u16).to_be_bytes());
}

// The first of some entries goes; the others move down by one, and the last is vacant.
pub fn close(run: &mut [u8])
    requires { 2 ≤ length run.old }
    ensures { run.new ≡ drop 2 run.old ++ 255 ∷ 255 ∷ [] }
{
    run.copy_within(2.., 0);
    let end = run.len() - 2;
    run[end..].fill(255);
}
