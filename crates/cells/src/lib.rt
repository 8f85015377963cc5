// Byte runs: numbers in them, parts of them written over, tests of their bytes, and whether two are the same.
#![tactic(auto)]

ghost use Rattle.std.specs.Prelude.{◌≡◌, Bool, ℕ, ◌+◌, ◌≤◌, ◌<◌, length};
ghost use Rattle.cells.specs.Runs as R;
ghost use Rattle.cells.specs.Runs.{spliced, fronted, part};
ghost use Rattle.cells.specs.InnerLaid.{Laid};
ghost use Rattle.cells.specs.Numbers.{bytes_of, number};
ghost use Rattle.cells.specs.Spans.{all, Spans};

pub mod decimal;
mod run;

pub use run::Run;

// The number of four bytes of s from byte at on.
// Kept: two loads and two puts, one for each width: std has a conversion for each type, and a trait of ours over the two would be longer.
pub fn load32(s: &[u8], at: usize) -> u32
    requires { at + 4 ≤ length s.now }
    ensures { result ≡ number (part s.now at 4) }
{
    u32::from_be_bytes([s[at], s[at + 1], s[at + 2], s[at + 3]])
}

// The number of eight bytes of s from byte at on.
pub fn load64(s: &[u8], at: usize) -> u64
    requires { at + 8 ≤ length s.now }
    ensures { result ≡ number (part s.now at 8) }
{
    u64::from_be_bytes([
        s[at],
        s[at + 1],
        s[at + 2],
        s[at + 3],
        s[at + 4],
        s[at + 5],
        s[at + 6],
        s[at + 7],
    ])
}

// x as four bytes from byte at of out on.
pub fn put32(out: &mut [u8], at: usize, x: u32)
    requires { at + 4 ≤ length out.old }
    ensures { out.new ≡ spliced out.old at (bytes_of 4 x) }
{
    put_at(out, at, &x.to_be_bytes());
}

// x as eight bytes from byte at of out on.
pub fn put64(out: &mut [u8], at: usize, x: u64)
    requires { at + 8 ≤ length out.old }
    ensures { out.new ≡ spliced out.old at (bytes_of 8 x) }
{
    put_at(out, at, &x.to_be_bytes());
}

// src at the front of out; the bytes after it stay.
// Kept: a loop and not copy_from_slice, of which the compiler makes memmove: the archives for C need memcpy for it, as they did.
pub fn put_front(out: &mut [u8], src: &[u8])
    requires { length src.now ≤ length out.old }
    ensures { out.new ≡ fronted src.now out.old }
{
    for (i, b) in src.iter().enumerate() {
        out[i] = *b;
    }
}

// src from byte at of out on, and the place after it; every other byte stays.
// Kept: a buffer and a place in it, and the place after as the answer: there is no heap, and parts are laid side by side by one law (Laid).
pub fn put_at(out: &mut [u8], at: usize, src: &[u8]) -> usize
    requires { at + length src.now ≤ length out.old }
    ensures { Laid out.old out.new at result src.now }
{
    let end = at + src.len();
    put_front(&mut out[at..end], src);
    end
}

// Whether each byte of a run passes. Each is looked at, so that the compiler can look at many at once.
// Kept: not Iterator::all, which stops at the first byte that fails, so that the compiler could not look at many at once.
pub fn all<F: Fn(u8) -> bool>(run: &[u8], passes: F) -> bool
    requires { F.IsAlwaysCallable passes }
    ensures { (p : ℕ → Bool) → ((b : ℕ) (r : Bool) → b < 256 → F.post passes b r → r ≡ p b) → result ≡ all p run.now }
{
    let mut good = true;
    for b in run {
        good &= passes(*b);
    }
    good
}

// Where the bytes that pass end that start at byte at.
// Kept: a range and not position, since the place is one of the whole run; that at is within the run is what an index of a slice asks.
pub fn end<F: Fn(u8) -> bool>(run: &[u8], at: usize, passes: F) -> usize
    requires callable { F.IsAlwaysCallable passes }
    requires within { at ≤ length run.now }
    ensures { (p : ℕ → Bool) → ((b : ℕ) (r : Bool) → b < 256 → F.post passes b r → r ≡ p b) → Spans p run.now at result }
{
    for i in at..run.len() {
        if !passes(run[i]) {
            return i;
        }
    }
    run.len()
}

// The same of a run of which most bytes pass: the compiler looks at sixteen at once.
// Kept: beside end, which goes byte by byte: short runs lose by sixteens, and long ones gain (docs/SPEED.md).
pub fn end_by_sixteens<F: Fn(u8) -> bool + Copy>(run: &[u8], at: usize, passes: F) -> usize
    requires callable { F.IsAlwaysCallable passes }
    requires within { at ≤ length run.now }
    ensures { (p : ℕ → Bool) → ((b : ℕ) (r : Bool) → b < 256 → F.post passes b r → r ≡ p b) → Spans p run.now at result }
{
    let mut i = at;
    for sixteen in run[at..].chunks_exact(16) {
        if !all(sixteen, passes) {
            break;
        }
        i += 16;
    }
    end(run, i, passes)
}

// Whether two runs are the same. Of runs of one length every byte is looked at, whatever the others are.
// Kept: not ==, which may stop at the first difference; an index and not zip: tried, and the check did not see which bytes a turn of a zip has.
pub fn same(a: &[u8], b: &[u8]) -> bool
    ensures { result ≡ R.same a.now b.now }
{
    if a.len() != b.len() {
        return false;
    }
    let mut differences = 0;
    for (i, x) in a.iter().enumerate() {
        differences |= x ^ b[i];
    }
    differences == 0
}
