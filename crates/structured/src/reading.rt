// What the texts of strings, lists and integers tell, whatever stands there.
ghost use Rattle.std.specs.Prelude.{◌≡◌, ◌≤◌, length, take, drop};
ghost use Rattle.cells.specs.Spans.{Spans};
ghost use Rattle.cells.specs.InnerLaid.{Laid};
ghost use Rattle.structured.specs.Reading.{unescaped, unlisted, IntegerIs, other, but_last};

// The bytes of a string, from what stands between its quotes, at the front of out, and how many they are.
// Kept: a place that is counted, here and in unlist: there is no heap to collect in, and the place after the last byte is the answer.
pub fn unescape(text: &[u8], out: &mut [u8]) -> usize
    requires { length text.now ≤ length out.old }
    ensures { Laid out.old out.new 0 result (unescaped text.now) }
{
    let mut end = 0;
    let mut after = false;
    for b in text {
        after = (*b == b'\\') & !after;
        if !after {
            out[end] = *b;
            end += 1;
        }
    }
    end
}

// The strings of a list joined by commas, from what stands in it, at the front of out, and how many bytes they are.
pub fn unlist(text: &[u8], out: &mut [u8]) -> usize
    requires { length text.now ≤ length out.old }
    ensures { Laid out.old out.new 0 result (unlisted text.now) }
{
    let mut end = 0;
    for b in text {
        if *b != b'"' {
            out[end] = if *b == b' ' { b',' } else { *b };
            end += 1;
        }
    }
    end
}

// How many digits an integer has at the front of a run, at most 15, and its value.
#[derive(Clone, Copy)]
pub struct Integer {
    pub digits: usize,
    pub value: u64,
}

// Kept: beside the digits of token and netstring: an integer ends at 15 digits here, is any bytes there, and grows by checked steps there.
pub fn read_integer(run: &[u8]) -> Integer
    ensures { IntegerIs run.now result }
{
    let first = front(run, 15);
    let digits = cells::end(first, 0, |b| (b'0' <= b) & (b <= b'9'));
    let mut value = 0;
    for b in &first[..digits] {
        value = value * 10 + (*b - b'0') as u64;
    }
    Integer { digits, value }
}

// Where the first byte b of a run stands, or the run's end.
pub fn end_before(b: u8, run: &[u8]) -> usize
    ensures { Spans (other b) run.now 0 result }
{
    cells::end(run, 0, |c| c != b)
}

// The run without its first n bytes.
pub fn past(run: &[u8], n: usize) -> &[u8]
    ensures { result.now ≡ drop n run.now }
{
    run.get(n..).unwrap_or(&[])
}

// The first n bytes of a run, or all.
pub fn front(run: &[u8], n: usize) -> &[u8]
    ensures { result.now ≡ take n run.now }
{
    run.get(..n).unwrap_or(run)
}

// The run without its last byte.
pub fn but_last(run: &[u8]) -> &[u8]
    ensures { result.now ≡ but_last run.now }
{
    match run.split_last() {
        Some((_, front)) => front,
        None => run,
    }
}
