// Reading a netstring at the front of a run.
ghost use Rattle.std.specs.Prelude.{MatchOption};
ghost use Rattle.netstring.specs.InnerReading.{LengthAt, NoLength, PartAt, NoPart};

// The length in decimal at the front of a run, without leading zeros, and what stands after the colon behind it.
fn length(run: &[u8]) -> Option<(usize, &[u8])>
    ensures { MatchOption result (NoLength run.now) (λ p. LengthAt run.now p.0 p.1.now) }
{
    if run.starts_with(b"0") {
        return Some((0, run.strip_prefix(b"0:")?));
    }
    let mut value: usize = 0;
    for (i, b) in run.iter().enumerate() {
        match *b {
            b':' if 0 < i => return Some((value, &run[i + 1..])),
            b'0'..=b'9' => {
                if run.len() / 10 < value {
                    return None;
                }
                value = value * 10 + usize::from(*b - b'0');
            }
            _ => return None,
        }
    }
    None
}

// The bytes whose netstring a run begins with, and what stands after it. A length with leading zeros or past the run's end, and a
// missing colon or comma, are no netstring.
pub fn read(run: &[u8]) -> Option<(&[u8], &[u8])>
    ensures { MatchOption result (NoPart run.now) (λ p. PartAt run.now p.0.now p.1.now) }
{
    let (size, contents) = length(run)?;
    let (part, rest) = contents.split_at_checked(size)?;
    Some((part, rest.strip_prefix(b",")?))
}
