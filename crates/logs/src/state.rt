// The counts of a log that arrives in parts.
ghost use Rattle.std.specs.Prelude.{◌≡◌, List, [], ◌∷◌, true, ℕ, ◌+◌, ◌^◌, ◌<◌, length};
ghost use Rattle.cells.specs.Spans.{all};
ghost use Rattle.logs.specs.Line.{other};
ghost use Rattle.logs.specs.Counts.{LF, lines, counts, sum};
ghost use Rattle.logs.specs.Taken.{Holds, TookIn};
ghost use Rattle.logs.specs.InnerLines.{counted, LinesCounted};

use crate::line::status;
use crate::search::find;

// The counts by status of the lines that have ended, those unread at 0, and the line that is begun: its bytes, and how many they are. It is
// unread where they are more than 8,192; then size is 8,193.
// Kept: an array and a size, not a cells::Run: a line grows by parts, and a Run would be made anew for each of them. 8,193 and not None, and unread
// at 0: Holds (specs/Taken.antt) and counts (specs/Counts.antt) say so.
#[derive(Clone, Copy)]
pub struct State {
    pub counts: [u64; 600],
    pub begun: [u8; 8192],
    pub size: usize,
}

impl State {
    // The state that has taken in nothing.
    pub fn new() -> State
        ensures { (sum result.counts ≡ 0) × Holds result [] }
    {
        State {
            counts: [0; 600],
            begun: [0; 8192],
            size: 0,
        }
    }

    // Takes in part too.
    pub fn take_in(&mut self, part: &[u8])
        requires { sum self.old.counts + length part.now < 2 ^ 64 }
        ensures { TookIn self.old part.now self.new }
    {
        let end = find(part, 0, b'\n');
        self.keep(&part[..end]);
        if end < part.len() {
            self.end_line();
            self.whole(&part[end + 1..]);
        }
    }

    // The counts of all that was taken in.
    pub fn finish(mut self) -> [u64; 600]
        requires { sum self.counts + 1 < 2 ^ 64 }
        ensures { ((text : List ℕ) → Holds self text → result ≡ counts (lines text)) × (sum result < 2 ^ 64) }
    {
        if self.size > 0 {
            self.end_line();
        }
        self.counts
    }

    // No line ends in part.
    fn keep(&mut self, part: &[u8])
        requires { all (other LF) part.now ≡ true }
        ensures { TookIn self.old part.now self.new }
    {
        if self.size <= 8192 && part.len() <= 8192 - self.size {
            self.size = cells::put_at(&mut self.begun, self.size, part);
        } else {
            self.size = 8193;
        }
    }

    // A line feed comes: the line that is begun ends.
    fn end_line(&mut self)
        requires { sum self.old.counts + 1 < 2 ^ 64 }
        ensures { TookIn self.old (LF ∷ []) self.new × (self.new.size ≡ 0) }
    {
        if self.size <= 8192 {
            count(&mut self.counts, &self.begun[..self.size]);
        } else {
            self.counts[0] += 1;
        }
        self.size = 0;
    }

    // No line is begun: part's lines are counted where they lie.
    fn whole(&mut self, part: &[u8])
        requires { (self.old.size ≡ 0) × (sum self.old.counts + length part.now < 2 ^ 64) }
        ensures { TookIn self.old part.now self.new }
    {
        let at = count_lines(&mut self.counts, part);
        self.keep(&part[at..]);
    }
}

// Counts the lines that end in part; where the next one begins.
fn count_lines(counts: &mut [u64; 600], part: &[u8]) -> usize
    requires { sum counts.old + length part.now < 2 ^ 64 }
    ensures { LinesCounted counts.old part.now counts.new result }
{
    let mut at = 0;
    let mut end = find(part, 0, b'\n');
    // Kept: a while from line feed to line feed: split would give the line that is begun as one more part, and goes byte by byte, where find goes by sixteens.
    while end < part.len() {
        count(counts, &part[at..end]);
        at = end + 1;
        end = find(part, at, b'\n');
    }
    at
}

// Counts a line.
fn count(counts: &mut [u64; 600], line: &[u8])
    requires { sum counts.old + 1 < 2 ^ 64 }
    ensures { counts.new ≡ counted counts.old line.now }
{
    counts[status(line).unwrap_or(0)] += 1;
}
