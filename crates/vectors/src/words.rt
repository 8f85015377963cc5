// The words of a line.
ghost use Rattle.std.specs.Prelude.{◌≤◌, ◌<◌, length, vec_len};

use std::alloc::{AllocError, Global};

// Bytes that the words of a line have at most. What follows is left out.
const MOST: usize = 49152;

#[derive(Drop)]
pub struct Words {
    bytes: Vec<u8>,
    // Where the last four begin among the bytes.
    // Kept: places and not four Vecs: a place is moved up as a word is begun, and no bytes are.
    starts: [usize; 4],
    ghost short: { vec_len bytes ≤ 49152 },
}

impl Words {
    // From a line's first comma on, each comma that stands where a byte could begin begins a word.
    pub fn of(alloc: Global, line: &[u8]) -> Result<Words, AllocError> {
        let mut bytes = Vec::new(alloc);
        let mut starts = [0; 4];
        let before = line.iter().take_while(|b| **b != b',').count();
        let mut rest = &line[before..];
        while let [high, low, ..] = rest {
            if bytes.len() >= MOST {
                break;
            }
            if *high == b',' {
                starts = [starts[1], starts[2], starts[3], bytes.len()];
                rest = &rest[1..];
            } else {
                bytes.push(16 * digit(*high) + digit(*low))?;
                rest = &rest[2..];
            }
        }
        Ok(Words { bytes, starts })
    }

    // Word i of the last four, which is empty where the line has fewer.
    pub fn get(&self, i: usize) -> &[u8]
        requires { i < 4 }
        ensures { length result.now ≤ 49152 }
    {
        let end = match self.starts.get(i + 1) {
            Some(next) => *next,
            None => self.bytes.len(),
        };
        self.bytes.get(self.starts[i]..end).unwrap_or(&[])
    }
}

// The value of a hexadecimal digit, and some number where b is none.
fn digit(b: u8) -> u8
    ensures { result < 16 }
{
    (b % 16 + 9 * (b / 64)) % 16
}
