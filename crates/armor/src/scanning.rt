// The grammar of a value, piece by piece.
ghost use Rattle.std.specs.Prelude.{◌≡◌, ◌≤◌, ◌<◌, length};
ghost use Rattle.armor.specs.InnerTallies.{IsIn};
ghost use Rattle.armor.specs.InnerScan.{place, Ends, PieceIs, tally_in, count_in, text_in, NoneSeen, OneMore, Scanned};

use super::Span;
use super::key::{self, Key};
use super::seen::Seen;
use super::tally::{self, Tally};

impl<'a> Seen<'a> {
    fn none(value: &'a [u8]) -> Seen<'a>
        ensures { NoneSeen value.now result }
    {
        Seen {
            value,
            tallies: [Tally {
                count: 0,
                text: Span { start: 0, end: 0 },
            }; 12],
            total: 0,
        }
    }

    pub fn tally(&self, key: Key) -> Tally
        ensures { result ≡ tally_in self.now (place key) }
    {
        self.tallies[key as usize]
    }

    pub fn count(&self, key: Key) -> u8
        ensures { result ≡ count_in self.now (place key) }
    {
        self.tally(key).count
    }

    // The text of a key's last field.
    pub fn text(&self, key: Key) -> &'a [u8]
        ensures { result.now ≡ text_in self.now (place key) }
    {
        let text = self.tally(key).text;
        &self.value[text.start..text.end]
    }

    // One field more.
    fn note(&mut self, key: Key, text: Span)
        requires { IsIn self.old.value.now text }
        ensures { OneMore self.old (place key) text self.new }
    {
        let count = tally::more(self.count(key));
        self.tallies[key as usize] = Tally { count, text };
        self.total = tally::more(self.total);
    }
}

// The key of a piece, and where its text starts.
#[derive(Clone, Copy)]
struct Piece {
    key: Key,
    start: usize,
}

fn read_piece(text: &[u8]) -> Option<Piece>
    ensures { PieceIs text.now result }
{
    let colon = cells::end(text, 0, |b| b != b':');
    let start = text.len().min(colon + 1);
    let key = key::named(&text[..colon]);
    let good = (1 <= colon) & key::is_good(&text[start..], key);
    if !good {
        return None;
    }
    Some(Piece { key, start })
}

// Where the piece that starts at byte at ends.
fn piece_end(value: &[u8], at: usize) -> usize
    requires { at < length value.now }
    ensures { Ends value.now at result }
{
    cells::end(value, at, |b| b != b';')
}

// What the fields of a value are, if it keeps its grammar.
// Kept: a walk by places, and not over the parts that split gives, which don't say where they stand: a text's place goes into its Span.
pub fn scan_value(value: &[u8]) -> Option<Seen<'_>>
    ensures { Scanned value.now result }
{
    if value.is_empty() {
        return None;
    }
    let mut seen = Seen::none(value);
    let mut at = 0;
    while at < value.len() {
        let end = piece_end(value, at);
        let piece = read_piece(&value[at..end])?;
        seen.note(
            piece.key,
            Span {
                start: at + piece.start,
                end,
            },
        );
        at = end + 1;
    }
    Some(seen)
}
