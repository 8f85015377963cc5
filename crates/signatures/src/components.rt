// The components of a message: whether a list of them can be signed, and their values.
ghost use Rattle.std.specs.Prelude.{◌≡◌, [], ◌∷◌, ◌≤◌, length};
ghost use Rattle.cells.specs.InnerLaid.{Laid};
ghost use Rattle.cells.specs.Spans.{all};
ghost use Rattle.names.specs.Extra.{extra_names as listed};
ghost use Rattle.lines.specs.Lines.{lines_in};
ghost use Rattle.lines.specs.Values.{values_in, joined};
ghost use Rattle.lines.specs.InnerPlaces.{Stands, own_at};
ghost use Rattle.signatures.specs.Components.{message_of, small, good_message, is_derived, is_component, all_components, values_of};
ghost use Rattle.signatures.specs.InnerAnswers.{message_in, ValueIs, LookedAt};

use super::message::Message;
use names::{Names, token};

// Whether method, authority, path and lines are what they are to be.
// Kept: what may not change: docs/CONTRACTS.md names good_message, which takes parts of any length, and a Message has short ones.
pub fn good_message(method: &[u8], authority: &[u8], path: &[u8], block: &[u8]) -> bool
    ensures { result ≡ good_message (message_of method.now authority.now path.now block.now) }
{
    token::is_token(method)
        & (structured::all_between(33, 126, authority)
            & (all_small(authority)
                & (structured::all_between(33, 126, path) & lines::good_block(block))))
}

fn all_small(run: &[u8]) -> bool
    ensures { result ≡ all small run.now }
{
    cells::all(run, |b| !((b'A' <= b) & (b <= b'Z')))
}

// Whether each name of a list is a component's.
pub fn all_components(names: &[u8]) -> bool
    ensures { result ≡ all_components (listed names.now) }
{
    Names::of(names).all(is_component)
}

fn is_component(name: &[u8]) -> bool
    ensures { result ≡ is_component name.now }
{
    is_derived(name) | (token::is_token(name) & all_small(name))
}

fn is_derived(name: &[u8]) -> bool
    ensures { result ≡ is_derived name.now }
{
    cells::same(b"@method", name) | (cells::same(b"@authority", name) | cells::same(b"@path", name))
}

// What is found of a list: whether the values are printable, whether a name stands twice, and whether the message lacks a component.
#[derive(Clone, Copy)]
pub struct Looked {
    pub printable: bool,
    pub twice: bool,
    pub missing: bool,
}

impl Message<'_> {
    pub fn look(&self, names: &[u8]) -> Looked
        ensures { LookedAt (message_in self.now) names.now result }
    {
        // A list of no names costs no buffer.
        if names.is_empty() {
            return Looked {
                printable: true,
                twice: false,
                missing: false,
            };
        }
        let mut printable = true;
        let mut twice = false;
        let mut missing = false;
        let mut buffer = [0; 16384];
        let mut left = Names::of(names);
        // Kept: a while let, since the names that are left are asked in the loop.
        while let Some(name) = left.next() {
            match self.put_value(name, &mut buffer) {
                Some(size) => printable &= structured::all_between(32, 126, &buffer[..size]),
                None => missing = true,
            }
            twice |= left.have(name);
        }
        Looked {
            printable,
            twice,
            missing,
        }
    }

    // How long a component's value is, which is put at the front of the buffer, if the message has that component.
    pub fn put_value(&self, name: &[u8], out: &mut [u8; 16384]) -> Option<usize>
        ensures { ValueIs (values_of (message_in self.now) name.now) out.new result }
    {
        if cells::same(b"@method", name) {
            return Some(cells::put_at(out, 0, self.method));
        }
        if cells::same(b"@authority", name) {
            return Some(cells::put_at(out, 0, self.authority));
        }
        if cells::same(b"@path", name) {
            return Some(cells::put_at(out, 0, self.path));
        }
        let place = lines::find(self.lines, 0, name)?;
        Some(put_joined(self.lines, place, out))
    }
}

// The value that the line at byte at and those after it that bear its name have together, at the front of out, and its length.
// Kept: a block and a place in it: see lines::again.
fn put_joined(block: &[u8], at: usize, out: &mut [u8]) -> usize
    requires { Stands block.now at × (length (joined (own_at block.now at)) ≤ length out.old) }
    ensures { Laid out.old out.new 0 result (joined (own_at block.now at)) }
{
    let mut end = 0;
    let mut place = at;
    loop {
        end = cells::put_at(out, end, lines::value_at(block, place));
        let Some(next) = lines::again(block, place) else {
            return end;
        };
        end = cells::put_at(out, end, b", ");
        place = next;
    }
}
