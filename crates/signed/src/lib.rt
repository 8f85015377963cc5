// The code of a request: the HMAC of its signed text, which is never gathered, and how two codes are compared.
#![tactic(auto)]

ghost use Rattle.std.specs.Prelude.{◌≡◌, [], ◌∷◌, ◌+◌, ◌^◌, ◌<◌, length, take};
ghost use Rattle.cells.specs.Runs.{same};
ghost use Rattle.hashes.specs.Hashes.{digest_size};
ghost use Rattle.hmac.specs.Hmac.{hmac_of};
ghost use Rattle.armor.specs.Numerals.{number_bytes, mask_bytes};
ghost use Rattle.names.specs.Covered.{covered_names};
ghost use Rattle.lines.specs.Values.{joined};
ghost use Rattle.lines.specs.InnerPlaces.{Stands, own_at};
ghost use Rattle.lines.specs.InnerNotes.{PlaceIn, Placed, value_by, values_by, NotesOf};
ghost use Rattle.sha_2.specs.InnerTaken.{TookIn};
ghost use Rattle.signed.specs.SignedText.{carried, nonce_of, request_text};
ghost use Rattle.signed.specs.InnerStreamed.{Room, TookParts, opening_parts};

use hashes::Hash;
use lines::Blocks;
use lines::noting::Notes;
use names::Covered;
use sha_2::State;
use window::Nonce;
use window::time::Time;

mod brought;

pub use brought::Brought;

// The HMAC under the session key of a request's signed text, at the front.
// Kept: n, t and lt by themselves: the gate has them in a request, the scanner in a session and the clock.
pub fn code(
    key: &[u8],
    hash: Hash,
    covered: &Covered,
    n: Nonce,
    t: Time,
    lt: Time,
    brought: &Brought,
    notes: &Notes,
) -> [u8; 64]
    requires key { length key.now < 2 ^ 61 }
    requires notes { NotesOf (covered_names covered.now.mask covered.now.extra.now) brought.now.lines.head.now brought.now.lines.aside.now notes.now }
    ensures { take (digest_size hash) result ≡ hmac_of hash key.now (request_text brought.now.method.now hash covered.now.mask covered.now.extra.now n.0 t.0 lt.0 brought.now.lines.aside.now brought.now.lines.head.now brought.now.path.now brought.now.body.now) }
{
    let mut state = hmac::begin(hash, key);
    opening(&mut state, brought.method, hash, covered, n, t, lt);
    values(
        &mut state,
        &brought.lines,
        &notes.head[..notes.count],
        &notes.aside[..notes.count],
    );
    absorb(&mut state, brought.path);
    absorb(&mut state, brought.body);
    hmac::finish(key, &state)
}

// The method, h, ah, eah, n if carried, t and lt.
// Kept: what opening_parts (specs/InnerStreamed.antt) lists, in its order; n, t and lt as in code.
fn opening(
    state: &mut State,
    method: &[u8],
    hash: Hash,
    covered: &Covered,
    n: Nonce,
    t: Time,
    lt: Time,
)
    requires { Room state.old (opening_parts method.now hash covered.now.mask covered.now.extra.now n.0 t.0 lt.0) }
    ensures { TookParts state.old (opening_parts method.now hash covered.now.mask covered.now.extra.now n.0 t.0 lt.0) state.new }
{
    absorb(state, method);
    absorb_mask(state, hash.mask());
    absorb_mask(state, covered.mask);
    absorb(state, covered.extra);
    absorb_nonce(state, covered.mask, n);
    absorb_number(state, t.0);
    absorb_number(state, lt.0);
}

// Kept: beside absorb_number: a mask and a number have other bytes, and each is one line.
fn absorb_mask(state: &mut State, mask: u64)
    requires { Room state.old (mask_bytes mask ∷ []) }
    ensures { TookParts state.old (mask_bytes mask ∷ []) state.new }
{
    absorb(state, armor::mask_bytes(mask).as_slice());
}

fn absorb_number(state: &mut State, n: u32)
    requires { Room state.old (number_bytes n ∷ []) }
    ensures { TookParts state.old (number_bytes n ∷ []) state.new }
{
    absorb(state, armor::number_bytes(n).as_slice());
}

// The nonce, if bit 0 of the mask orders it.
fn absorb_nonce(state: &mut State, mask: u64, n: Nonce)
    requires { Room state.old (carried (nonce_of mask n.0)) }
    ensures { TookParts state.old (carried (nonce_of mask n.0)) state.new }
{
    if mask % 2 == 1 {
        absorb_number(state, n.0);
    }
}

// The covered values by rising bit, and then the extra ones.
fn values(state: &mut State, lines: &Blocks, in_head: &[u16], in_aside: &[u16])
    requires { (length in_head.now ≡ length in_aside.now) × Placed lines.now.head.now in_head.now × Placed lines.now.aside.now in_aside.now × Room state.old (values_by lines.now.aside.now lines.now.head.now in_head.now in_aside.now) }
    ensures { TookParts state.old (values_by lines.now.aside.now lines.now.head.now in_head.now in_aside.now) state.new }
{
    for (head, aside) in in_head.iter().zip(in_aside) {
        absorb_value(state, lines, *head, *aside);
    }
}

// The value of a covered name by the notes on it.
fn absorb_value(state: &mut State, lines: &Blocks, in_head: u16, in_aside: u16)
    requires { PlaceIn lines.now.head.now in_head × PlaceIn lines.now.aside.now in_aside × Room state.old (value_by lines.now.aside.now lines.now.head.now in_head in_aside ∷ []) }
    ensures { TookParts state.old (value_by lines.now.aside.now lines.now.head.now in_head in_aside ∷ []) state.new }
{
    if 32768 <= in_aside {
        return absorb_joined(state, lines.aside, lines::place_of(in_aside));
    }
    if (in_aside == 0) & (32768 <= in_head) {
        return absorb_joined(state, lines.head, lines::place_of(in_head));
    }
    absorb(
        state,
        lines::covered(lines.head, lines.aside, in_head, in_aside),
    );
}

// The netstring of the value that the line at byte at and those after it that bear its name have together. It stands nowhere as a whole.
// Kept: a block and a place in it, here and in the next: see lines::again.
fn absorb_joined(taken: &mut State, block: &[u8], at: usize)
    requires { Stands block.now at × Room taken.old (joined (own_at block.now at) ∷ []) }
    ensures { TookParts taken.old (joined (own_at block.now at) ∷ []) taken.new }
{
    taken.absorb(netstring::opening(lines::joined_size(block, at)).as_slice());
    absorb_lines(taken, block, at);
    taken.absorb(b",");
}

fn absorb_lines(state: &mut State, block: &[u8], at: usize)
    requires { Stands block.now at × (state.old.length + length (joined (own_at block.now at)) < 2 ^ 61) }
    ensures { TookIn state.old (joined (own_at block.now at)) state.new }
{
    state.absorb(lines::value_at(block, at));
    let mut place = at;
    while let Some(next) = lines::again(block, place) {
        state.absorb(b", ");
        state.absorb(lines::value_at(block, next));
        place = next;
    }
}

// The state takes in the netstring of a part too.
fn absorb(state: &mut State, part: &[u8])
    requires { Room state.old (part.now ∷ []) }
    ensures { TookParts state.old (part.now ∷ []) state.new }
{
    state.absorb(netstring::opening(part.len()).as_slice());
    state.absorb(part);
    state.absorb(b",");
}

// Whether c is a code under the hash: every byte is looked at, whatever the others are.
pub fn same_code(c: &[u8], code: &[u8; 64], hash: Hash) -> bool
    ensures { result ≡ same c.now (take (digest_size hash) code.now) }
{
    cells::same(c, &code[..hash.size()])
}
