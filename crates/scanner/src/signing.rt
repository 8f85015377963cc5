// Signing a request: whether a gate would take its parts, and its code.
ghost use Rattle.std.specs.Prelude.{◌≡◌, true, [], ◌≤◌};
ghost use Rattle.names.specs.Covered.{covered_names};
ghost use Rattle.lines.specs.InnerNotes.{NotedIs};
ghost use Rattle.scanner.specs.State.{good_session};
ghost use Rattle.scanner.specs.InnerSteps.{session_at, draft_in, BringsFitting, Signs};

use super::session::Session;
use lines::noting::{Notes, Unnoted};
use lines::{Blocks, noting};
use names::{Covered, token};
use signed::Brought;
use window::Nonce;
use window::time::Time;

const MOST_METHOD: usize = 16;

const MOST_LINES: usize = 16384;

const MOST_PATH: usize = 2048;

const MOST_BODY: usize = 65536;

const LEAST_OUT: usize = 4096;

// What a request brings besides its value, if it and the buffer for the value have the right sizes. Nothing is set aside.
// Kept: beside gate's sizes: draft_fits (specs/Sign.antt) has no aside and asks of out too, and gate is no part of a scanner.
#[tactic(auto, unfolding(crate::specs::Sign::draft_fits))]
pub fn brought<'a>(
    method: &'a [u8],
    head: &'a [u8],
    path: &'a [u8],
    body: &'a [u8],
    out: &[u8],
) -> Option<Brought<'a>>
    ensures { BringsFitting method.now head.now path.now body.now out.now result }
{
    if (1..=MOST_METHOD).contains(&method.len())
        && head.len() <= MOST_LINES
        && (1..=MOST_PATH).contains(&path.len())
        && body.len() <= MOST_BODY
        && LEAST_OUT <= out.len()
    {
        return Some(Brought {
            method,
            lines: Blocks { head, aside: &[] },
            path,
            body,
        });
    }
    None
}

// The code of a request at the front of 64 bytes, if a gate would take method and lines.
pub fn code(session: &Session, clock: Time, brought: &Brought) -> Option<[u8; 64]>
    requires { (good_session (session_at session.now) ≡ true) × (session.now.next ≤ 4294967295) × (brought.now.lines.aside.now ≡ []) }
    ensures { Signs (draft_in clock.0 brought.now) (session_at session.now) result }
{
    let covered = Covered {
        mask: session.mask,
        extra: session.extra,
    };
    let mut notes = Notes::new();
    let noted = note(&covered, &brought.lines, &mut notes);
    if !token::is_token(brought.method) || noted.is_err() {
        return None;
    }
    Some(signed::code(
        session.key.as_slice(),
        session.hash,
        &covered,
        Nonce(session.next as u32),
        clock,
        session.last,
        brought,
        &notes,
    ))
}

// The notes on the covered names. Not inlined, so that the code is made without the sheet of names in its frame.
#[inline(never)]
fn note(covered: &Covered, lines: &Blocks, notes: &mut Notes) -> Result<(), Unnoted>
    ensures { NotedIs (covered_names covered.now.mask covered.now.extra.now) lines.now.head.now lines.now.aside.now notes.new result }
{
    noting::note(&names::known(), covered, lines, notes)
}
