// Whether what is lent has the sizes that docs/CARRIER.md lists: 1.
ghost use Rattle.signatures.specs.Components.{message_of};
ghost use Rattle.carrier.specs.Asked.{asked_of};
ghost use Rattle.carrier.specs.InnerSteps.{MessageFits, AskedFits};

use super::asked::Asked;
use signatures::Message;

const MOST_METHOD: usize = 16;

const MOST_AUTHORITY: usize = 255;

const MOST_PATH: usize = 2048;

const MOST_LINES: usize = 16384;

const MOST_NAMES: usize = 1024;

const MOST_LABEL: usize = 64;

const MOST_KEY_ID: usize = 255;

const MOST_KEY: usize = 256;

#[tactic(auto, unfolding(crate::specs::Asked::message_fits))]
fn message<'a>(
    method: &'a [u8],
    authority: &'a [u8],
    path: &'a [u8],
    lines: &'a [u8],
) -> Option<Message<'a>>
    ensures { MessageFits (message_of method.now authority.now path.now lines.now) result }
{
    if (1..=MOST_METHOD).contains(&method.len())
        && (1..=MOST_AUTHORITY).contains(&authority.len())
        && (1..=MOST_PATH).contains(&path.len())
        && lines.len() <= MOST_LINES
    {
        return Some(Message {
            method,
            authority,
            path,
            lines,
        });
    }
    None
}

// What both calls are lent, if it has the sizes.
// Kept: the C interface: what comes in by itself becomes a struct here.
#[tactic(auto, unfolding(crate::specs::Asked::asked_fits))]
pub fn asked<'a>(
    method: &'a [u8],
    authority: &'a [u8],
    path: &'a [u8],
    lines: &'a [u8],
    names: &'a [u8],
    label: &'a [u8],
    key_id: &'a [u8],
    key: &'a [u8],
) -> Option<Asked<'a>>
    ensures { AskedFits (asked_of method.now authority.now path.now lines.now names.now label.now key_id.now key.now) result }
{
    let message = message(method, authority, path, lines)?;
    if names.len() <= MOST_NAMES
        && (1..=MOST_LABEL).contains(&label.len())
        && (1..=MOST_KEY_ID).contains(&key_id.len())
        && (1..=MOST_KEY).contains(&key.len())
    {
        return Some(Asked {
            message,
            names,
            label,
            key_id,
            key,
        });
    }
    None
}
