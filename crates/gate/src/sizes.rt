// Whether what is lent has the sizes that document 01 names: check 1.
ghost use Rattle.std.specs.Prelude.{◌≡◌};
ghost use Rattle.gate.specs.State.{holding};
ghost use Rattle.gate.specs.Sizes.{long_from, table_fits, state_fits};
ghost use Rattle.gate.specs.InnerSizes.{SetupFits, RequestFits, AskedFits, TrialFits, EndFits};

use super::asked::Asked;
use super::lent::Lent;
use lines::Blocks;
use signed::Brought;
use table::session::SIZE;

// Records in a table, bytes in what a request brings, and bytes in a reply buffer.
const MOST_RECORDS: usize = 4096;

const MOST_VALUE: usize = 4096;

const MOST_METHOD: usize = 16;

const MOST_LINES: usize = 16384;

const MOST_PATH: usize = 2048;

const MOST_BODY: usize = 65536;

const LEAST_REPLY: usize = 1024;

const MOST_SETUP_REPLY: usize = 459;

fn long_from(low: usize, high: usize, run: &[u8]) -> bool
    ensures { result ≡ long_from low high run.now }
{
    (low..=high).contains(&run.len())
}

#[tactic(auto, unfolding(crate::specs::Sizes::table_fits))]
fn table_fits(table: &[u8]) -> bool
    ensures { result ≡ table_fits table.now }
{
    table.len() % SIZE == 0 && long_from(SIZE, MOST_RECORDS * SIZE, table)
}

#[tactic(auto, unfolding(crate::specs::Sizes::state_fits))]
pub fn state_fits(table: &[u8], index: &[u8]) -> bool
    ensures { result ≡ state_fits (holding table.now index.now) }
{
    table_fits(table) && index.len() == 2 * (table.len() / SIZE)
}

// What sets up a session.
// Kept: the C interface, here and in the next functions: what comes in by itself becomes a struct here.
#[tactic(auto, unfolding(crate::specs::Sizes::setup_fits))]
pub fn setup<'a>(
    server_key: &'a [u8],
    session_key: &'a [u8],
    iv: &'a [u8],
    session_id: &'a [u8],
    value: &'a [u8],
    table: &[u8],
    index: &[u8],
    reply: &[u8],
) -> Option<Lent<'a>>
    ensures { SetupFits server_key.now session_key.now iv.now session_id.now value.now table.now index.now reply.now result }
{
    let server_key = server_key.try_into().ok()?;
    let session_key = session_key.try_into().ok()?;
    let iv = iv.try_into().ok()?;
    if long_from(1, 64, session_id)
        && value.len() <= MOST_VALUE
        && state_fits(table, index)
        && LEAST_REPLY <= reply.len()
    {
        return Some(Lent {
            server_key,
            session_key,
            iv,
            session_id,
            value,
        });
    }
    None
}

// What judges a request, table and index apart: the server's key, and what the request brings.
#[tactic(auto, unfolding(crate::specs::Sizes::lent_fits))]
pub fn request<'a>(
    server_key: &'a [u8],
    value: &'a [u8],
    method: &'a [u8],
    head: &'a [u8],
    aside: &'a [u8],
    path: &'a [u8],
    body: &'a [u8],
    reply: &[u8],
) -> Option<(&'a [u8; 32], Asked<'a>)>
    ensures { RequestFits server_key.now value.now method.now head.now aside.now path.now body.now reply.now result }
{
    let server_key = server_key.try_into().ok()?;
    let asked = asked(value, method, head, aside, path, body)?;
    (LEAST_REPLY <= reply.len()).then_some((server_key, asked))
}

// What tries a client.
#[tactic(auto, unfolding(crate::specs::Trial::trial_fits, crate::specs::Trial::request_in))]
pub fn trial<'a>(
    setup_reply: &[u8],
    value: &'a [u8],
    method: &'a [u8],
    head: &'a [u8],
    aside: &'a [u8],
    path: &'a [u8],
    body: &'a [u8],
) -> Option<Asked<'a>>
    ensures { TrialFits setup_reply.now value.now method.now head.now aside.now path.now body.now result }
{
    if MOST_SETUP_REPLY < setup_reply.len() {
        return None;
    }
    asked(value, method, head, aside, path, body)
}

// What a request brings.
#[tactic(auto, unfolding(crate::specs::Sizes::brought_fits))]
fn asked<'a>(
    value: &'a [u8],
    method: &'a [u8],
    head: &'a [u8],
    aside: &'a [u8],
    path: &'a [u8],
    body: &'a [u8],
) -> Option<Asked<'a>>
    ensures { AskedFits value.now method.now head.now aside.now path.now body.now result }
{
    if value.len() <= MOST_VALUE
        && long_from(1, MOST_METHOD, method)
        && head.len() <= MOST_LINES
        && aside.len() <= MOST_LINES
        && long_from(1, MOST_PATH, path)
        && body.len() <= MOST_BODY
    {
        return Some(Asked {
            value,
            brought: Brought {
                method,
                lines: Blocks { head, aside },
                path,
                body,
            },
        });
    }
    None
}

// What ends a session: its IV.
#[tactic(auto, unfolding(crate::specs::Sizes::end_fits))]
pub fn ending<'a>(iv: &'a [u8], table: &[u8], index: &[u8]) -> Option<&'a [u8; 12]>
    ensures { EndFits iv.now table.now index.now result }
{
    let iv = iv.try_into().ok()?;
    state_fits(table, index).then_some(iv)
}
