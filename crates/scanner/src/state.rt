// A session as the bytes that a host lends for it.
ghost use Rattle.std.specs.Prelude.{◌≡◌, true, ◌≤◌, length};
ghost use Rattle.cells.specs.Runs as R;
ghost use Rattle.hashes.specs.Hashes.{named};
ghost use Rattle.scanner.specs.State.{no_session, state_of, session_in, most_next, good_session, in_session};
ghost use Rattle.scanner.specs.InnerSteps.{ReadsSession, session_at, advanced_to, BeginsWith, AfterIs};

use super::reading;
use super::session::Session;
use armor::Reply;
use hashes::Hash;
use window::time::Time;

pub const SIZE: usize = 329;

// Where the parts of a session begin; the last time begins at byte 0, the extra names stand after s, and zeros after them.
// Kept: places in bytes: the C interface lends a state as 329 bytes, which state_of (specs/State.antt) lays out.
const NEXT: usize = 4;

const MASK: usize = 12;

const HASH: usize = 20;

const S_SIZE: usize = 21;

const EXTRA_SIZE: usize = 22;

const IV: usize = 23;

const TAG: usize = 35;

const KEY: usize = 51;

const S: usize = 83;

impl<'a> Session<'a> {
    // The session that a state tells of: what would be written of it is that state.
    pub fn read(state: &'a [u8]) -> Option<Session<'a>>
        ensures { ReadsSession state.now result }
    {
        if state.len() != SIZE || 118 < state[S_SIZE] || 128 < state[EXTRA_SIZE] {
            return None;
        }
        let s_end = S + state[S_SIZE] as usize;
        let end = s_end + state[EXTRA_SIZE] as usize;
        let session = Session {
            last: Time(cells::load32(state, 0)),
            next: cells::load64(state, NEXT),
            mask: cells::load64(state, MASK),
            hash: Hash::named(u64::from(state[HASH])),
            iv: &state[IV..TAG],
            tag: &state[TAG..KEY],
            key: state[KEY..S].first_chunk().unwrap(),
            s: &state[S..s_end],
            extra: &state[s_end..end],
        };
        if !(session.is_good() & session.stands_in(state)) {
            return None;
        }
        Some(session)
    }

    // The session that a setup's reply begins at a time: its first nonce is 0.
    pub fn begun(time: Time, reply: &'a Reply) -> Session<'a>
        ensures { BeginsWith time reply.now result }
    {
        Session {
            last: time,
            next: 0,
            mask: reply.ah,
            hash: Hash::named(reply.h),
            iv: &reply.iv,
            tag: &reply.tag,
            key: &reply.key,
            s: reply.s.as_slice(),
            extra: reply.eah.as_slice(),
        }
    }

    fn is_good(&self) -> bool
        ensures { result ≡ good_session (session_at self.now) }
    {
        (1 <= self.s.len())
            & (reading::are_good(self.mask, self.hash.mask(), self.extra)
                & (self.next <= most_next(self.mask)))
    }

    // Whether a state is what would be written of the session.
    fn stands_in(&self, state: &[u8]) -> bool
        ensures { result ≡ R.same state.now (state_of (session_at self.now)) }
    {
        let mut anew = [0; SIZE];
        self.write(&mut anew);
        cells::same(state, &anew)
    }

    // Its state, over zeros.
    pub fn write(&self, out: &mut [u8])
        requires { out.old ≡ no_session }
        ensures { out.new ≡ state_of (session_at self.now) }
    {
        cells::put32(out, 0, self.last.0);
        cells::put64(out, NEXT, self.next);
        cells::put64(out, MASK, self.mask);
        let sizes = [
            self.hash.mask() as u8,
            self.s.len() as u8,
            self.extra.len() as u8,
        ];
        cells::put_at(out, HASH, &sizes);
        cells::put_at(out, IV, self.iv);
        cells::put_at(out, TAG, self.tag);
        cells::put_at(out, KEY, self.key.as_slice());
        let at = cells::put_at(out, S, self.s);
        cells::put_at(out, at, self.extra);
    }

    // The last time and the next nonce after a request: its nonce is used where nonces are ordered.
    pub fn after(&self, clock: Time) -> (Time, u64)
        requires { self.now.next ≤ 4294967295 }
        ensures { AfterIs (session_at self.now) clock.0 result }
    {
        (clock, self.next + self.mask % 2)
    }
}

// One more than the last nonce, or the first where nonces are not ordered.
fn most_next(mask: u64) -> u64
    ensures { result ≡ most_next mask }
{
    if mask % 2 == 1 { 4294967296 } else { 0 }
}

// The state with another last time and next nonce.
pub fn advance(state: &mut [u8], last: Time, next: u64)
    requires { in_session state.old ≡ true }
    ensures { state.new ≡ state_of (advanced_to (session_in state.old) last.0 next) }
{
    cells::put32(state, 0, last.0);
    cells::put64(state, NEXT, next);
}

// The state of no session.
pub fn clear(state: &mut [u8])
    requires { length state.old ≡ 329 }
    ensures { state.new ≡ no_session }
{
    state.fill(0);
}
