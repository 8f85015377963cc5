// Whether the table is well formed.
ghost use Rattle.std.specs.Prelude.{◌≡◌, not, ◌+◌, ◌≤◌, ◌<◌, drop};
ghost use Rattle.table.specs.Table.{places, record_at, records, holds};
ghost use Rattle.table.specs.WellFormed.{traceless, window_sound, sound, some, fitting, well_formed};

use super::session::{Record, SIZE};
use super::{place, session};

// Whether nonce and bits are zero.
fn no_trace(session: Record) -> bool
    ensures { result ≡ traceless session }
{
    (session.highest.0 == 0) & (session.bits == 0)
}

// Whether mark, nonce and bits fit each other.
fn window_sound(session: Record) -> bool
    ensures { result ≡ window_sound session }
{
    if session.any == 0 {
        return no_trace(session);
    }
    (session.any == 1) & (session.bits % 2 == 1)
}

pub fn record_sound(session: Record) -> bool
    ensures { result ≡ sound session }
{
    if session.used == 0 {
        return session == session::freed();
    }
    (session.used == 1) & (hashes::names_one(u64::from(session.hash)) & window_sound(session))
}

// Whether the record at a place is sound. Of a session with a nonce, the usual one, four bytes are looked at where they lie.
pub fn sound_at(table: &[u8], place: usize) -> bool
    requires { place < places table.now }
    ensures { result ≡ sound (record_at table.now place) }
{
    let at = SIZE * place;
    if (table[at] != 1) | (table[at + 17] != 1) {
        return record_sound(session::read(table, place));
    }
    hashes::names_one(u64::from(table[at + 30])) & (table[at + 29] % 2 == 1)
}

// Whether the record at a place is sound, and no record after it has its IV where it is used.
fn fits_at(table: &[u8], place: usize) -> bool
    requires { place < places table.now }
    ensures { result ≡ fitting (record_at table.now place) (drop (place + 1) (records table.now)) }
{
    let here = session::read(table, place);
    if here.used != 1 {
        return record_sound(here);
    }
    record_sound(here) & stands_nowhere(table, place + 1, &here.iv)
}

// Whether no used record from `start` on has this IV.
fn stands_nowhere(table: &[u8], start: usize, iv: &[u8]) -> bool
    requires { start ≤ places table.now }
    ensures { result ≡ not (some (holds iv.now) (drop start (records table.now))) }
{
    place::find_from(table, start, iv).is_none()
}

pub fn well_formed(table: &[u8]) -> bool
    ensures { result ≡ well_formed (records table.now) }
{
    (0..table.len() / SIZE).all(|place| fits_at(table, place))
}
