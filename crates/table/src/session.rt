// A record, read from its bytes and written as its bytes.
ghost use Rattle.std.specs.Prelude.{◌≡◌, [], ◌∷◌, ◌*◌, ◌<◌, length};
ghost use Rattle.cells.specs.Runs.{spliced};
ghost use Rattle.table.specs.Record.{size, record_of, record_bytes, freed, begun, window_of, with_window};
ghost use Rattle.table.specs.Session.{with_record};
ghost use Rattle.table.specs.Table.{places, record_at, holds, Within};

use window::time::Time;
use window::{Nonce, Window};

// Kept: the marks and the mask of the hash are bytes: the C interface lends a record, and a host may lend any.
#[repr(C)]
#[derive(Clone, Copy, PartialEq, Eq)]
pub struct Record {
    pub used: u8,
    pub iv: [u8; 12],
    pub expiry: Time,
    pub any: u8,
    pub highest: Nonce,
    pub bits: u64,
    pub hash: u8,
}

// Bytes in a record.
pub const SIZE: usize = 31;

// The record at a place of the table.
pub fn read(table: &[u8], place: usize) -> Record
    requires { place < places table.now }
    ensures { result ≡ record_at table.now place }
{
    let at = SIZE * place;
    let end = at + SIZE;
    parse(&table[at..end])
}

fn parse(bytes: &[u8]) -> Record
    requires { length bytes.now ≡ size }
    ensures { result ≡ record_of bytes.now }
{
    let mut iv = [0; 12];
    iv.copy_from_slice(&bytes[1..13]);
    Record {
        used: bytes[0],
        iv,
        expiry: Time(cells::load32(bytes, 13)),
        any: bytes[17],
        highest: Nonce(cells::load32(bytes, 18)),
        bits: cells::load64(bytes, 22),
        hash: bytes[30],
    }
}

// The record takes a place of the table; every other byte stays.
pub fn store(table: &mut [u8], place: usize, session: Record)
    requires { place < places table.old }
    ensures { table.new ≡ spliced table.old (size * place) (record_bytes session) }
{
    let at = SIZE * place;
    let end = at + SIZE;
    write(&mut table[at..end], session);
}

fn write(out: &mut [u8], session: Record)
    requires { length out.old ≡ size }
    ensures { out.new ≡ record_bytes session }
{
    put_byte(out, 0, session.used);
    cells::put_at(out, 1, &session.iv);
    cells::put32(out, 13, session.expiry.0);
    put_byte(out, 17, session.any);
    cells::put32(out, 18, session.highest.0);
    cells::put64(out, 22, session.bits);
    put_byte(out, 30, session.hash);
}

fn put_byte(out: &mut [u8], at: usize, x: u8)
    requires { at < length out.old }
    ensures { out.new ≡ spliced out.old at (x ∷ []) }
{
    out[at] = x;
}

// The record takes its place in the table, if it has one.
pub fn put(table: &mut [u8], place: Option<usize>, record: Record)
    requires { Within (places table.old) place }
    ensures { table.new ≡ with_record table.old place «record» }
{
    if let Some(at) = place {
        store(table, at, record);
    }
}

// The record of a new session.
pub fn begin(iv: &[u8; 12], expiry: Time, hash: u8) -> Record
    ensures { result ≡ begun iv.now expiry.0 hash }
{
    Record {
        used: 1,
        iv: *iv,
        expiry,
        hash,
        ..freed()
    }
}

// A record that is free.
pub fn freed() -> Record
    ensures { result ≡ freed }
{
    Record {
        used: 0,
        iv: [0; 12],
        expiry: Time(0),
        any: 0,
        highest: Nonce(0),
        bits: 0,
        hash: 0,
    }
}

impl Record {
    // Whether the record is used and has this IV.
    pub fn is_of(self, iv: &[u8]) -> bool
        ensures { result ≡ holds iv.now self }
    {
        (self.used == 1) & cells::same(&self.iv, iv)
    }

    pub fn window(self) -> Window
        ensures { result ≡ window_of self }
    {
        Window {
            any: self.any == 1,
            highest: self.highest,
            bits: self.bits,
        }
    }

    pub fn with_window(self, window: Window) -> Record
        ensures { result ≡ with_window self window }
    {
        Record {
            any: u8::from(window.any),
            highest: window.highest,
            bits: window.bits,
            ..self
        }
    }
}
