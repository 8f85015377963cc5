// The X-S-Armor value of a setup, of a request and of a reply.
#![tactic(auto)]

ghost use Rattle.std.specs.Prelude.{◌≡◌, []};
ghost use Rattle.cells.specs.InnerRun.{run_of};
ghost use Rattle.armor.specs.InnerAnswers.{setup_answer, ReadsRequest, ReadsReply};

use cells::Run;
use key::Key;
use window::Nonce;
use window::time::Time;

mod contents;
mod key;
mod numeral;
mod scanning;
mod seen;
mod tally;
mod writing;

pub use numeral::{mask_bytes, number_bytes};
pub use writing::{put_field, put_mask, put_next, put_number};

// Why a value was not read: it breaks its grammar, or its set of fields is not the one asked for.
#[derive(Clone, Copy, PartialEq, Eq)]
pub enum Unread {
    Grammar,
    Fields,
}

// Where a text stands in a value.
#[derive(Clone, Copy)]
pub struct Span {
    pub start: usize,
    pub end: usize,
}

// The bytes of s, c, iv and tag of a request. They lie once, where the caller lends them.
#[derive(Clone, Copy)]
pub struct Fields {
    pub s: Run<118>,
    pub c: Run<64>,
    pub iv: [u8; 12],
    pub tag: [u8; 16],
}

impl Fields {
    pub fn new() -> Fields
        ensures { (run_of result.s ≡ []) × (run_of result.c ≡ []) }
    {
        Fields {
            s: Run::new(),
            c: Run::new(),
            iv: [0; 12],
            tag: [0; 16],
        }
    }
}

// What else a good request carries; of eah, where its text stands in the value.
#[derive(Clone, Copy)]
pub struct Request {
    pub t: Time,
    pub lt: Time,
    pub n: Nonce,
    pub h: u64,
    pub ah: u64,
    pub eah: Option<Span>,
}

// What a setup's reply carries.
#[derive(Clone, Copy)]
pub struct Reply {
    pub s: Run<118>,
    pub iv: [u8; 12],
    pub tag: [u8; 16],
    pub key: [u8; 32],
    pub h: u64,
    pub ah: u64,
    pub eah: Run<128>,
}

// The mask of a setup request.
pub fn read_setup(value: &[u8]) -> Result<u64, Unread>
    ensures { result ≡ setup_answer value.now }
{
    let seen = scanning::scan_value(value).ok_or(Unread::Grammar)?;
    let alone = (seen.total == 1) & (seen.count(Key::R) == 1);
    if !alone {
        return Err(Unread::Fields);
    }
    Ok(contents::mask_in(seen.text(Key::R)))
}

// What a request carries, its byte fields in their places.
// Kept: the fields are lent and no part of the answer: each function that hands them on would add their size to the stack, on which gate has a bound.
pub fn read_request(value: &[u8], fields: &mut Fields) -> Result<Request, Unread>
    ensures { ReadsRequest value.now fields.new result }
{
    let seen = scanning::scan_value(value).ok_or(Unread::Grammar)?;
    if !contents::fields_good(&seen) {
        return Err(Unread::Fields);
    }
    Ok(contents::request_of(&seen, fields))
}

// What a setup's reply carries, if its set of fields is that of one.
pub fn read_reply(value: &[u8]) -> Option<Reply>
    ensures { ReadsReply value.now result }
{
    let seen = scanning::scan_value(value)?;
    if !contents::reply_good(&seen) {
        return None;
    }
    Some(contents::reply_of(&seen))
}
