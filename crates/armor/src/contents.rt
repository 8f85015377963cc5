// What the noted texts of a value hold.
ghost use Rattle.std.specs.Prelude.{◌≡◌, ◌≤◌, length};
ghost use Rattle.cells.specs.Runs.{fronted};
ghost use Rattle.cells.specs.InnerRun.{run_of};
ghost use Rattle.cells.specs.Numbers.{number};
ghost use Rattle.armor.specs.Numerals.{mask_of};
ghost use Rattle.armor.specs.Keys.{key_eah};
ghost use Rattle.armor.specs.Value.{carried, told};
ghost use Rattle.armor.specs.Fields.{right_times, request_fields, reply_times, reply_holds};
ghost use Rattle.armor.specs.InnerAnswers.{Holds, Lies, HoldsReply};
ghost use Rattle.armor.specs.InnerScan.{count_in, span_in, Sound, Ready, ReadyReply};

use super::key::Key;
use super::seen::Seen;
use super::{Fields, Reply, Request, Span, numeral};
use cells::Run;
use window::Nonce;
use window::time::Time;

// Whether each key, n apart, stands as often as in a request.
// Kept: beside reply_times_good: each is a definition of specs/Fields.antt line for line, and a table of numbers by key would be no plainer.
fn times_good(seen: &Seen) -> bool
    ensures { result ≡ right_times (count_in seen.now) }
{
    ((seen.count(Key::S) == 1)
        & (seen.count(Key::C) == 1)
        & (seen.count(Key::T) == 1)
        & (seen.count(Key::Lt) == 1))
        & ((seen.count(Key::H) == 1)
            & (seen.count(Key::Ah) == 1)
            & (seen.count(Key::Iv) == 1)
            & (seen.count(Key::Tag) == 1))
        & ((seen.count(Key::Eah) <= 1) & (seen.count(Key::R) == 0) & (seen.count(Key::Other) == 0))
}

// Whether the set of fields is that of a request: n is carried exactly if bit 0 of ah is set.
pub fn fields_good(seen: &Seen) -> bool
    requires { Sound seen.now }
    ensures { result ≡ request_fields (carried seen.now.value.now) }
{
    if !times_good(seen) {
        return false;
    }
    u64::from(seen.count(Key::N)) == mask_in(seen.text(Key::Ah)) % 2
}

// What a text encodes, at the front of out, and how long it is.
fn content(text: &[u8], out: &mut [u8]) -> usize
    requires { length (told text.now) ≤ length out.old }
    ensures { (result ≡ length (told text.now)) × (out.new ≡ fronted (told text.now) out.old) }
{
    base_64::decode(text, out).unwrap_or(0)
}

// What a text encodes, of which there are at most N bytes.
fn held<const N: usize>(text: &[u8]) -> Run<N>
    requires { length (told text.now) ≤ N }
    ensures { run_of result ≡ told text.now }
{
    let mut out = [0; N];
    let n = content(text, &mut out);
    Run::of(&out[..n])
}

// The same of a text that encodes N bytes.
fn whole<const N: usize>(text: &[u8]) -> [u8; N]
    requires { length (told text.now) ≡ N }
    ensures { result ≡ told text.now }
{
    let mut out = [0; N];
    content(text, &mut out);
    out
}

// The number that a text encodes.
fn number_in(text: &[u8]) -> u32
    requires { length (told text.now) ≤ 4 }
    ensures { result ≡ number (told text.now) }
{
    numeral::number32(held::<4>(text).as_slice())
}

// The mask that a text encodes.
pub fn mask_in(text: &[u8]) -> u64
    requires { (1 ≤ length (told text.now)) × (length (told text.now) ≤ 9) }
    ensures { result ≡ mask_of (told text.now) }
{
    numeral::number_of(&held::<9>(text).as_slice()[1..])
}

// Where the text of eah stands, where it is carried.
fn extra_span(seen: &Seen) -> Option<Span>
    ensures { result ≡ span_in seen.now key_eah }
{
    let tally = seen.tally(Key::Eah);
    if tally.count != 1 {
        return None;
    }
    Some(tally.text)
}

// What a request carries: the byte fields go to their places, the rest into the answer.
pub fn request_of(seen: &Seen, fields: &mut Fields) -> Request
    requires { Ready seen.now }
    ensures { Holds seen.now.value.now (carried seen.now.value.now) result × Lies (carried seen.now.value.now) fields.new }
{
    fields.s = held(seen.text(Key::S));
    fields.c = held(seen.text(Key::C));
    fields.iv = whole(seen.text(Key::Iv));
    fields.tag = whole(seen.text(Key::Tag));
    Request {
        t: Time(number_in(seen.text(Key::T))),
        lt: Time(number_in(seen.text(Key::Lt))),
        n: Nonce(number_in(seen.text(Key::N))),
        h: mask_in(seen.text(Key::H)),
        ah: mask_in(seen.text(Key::Ah)),
        eah: extra_span(seen),
    }
}

// Whether each key stands as often as in a setup's reply.
fn reply_times_good(seen: &Seen) -> bool
    ensures { result ≡ reply_times (count_in seen.now) }
{
    ((seen.count(Key::S) == 1)
        & (seen.count(Key::Iv) == 1)
        & (seen.count(Key::Tag) == 1)
        & (seen.count(Key::Other) == 1))
        & ((seen.count(Key::H) == 1) & (seen.count(Key::Ah) == 1) & (seen.count(Key::Eah) <= 1))
        & ((seen.count(Key::C) == 0)
            & (seen.count(Key::T) == 0)
            & (seen.count(Key::Lt) == 0)
            & (seen.count(Key::N) == 0)
            & (seen.count(Key::R) == 0))
}

// How many bytes a text encodes.
fn size(text: &[u8]) -> usize
    ensures { result ≡ length (told text.now) }
{
    base_64::measure(text).unwrap_or(0)
}

// Whether the set of fields is that of a setup's reply, with a session key and extra names of the right sizes.
pub fn reply_good(seen: &Seen) -> bool
    requires { Sound seen.now }
    ensures { result ≡ reply_holds (carried seen.now.value.now) }
{
    if !reply_times_good(seen) {
        return false;
    }
    (size(seen.text(Key::Other)) == 32) & (size(seen.text(Key::Eah)) <= 128)
}

// What a setup's reply carries.
pub fn reply_of(seen: &Seen) -> Reply
    requires { ReadyReply seen.now }
    ensures { HoldsReply (carried seen.now.value.now) result }
{
    Reply {
        s: held(seen.text(Key::S)),
        iv: whole(seen.text(Key::Iv)),
        tag: whole(seen.text(Key::Tag)),
        key: whole(seen.text(Key::Other)),
        h: mask_in(seen.text(Key::H)),
        ah: mask_in(seen.text(Key::Ah)),
        eah: held(seen.text(Key::Eah)),
    }
}
