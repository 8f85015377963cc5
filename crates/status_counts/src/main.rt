// Counts the lines of an access log by status, from standard input to standard output: document 02, K5.
#![tactic(auto)]

ghost use Rattle.std.specs.Prelude.{◌≡◌, ◌^◌, ◌<◌, length, IfOk, IfSome, OnOk};
ghost use Rattle.std.specs.Io.KnownBytes.{Appends};
ghost use Rattle.logs.specs.Counts.{sum, lines, counts};
ghost use Rattle.logs.specs.Printed.{printed};

use logs::State;
use std::io;
use std::io::{Read, Write};
use std::process::ExitCode;

fn main(rt: HostRuntime) -> ExitCode {
    match run(&rt) {
        Ok(()) => ExitCode::SUCCESS,
        Err((what, error)) => failed(&rt, what, error),
    }
}

// What failed, and why, if anything.
fn run(rt: &HostRuntime) -> Result<(), (&'static str, io::Error)> {
    let counts = counted(&mut rt.stdin()).map_err(|error| ("status-counts: reading", error))?;
    write(&mut rt.stdout(), &counts).map_err(|error| ("status-counts: writing", error))
}

// Says on standard error what failed, and why.
fn failed(rt: &(impl Eprint + AllocGlobal), what: &str, error: io::Error) -> ExitCode {
    let _ = say(rt, what, error);
    ExitCode::FAILURE
}

// The reason is the system's text, without the number that std puts behind it.
fn say(rt: &(impl Eprint + AllocGlobal), what: &str, error: io::Error) -> io::Result<()> {
    let text = error.to_string(rt.alloc())?;
    let why = reason(text.as_str());
    eprintln!(rt; "{what}: {why}")
}

fn reason(text: &str) -> &str {
    text.split_once(" (os error ").map_or(text, |(why, _)| why)
}

// Kept: a function of its own, since a check of what uses the buffer would compute its bytes.
fn large_buffer() -> [u8; 65536]
    ensures { length result ≡ 65536 }
{
    [0; 65536]
}

// The counts of the log that is read until it ends. 2^48 - 1 reads are more than any log takes, and so few that no count passes its 64 bits.
fn counted<R: Read>(input: &mut R) -> io::Result<[u64; 600]>
    ensures fits { IfOk result (λ found. sum found < 2 ^ 64) }
    ensures whole { IfOk result (λ found. IfSome (R.remaining input.old) (λ text. found ≡ counts (lines text))) }
{
    let mut buffer = large_buffer();
    let mut state = State::new();
    let mut n = input.read(&mut buffer)?;
    // Kept: a bound on the reads, since nothing says that a log ends.
    for _i in 0..281474976710655u64 {
        if n == 0 {
            break;
        }
        state.take_in(&buffer[..n]);
        n = input.read(&mut buffer)?;
    }
    if n != 0 {
        return Err(io::Error::other("the log does not end"));
    }
    Ok(state.finish())
}

fn write<W: Write>(out: &mut W, counts: &[u64; 600]) -> io::Result<()>
    requires { sum counts.now < 2 ^ 64 }
    ensures { OnOk result (Appends (W.contents out.old) (W.contents out.new) (printed counts.now)) }
{
    let mut text = [0; logs::TEXT_SIZE];
    let size = logs::print(counts, &mut text);
    out.write_all(&text[..size])
}
