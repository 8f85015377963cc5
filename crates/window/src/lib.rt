// The window of a session's nonces: the highest accepted, and a bit for it and for each of the 63 below it.
#![tactic(auto)]

ghost use Rattle.std.specs.Prelude.{◌≡◌};
ghost use Rattle.window.specs.Window.{fresh, accepted, refused, above, below, step_of};

pub mod time;

// A host lends a record that holds one.
#[repr(C)]
#[derive(Clone, Copy, PartialEq, Eq, PartialOrd, Ord)]
pub struct Nonce(pub u32);

// Kept: an Option of the rest in the place of `any` may not be: specs/History.antt and its theorems name the three fields.
#[derive(Clone, Copy)]
pub struct Window {
    // Whether a nonce was accepted yet.
    pub any: bool,
    pub highest: Nonce,
    // The lowest bit is the highest nonce.
    pub bits: u64,
}

// Kept: a Result may not be: specs/Window.antt gives a window beside each verdict, which specs/History.antt goes on from.
#[derive(Clone, Copy, PartialEq, Eq)]
pub enum Verdict {
    Accepted,
    TooOld,
    Seen,
}

#[derive(Clone, Copy)]
pub struct Stepped {
    pub window: Window,
    pub verdict: Verdict,
}

impl Window {
    // Kept: nothing here calls it; docs/CONTRACTS.md names it.
    pub fn fresh() -> Window
        ensures { result ≡ fresh }
    {
        Window {
            any: false,
            highest: Nonce(0),
            bits: 0,
        }
    }

    // The window goes through one nonce and comes out as the next window.
    pub fn step(self, nonce: Nonce) -> Stepped
        ensures { result ≡ step_of self nonce.0 }
    {
        if !self.any {
            return accepted(nonce, 1);
        }
        if self.highest < nonce {
            return self.above(nonce, nonce.0 - self.highest.0);
        }
        self.below(self.highest.0 - nonce.0)
    }

    // The nonce lies `up` above the highest.
    fn above(self, nonce: Nonce, up: u32) -> Stepped
        ensures { result ≡ above self nonce.0 up }
    {
        if 64 <= up {
            return accepted(nonce, 1);
        }
        accepted(nonce, self.bits << up | 1)
    }

    // The nonce lies `down` below the highest.
    fn below(self, down: u32) -> Stepped
        ensures { result ≡ below self down }
    {
        if 64 <= down {
            return refused(self, Verdict::TooOld);
        }
        if (self.bits >> down) % 2 == 1 {
            return refused(self, Verdict::Seen);
        }
        accepted(self.highest, self.bits | 1 << down)
    }
}

fn accepted(highest: Nonce, bits: u64) -> Stepped
    ensures { result ≡ accepted highest.0 bits }
{
    Stepped {
        window: Window {
            any: true,
            highest,
            bits,
        },
        verdict: Verdict::Accepted,
    }
}

fn refused(window: Window, verdict: Verdict) -> Stepped
    ensures { result ≡ refused window verdict }
{
    Stepped { window, verdict }
}
