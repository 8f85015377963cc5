// Why a call is refused: docs/CARRIER.md, 'Numbers'.
ghost use Rattle.std.specs.Prelude.{◌≡◌};
ghost use Rattle.carrier.specs.InnerRefusals.{number_of};

// Each is worth its number in the list.
#[derive(Clone, Copy, Drop, PartialEq, Eq)]
pub enum Refusal {
    BadSize = 1,
    Malformed = 2,
    BadLabel = 3,
    ListedTwice = 4,
    MissingField = 5,
    BadSignature = 6,
}

impl Refusal {
    // Kept: a method: a From would not tell by its name which number it is.
    pub fn number(self) -> u32
        ensures { result ≡ number_of self }
    {
        self as u32
    }
}
