// Why a call is refused: docs/SCANNER.md, 'Numbers'.
ghost use Rattle.std.specs.Prelude.{◌≡◌};
ghost use Rattle.scanner.specs.InnerRefusals.{number_of};

// Each is worth its number in the list.
#[derive(Clone, Copy, Drop, PartialEq, Eq)]
pub enum Refusal {
    NoSession = 1,
    NoNonce = 2,
    BadPart = 3,
    NotOurs = 4,
}

impl Refusal {
    // Kept: a method: a From would not tell by its name which number it is.
    pub fn number(self) -> u32
        ensures { result ≡ number_of self }
    {
        self as u32
    }
}
