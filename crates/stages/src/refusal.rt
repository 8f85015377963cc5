// Why a call is refused: document 01, 'The numbers a call returns', and document 02 for 21 to 23.
ghost use Rattle.std.specs.Prelude.{◌≡◌};
ghost use Rattle.stages.specs.InnerRefusals.{number_of, RefusedUnread, RefusedUnnoted};

use armor::Unread;
use lines::noting::Unnoted;

// Each is worth its number in the list.
#[derive(Clone, Copy, Drop, PartialEq, Eq)]
pub enum Refusal {
    // Something that is lent has a wrong size.
    WrongSize = 1,
    BadOrders = 2,
    BadTable = 3,
    // The header value breaks its grammar, or carries another set of fields.
    BadGrammar = 4,
    WrongFields = 5,
    // The method is no token, or a line of the head or set aside is malformed.
    BadLines = 6,
    NameTwice = 7,
    // h, ah, eah or the length of c is other than ordered; h other than the record's, or the token other than the reply's.
    NotAsOrdered = 8,
    BadToken = 9,
    Expired = 10,
    WrongSignature = 11,
    NoSession = 12,
    Idle = 13,
    TooOld = 14,
    // The nonce lies 64 or more below the highest, or was accepted before.
    NonceTooLow = 15,
    NonceSeen = 16,
    // Setup: the IV is in use, the table is full, client and orders have no hash in common, or the session would outlast all times.
    IvInUse = 17,
    TableFull = 18,
    NoCommonHash = 19,
    ExpiryTooLate = 20,
    TooFarAhead = 21,
    BadIndex = 22,
    // A setup's reply is not laid out as one.
    BadReply = 23,
}

impl Refusal {
    // Kept: a method: a From would not tell by its name which number it is.
    pub fn number(self) -> u32
        ensures { result ≡ number_of self }
    {
        self as u32
    }
}

// A value that cannot be read is refused by 4 or 5.
impl From<Unread> for Refusal {
    ghost from_gives = { RefusedUnread };

    fn from(unread: Unread) -> Refusal {
        match unread {
            Unread::Grammar => Refusal::BadGrammar,
            Unread::Fields => Refusal::WrongFields,
        }
    }
}

// Lines that cannot be noted, by 6 or 7.
impl From<Unnoted> for Refusal {
    ghost from_gives = { RefusedUnnoted };

    fn from(unnoted: Unnoted) -> Refusal {
        match unnoted {
            Unnoted::NotLines => Refusal::BadLines,
            Unnoted::Twice => Refusal::NameTwice,
        }
    }
}
