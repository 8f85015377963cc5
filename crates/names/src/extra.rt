// The extra names, which a site adds to the 55.
ghost use Rattle.std.specs.Prelude.{◌≡◌};
ghost use Rattle.names.specs.Extra.{allowed, good_names, good_extra};
ghost use Rattle.names.specs.InnerWalk.{names_left};

use super::{KnownNames, Names, same_name, token};

// Bytes of extra names.
const MOST: usize = 128;

pub fn good_extra(known: &KnownNames, extra: &[u8]) -> bool
    ensures { result ≡ good_extra extra.now }
{
    // Saves going through the names of a long run.
    if MOST < extra.len() {
        return false;
    }
    let names = Names::of(extra);
    (names.count() <= 8) & good_names(known, names)
}

fn good_names(known: &KnownNames, mut names: Names) -> bool
    ensures { result ≡ good_names (names_left names.entry) }
{
    // Kept: a while let, since the names that are left are asked in the loop.
    while let Some(name) = names.next() {
        if !(is_allowed(known, name) & !names.have(name)) {
            return false;
        }
    }
    true
}

fn is_allowed(known: &KnownNames, name: &[u8]) -> bool
    ensures { result ≡ allowed name.now }
{
    token::is_token(name) & !Names::of(&known.run).have(name) & !same_name(b"X-S-Armor", name)
}
