// Going through the names of a run, which are joined by commas.
ghost use Rattle.std.specs.Prelude.{◌≡◌};
ghost use Rattle.std.specs.Iterator.{YieldsFirstRef, item_count};
ghost use Rattle.names.specs.Names.{has_name};
ghost use Rattle.names.specs.Extra.{extra_names};
ghost use Rattle.names.specs.InnerWalk.{names_from, names_left};

use super::{name_end, same_name};

#[derive(Clone, Copy)]
pub struct Names<'a> {
    // The run from the next name on.
    rest: Option<&'a [u8]>,
}

impl<'a> Names<'a> {
    // The names of a run; the empty run has none.
    pub fn of(run: &'a [u8]) -> Names<'a>
        ensures { names_left result ≡ extra_names run.now }
    {
        Names {
            rest: if run.is_empty() { None } else { Some(run) },
        }
    }

    // Those from the one that starts at byte at on.
    pub fn from_byte(run: &'a [u8], at: usize) -> Names<'a>
        ensures { names_left result ≡ names_from run.now at }
    {
        Names {
            rest: run.get(at..),
        }
    }

    // Whether this is one of those that are left.
    pub fn have(mut self, name: &[u8]) -> bool
        ensures { result ≡ has_name (names_left self.entry) name.now }
    {
        self.any(|n| same_name(n, name))
    }
}

impl<'a> Iterator for Names<'a> {
    type Item = &'a [u8];

    ghost next_gives = { YieldsFirstRef names_left };

    ghost remaining = { item_count names_left };

    fn next(&mut self) -> Option<&'a [u8]> {
        let rest = self.rest?;
        let end = name_end(rest, 0);
        self.rest = rest.get(end + 1..);
        Some(&rest[..end])
    }
}
