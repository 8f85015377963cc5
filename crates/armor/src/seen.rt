// What a scan of a value has seen: a tally of each key by its place, and how many fields, up to two.
ghost use Rattle.armor.specs.InnerTallies.{Within};

use super::tally::Tally;

#[derive(Clone, Copy)]
pub struct Seen<'a> {
    pub value: &'a [u8],
    pub tallies: [Tally; 12],
    pub total: u8,
    ghost within: { Within value.now tallies },
}
