// The orders: whether what a site asks is good, and its limits.
#![tactic(auto)]

ghost use Rattle.std.specs.Prelude.{◌≡◌};
ghost use Rattle.orders.specs.Orders.{orders, or_default, OrderedIs};

use names::{Covered, KnownNames, extra};

// The orders, the extra names apart, as a host lends them: a limit of 0 stands for its default.
#[derive(Clone, Copy, PartialEq, Eq)]
pub struct Numbers {
    pub mask: u64,
    pub hashes: u64,
    pub request_life: u32,
    pub idle: u32,
    pub session_life: u32,
}

// The limits in seconds, with the defaults put in.
#[derive(Clone, Copy, PartialEq, Eq)]
pub struct Limits {
    pub request_life: u32,
    pub idle: u32,
    pub session_life: u32,
}

// What good orders say, each default put in.
#[derive(Clone, Copy)]
pub struct Ordered<'a> {
    pub covered: Covered<'a>,
    pub hashes: u64,
    pub limits: Limits,
}

#[tactic(auto, unfolding(crate::specs::Orders::orders_good, crate::specs::Orders::limits_of))]
pub fn check<'a>(known: &KnownNames, numbers: Numbers, extra: &'a [u8]) -> Option<Ordered<'a>>
    ensures { OrderedIs (orders numbers extra.now) result }
{
    if numbers.mask < 1 << 56
        && hashes::good_allowed(numbers.hashes)
        && extra::good_extra(known, extra)
        && numbers.session_life <= 2592000
    {
        return Some(Ordered {
            covered: Covered {
                mask: numbers.mask,
                extra,
            },
            hashes: numbers.hashes,
            limits: Limits {
                request_life: or_default(60, numbers.request_life),
                idle: or_default(1800, numbers.idle),
                session_life: or_default(1209600, numbers.session_life),
            },
        });
    }
    None
}

fn or_default(usual: u32, limit: u32) -> u32
    ensures { result ≡ or_default usual limit }
{
    if limit == 0 { usual } else { limit }
}
