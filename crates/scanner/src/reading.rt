// What a gate sends: the orders of a reply to a setup, and the invalidation of a session.
ghost use Rattle.std.specs.Prelude.{◌≡◌};
ghost use Rattle.cells.specs.Runs.{same};
ghost use Rattle.orders.specs.Orders.{orders_of, orders_good};
ghost use Rattle.reply.specs.Replies.{invalidation};

use hashes::Hash;
use orders::Numbers;

// Whether orders with these masks and extra names, and each limit at its default, are good.
pub fn are_good(mask: u64, hashes: u64, extra: &[u8]) -> bool
    ensures { result ≡ orders_good (orders_of mask hashes extra.now 0 0 0) }
{
    let numbers = Numbers {
        mask,
        hashes,
        request_life: 0,
        idle: 0,
        session_life: 0,
    };
    orders::check(&names::known(), numbers, extra).is_some()
}

// Whether a value is the invalidation of the session with this key. Of one that is as long, every byte is looked at.
pub fn is_invalidation(value: &[u8], hash: Hash, key: &[u8; 32]) -> bool
    ensures { result ≡ same value.now (invalidation hash key.now) }
{
    let mut own = [0; 1024];
    let len = reply::invalidate(&mut own, hash, key);
    cells::same(value, &own[..len])
}
