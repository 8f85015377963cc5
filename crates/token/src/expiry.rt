// The expiry in a token's text: decimal digits without leading zeros.
ghost use Rattle.std.specs.Prelude.{◌≡◌, ◌≤◌, length};
ghost use Rattle.cells.specs.Decimal.{value_after};
ghost use Rattle.token.specs.InnerExpiry.{ExpiryIs};

use cells::decimal;
use window::time::Time;

// The value of digits, where a byte below the digits counts as 0.
fn value(digits: &[u8]) -> u64
    requires { length digits.now ≤ 10 }
    ensures { result ≡ value_after 0 digits.now }
{
    let mut value: u64 = 0;
    for b in digits {
        value = value * 10 + u64::from(b.saturating_sub(b'0'));
    }
    value
}

// The time whose decimal digits these are. Digits that begin with a zero, and bytes that are no digits, are other than those of
// their value.
pub fn read(digits: &[u8]) -> Option<Time>
    ensures { ExpiryIs digits.now result }
{
    if 10 < digits.len() {
        return None;
    }
    let n = value(digits);
    let time = u32::try_from(n).ok()?;
    if !cells::same(digits, decimal::digits(n).as_slice()) {
        return None;
    }
    Some(Time(time))
}
