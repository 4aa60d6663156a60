//! Decimals with a sign, in order as numbers.
ghost use Rattle.std.specs.Prelude.{◌≡◌, ◌++◌, true};
ghost use Rattle.ix_base.specs.Decimals.{front_of, back_of};
ghost use Rattle.ix_base.specs.Forms as forms;
ghost use Rattle.ix_base.specs.Orders as orders;
ghost use Rattle.tuples.specs.DecimalOrder as decimal_order;

use scale_sign::{has_minus, is_negative, parts_of, stripped, trimmed, unsigned_of};
use std::cmp::Ordering;

/// Two decimals without a sign, by their digits in front of the point and behind it.
fn size_cmp(front: &[u8], back: &[u8], other_front: &[u8], other_back: &[u8]) -> Ordering
    ensures { result ≡ decimal_order.size_cmp front.now back.now other_front.now other_back.now }
{
    let front = stripped(front);
    let other_front = stripped(other_front);
    let fronts = front
        .len()
        .cmp(&other_front.len())
        .then(front.cmp(other_front));
    fronts.then(trimmed(back).cmp(trimmed(other_back)))
}

/// Two numbers by their signs, and else by how their sizes stand, or how they stand turned round.
fn signed_cmp(
    is_negative: bool,
    is_other_negative: bool,
    sizes: Ordering,
    turned: Ordering,
) -> Ordering
    ensures { result ≡ decimal_order.signed_cmp is_negative is_other_negative sizes turned }
{
    match (is_negative, is_other_negative) {
        (false, false) => sizes,
        (true, true) => turned,
        (true, false) => Ordering::Less,
        (false, true) => Ordering::Greater,
    }
}

/// Two decimals as numbers. Both may have a sign.
pub(crate) fn decimal_cmp(x: &str, y: &str) -> Ordering
    requires x { forms.is_decimal x.now ≡ true }
    requires y { forms.is_decimal y.now ≡ true }
    ensures { result ≡ orders.decimal_cmp x.now y.now }
{
    let (front, back) = parts_of(unsigned_of(x.as_bytes()));
    let (other_front, other_back) = parts_of(unsigned_of(y.as_bytes()));
    signed_cmp(
        is_negative(has_minus(x.as_bytes()), front, back),
        is_negative(has_minus(y.as_bytes()), other_front, other_back),
        size_cmp(front, back, other_front, other_back),
        size_cmp(other_front, other_back, front, back),
    )
}
