//! The orders of the flight: where the antenna is to point, where the receiver is to be tuned, and launch notes.
use element::Kind;
use element::order::Order;

/// Where the mast's receiver is tuned first, in kHz.
pub(crate) const TUNING: Order = Order::Tune { khz: 403_500 };

/// How fast the wind carries the balloon away, in decimetres a second.
const WIND: u64 = 80;

/// The pointing at a balloon of this height, in decimetres, so many seconds from release. Its bearing turns by a hundredth of a degree each
/// second. Its elevation is as much of 90 degrees as the height is of height and distance together.
pub(crate) fn pointing_at(second: u32, height: u32) -> anyhow::Result<Order> {
    let distance = u64::from(second) * WIND + 1;
    let height = u64::from(height);
    let order = Order::Point {
        bearing: u16::try_from((u64::from(second) + 7_500) % 36_000)?,
        elevation: u16::try_from(height * 9_000 / (height + distance))?,
    };
    Ok(order.make()?)
}

/// The order that the hut makes in a second: once a minute a pointing, or in its place, each once in a quarter of an hour, a tuning or a
/// note.
pub(crate) fn order_at(second: u32, height: u32) -> anyhow::Result<Option<Order>> {
    if second % 60 != 30 {
        return Ok(None);
    }
    let minute = second / 60;
    let order = match minute % 15 {
        4 => Order::Tune {
            khz: 403_500 + minute % 40,
        }
        .make()?,
        9 => Order::Note { number: minute }.make()?,
        _ => pointing_at(second, height)?,
    };
    Ok(Some(order))
}
