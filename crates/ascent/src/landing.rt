//! The last seconds of the flight, in which the relays lose frames.
use crate::Flight;
use crate::calls::{tell_accepting, tell_delivering, tell_ordering};
use crate::draft::WINDOW;
use crate::journey::Journey;
use crate::orders::pointing_at;
use element::reading::Reading;

/// The mast sends the last readings, and the hut an order; the relays lose some of the frames.
fn tell_losses(
    rt: &impl Print,
    link: &mut Flight<Reading>,
    journey: &mut Journey,
) -> anyhow::Result<()> {
    let pointing = pointing_at(journey.balloon.second(), journey.balloon.height())?;
    let (readings, orders) = journey.first.streams();
    for place in 0..readings.held() {
        readings.send(link, orders, place)?;
    }
    readings.lose(link, 2)?;
    readings.lose(link, 0)?;
    println!(rt;
        "It sends all of them. The relay loses the first frame and the third, and hands over the second:"
    )?;
    tell_delivering(rt, link, readings, orders, 0)?;
    println!(rt; "The hut sends an order:")?;
    tell_ordering(rt, link, readings, orders, pointing)?;
    orders.lose(link, 0)?;
    println!(rt; "The relay loses that, too.")?;
    Ok(())
}

/// The last seconds before the balloon is on the ground.
pub(crate) fn tell_landing(
    rt: &impl Print,
    link: &mut Flight<Reading>,
    journey: &mut Journey,
) -> anyhow::Result<()> {
    println!(rt; "The balloon comes down. The mast accepts the last readings:")?;
    tell_accepting(rt, link, journey, WINDOW as usize)?;
    tell_losses(rt, link, journey)
}
