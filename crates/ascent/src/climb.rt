//! The first readings, call by call: a relay that loses a frame, repeats one and lets young ones overtake an old one, up to the bound;
//! and an order that comes back.
use crate::Flight;
use crate::calls::{
    tell_accepting, tell_delivering, tell_ordering, tell_passing, tell_repeating, tell_waiting,
};
use crate::draft::WINDOW;
use crate::journey::Journey;
use crate::orders::TUNING;
use element::reading::Reading;
use telling::Told;

/// The mast accepts as many readings as it may hold, tries one more, and sends what it holds.
fn tell_sending(
    rt: &impl Print,
    link: &mut Flight<Reading>,
    journey: &mut Journey,
) -> anyhow::Result<()> {
    println!(rt; "The balloon is released. Each second the mast accepts a reading:")?;
    tell_accepting(rt, link, journey, WINDOW as usize)?;
    journey.read()?;
    let (readings, orders) = journey.first.streams();
    match readings.accept(link)? {
        Ok(_) => println!(rt; "It accepts one more.")?,
        Err(refusal) => println!(rt;
            "One more it does not accept: {refusal}. That one is queued."
        )?,
    }
    for place in 0..readings.held() {
        readings.send(link, orders, place)?;
    }
    println!(rt; "It sends all that it holds.")?;
    tell_waiting(rt, link.hut_bound_air())?;
    Ok(())
}

/// The relay loses the second frame, and lets others overtake the first as often as the bound allows.
fn tell_overtaking(
    rt: &impl Print,
    link: &mut Flight<Reading>,
    journey: &mut Journey,
) -> anyhow::Result<()> {
    let (readings, orders) = journey.first.streams();
    readings.lose(link, 1)?;
    println!(rt;
        "The relay loses the second frame, and lets the third and the fourth overtake the first:"
    )?;
    tell_delivering(rt, link, readings, orders, 1)?;
    tell_delivering(rt, link, readings, orders, 1)?;
    tell_waiting(rt, link.hut_bound_air())?;
    readings.send(link, orders, 1)?;
    println!(rt;
        "The mast sends the second reading once more. That overtakes the first frame, too:"
    )?;
    tell_delivering(rt, link, readings, orders, 1)?;
    tell_waiting(rt, link.hut_bound_air())?;
    readings.send(link, orders, 3)?;
    println!(rt;
        "It sends the fourth once more. The first frame has been overtaken often enough:"
    )?;
    tell_delivering(rt, link, readings, orders, 1)
}

/// The relay repeats the first frame, and then hands over both that wait; the second of them brings nothing new.
fn tell_coming(
    rt: &impl Print,
    link: &mut Flight<Reading>,
    journey: &mut Journey,
) -> anyhow::Result<()> {
    let (readings, orders) = journey.first.streams();
    println!(rt; "The relay repeats the first frame, and then hands it over:")?;
    tell_repeating(rt, link, readings, orders, 0)?;
    tell_delivering(rt, link, readings, orders, 0)?;
    tell_passing(rt, link, readings)?;
    println!(rt; "Now comes the frame that was held back:")?;
    tell_delivering(rt, link, readings, orders, 0)
}

/// The hut sends an order, whose frame acknowledges the readings; the mast passes it on.
fn tell_order(
    rt: &impl Print,
    link: &mut Flight<Reading>,
    journey: &mut Journey,
) -> anyhow::Result<()> {
    println!(rt; "The hut sends an order, and acknowledges the readings with it:")?;
    let (readings, orders) = journey.first.streams();
    tell_ordering(rt, link, readings, orders, TUNING)?;
    tell_delivering(rt, link, orders, readings, 0)?;
    match orders.pass(link)? {
        Some(order) => println!(rt; "The mast passes on: {}.", Told(order))?,
        None => println!(rt; "The mast has nothing to pass on.")?,
    }
    Ok(())
}

/// The reading that was queued is accepted and sent, and its frame acknowledges the order.
fn tell_queued(
    rt: &impl Print,
    link: &mut Flight<Reading>,
    journey: &mut Journey,
) -> anyhow::Result<()> {
    let (readings, orders) = journey.first.streams();
    let reading = readings.accept(link)??;
    println!(rt; "Now the mast accepts the queued reading, and sends it:")?;
    println!(rt; "    {}", Told(reading))?;
    readings.send(link, orders, 0)?;
    tell_delivering(rt, link, readings, orders, 0)?;
    tell_passing(rt, link, readings)
}

/// The first seconds of the flight.
pub(crate) fn tell_climb(
    rt: &impl Print,
    link: &mut Flight<Reading>,
    journey: &mut Journey,
) -> anyhow::Result<()> {
    tell_sending(rt, link, journey)?;
    tell_overtaking(rt, link, journey)?;
    tell_coming(rt, link, journey)?;
    tell_order(rt, link, journey)?;
    tell_queued(rt, link, journey)
}
