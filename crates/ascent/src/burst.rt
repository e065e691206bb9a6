//! The readings around the burst, and an acknowledgement that comes late among them.
use crate::Flight;
use crate::calls::{tell_accepting, tell_delivering, tell_passing, tell_repeating, tell_waiting};
use crate::draft::WINDOW;
use crate::journey::Journey;
use crate::late::{TOO_SHORT, released_on_too_short};
use element::reading::Reading;

/// The mast accepts as many readings as it may hold, one in a second; it sends each of them, and the relay hands it over.
fn tell_bringing(
    rt: &impl Print,
    link: &mut Flight<Reading>,
    journey: &mut Journey,
) -> anyhow::Result<()> {
    tell_accepting(rt, link, journey, WINDOW as usize)?;
    tell_sending(rt, link, journey)
}

/// The mast sends each reading that it holds, and the relay hands it over; the hut passes all of them on.
fn tell_sending(
    rt: &impl Print,
    link: &mut Flight<Reading>,
    journey: &mut Journey,
) -> anyhow::Result<()> {
    let (readings, orders) = journey.first.streams();
    println!(rt; "It sends each of them, and the relay hands it over:")?;
    for place in 0..readings.held() {
        readings.send(link, orders, place)?;
        tell_delivering(rt, link, readings, orders, 0)?;
    }
    tell_passing(rt, link, readings)
}

/// The hut acknowledges; the relay hands over a copy of that frame and holds back the frame itself.
fn tell_holding_back(
    rt: &impl Print,
    link: &mut Flight<Reading>,
    journey: &mut Journey,
) -> anyhow::Result<()> {
    println!(rt; "Near burst height, the mast accepts:")?;
    tell_bringing(rt, link, journey)?;
    let (readings, orders) = journey.first.streams();
    orders.bare(link, readings)?;
    println!(rt; "The hut acknowledges. The relay hands over a copy, and holds back the frame:")?;
    tell_repeating(rt, link, orders, readings, 0)?;
    tell_waiting(rt, link.mast_bound_air())?;
    Ok(())
}

/// The hut acknowledges more readings, and that overtakes the acknowledgement which is held back.
fn tell_passing_by(
    rt: &impl Print,
    link: &mut Flight<Reading>,
    journey: &mut Journey,
) -> anyhow::Result<()> {
    println!(rt; "The mast accepts:")?;
    tell_bringing(rt, link, journey)?;
    let (readings, orders) = journey.first.streams();
    orders.bare(link, readings)?;
    println!(rt; "The hut acknowledges. This frame overtakes the one that is held back:")?;
    tell_delivering(rt, link, orders, readings, 1)?;
    tell_waiting(rt, link.mast_bound_air())?;
    Ok(())
}

/// The balloon bursts, and the acknowledgement that was held back comes before any of these readings is sent. It is of so many
/// readings; by now, more are released.
fn tell_late(
    rt: &impl Print,
    link: &mut Flight<Reading>,
    journey: &mut Journey,
    acknowledged: usize,
) -> anyhow::Result<()> {
    println!(rt; "The balloon bursts. The mast accepts:")?;
    tell_accepting(rt, link, journey, WINDOW as usize)?;
    let (readings, orders) = journey.first.streams();
    let (released, held) = (readings.released, readings.held());
    println!(rt;
        "Only now comes the acknowledgement that was held back. It is of {acknowledged} readings; {released} are released:"
    )?;
    tell_delivering(rt, link, orders, readings, 0)?;
    println!(rt;
        "    On a cycle of {TOO_SHORT}, twice the window, it would release {} of the {} that the hut has still to get.",
        released_on_too_short(acknowledged, released, held)?,
        link.owed().hut
    )?;
    println!(rt; "The mast holds them still.")?;
    tell_sending(rt, link, journey)
}

/// The seconds around the burst.
pub(crate) fn tell_burst(
    rt: &impl Print,
    link: &mut Flight<Reading>,
    journey: &mut Journey,
) -> anyhow::Result<()> {
    tell_holding_back(rt, link, journey)?;
    let acknowledged = journey.first.hut_bound.passed.len();
    tell_passing_by(rt, link, journey)?;
    tell_late(rt, link, journey, acknowledged)
}
