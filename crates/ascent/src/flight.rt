//! The flight: the first link is opened, flown, settled and closed, and on the upper part of the way up the ozone link, too; then comes what
//! both brought home.
use crate::balloon::Leg;
use crate::boards::tell_boards;
use crate::burst::tell_burst;
use crate::climb::tell_climb;
use crate::journey::Journey;
use crate::landing::tell_landing;
use crate::opening::{OwnBounds, open, tell_airs, tell_left};
use crate::ozone::tell_ozone;
use crate::profile::tell_profile;
use crate::progress::{tell_leg, tell_rest};
use crate::settling::tell_settling;
use crate::verdict::tell_verdict;
use crate::{Flight, tell_heading};
use element::reading::Reading;
use link::Record;
use protocol::Draft;

/// The own bounds of the first link's relays.
const OWN: OwnBounds = OwnBounds {
    to_hut: 5,
    to_mast: 2,
};

/// The way up: the first readings call by call, then second by second up to the burst, with the ozone link on the upper part, and the
/// seconds around the burst; answers the record of the ozone link.
fn tell_up(
    rt: &(impl Print + AllocGlobal),
    link: &mut Flight<Reading>,
    journey: &mut Journey,
) -> anyhow::Result<Record> {
    tell_heading(rt, "The first readings")?;
    tell_climb(rt, link, journey)?;
    tell_heading(rt, "The way up")?;
    tell_leg(rt, link, None, journey, Leg::Low)?;
    tell_heading(rt, "The ozone link")?;
    let record = tell_ozone(rt, link, journey)?;
    tell_heading(rt, "Around the burst")?;
    tell_rest(rt, link, journey)?;
    tell_burst(rt, link, journey)?;
    Ok(record)
}

/// The way down: second by second, the last seconds call by call, and the settle.
fn tell_down(
    rt: &(impl Print + AllocGlobal),
    link: &mut Flight<Reading>,
    journey: &mut Journey,
) -> anyhow::Result<()> {
    tell_heading(rt, "The way down")?;
    tell_leg(rt, link, None, journey, Leg::Down)?;
    tell_heading(rt, "The settle")?;
    tell_rest(rt, link, journey)?;
    tell_landing(rt, link, journey)?;
    tell_settling(rt, link, &mut journey.first)
}

/// The first link while it is open, up to a frame that still waits when it is closed; answers the record of the ozone link.
fn tell_link(
    rt: &(impl Print + AllocGlobal),
    link: &mut Flight<Reading>,
    journey: &mut Journey,
) -> anyhow::Result<Record> {
    tell_heading(rt, "The opening")?;
    tell_airs(rt, link, OWN)?;
    let record = tell_up(rt, link, journey)?;
    tell_down(rt, link, journey)?;
    let (readings, orders) = journey.first.streams();
    readings.bare(link, orders)?;
    Ok(record)
}

/// What the flight has brought home, and whether that is all.
fn tell_home(
    rt: &(impl Print + AllocGlobal),
    journey: &Journey,
    record: &Record,
    ozone_record: &Record,
) -> anyhow::Result<()> {
    tell_heading(rt, "The profile")?;
    tell_profile(rt, &journey.first.hut_bound.passed)?;
    tell_heading(rt, "The boards")?;
    tell_boards(rt, journey)?;
    tell_heading(rt, "The verdict")?;
    tell_verdict(rt, journey, record, ozone_record)
}

/// The flight from the opening to the verdict. Both links have this draft.
pub(crate) fn tell_flight(rt: &(impl Print + AllocGlobal), draft: Draft) -> anyhow::Result<()> {
    let mut journey = Journey::new(rt.alloc(), &draft);
    let mut link = open(rt.alloc(), draft, OWN)?;
    let told = tell_link(rt, &mut link, &mut journey);
    let closed = link.close();
    let ozone_record = told?;
    tell_heading(rt, "The close")?;
    println!(rt;
        "The mast acknowledges once more; before that frame is handed over, the link is closed."
    )?;
    tell_left(rt, &closed)?;
    tell_home(rt, &journey, &closed.record, &ozone_record)
}
