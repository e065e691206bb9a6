//! The ozone link: a second link beside the first one, on the upper part of the way up.
use crate::Flight;
use crate::balloon::Leg;
use crate::journey::Journey;
use crate::opening::{OwnBounds, open, tell_airs, tell_left};
use crate::progress::tell_leg;
use crate::settling::tell_settling;
use element::ozone::Ozone;
use element::reading::Reading;
use link::Record;
use protocol::Draft;
use telling::Decimal;

/// The own bounds of its relays.
const OWN: OwnBounds = OwnBounds {
    to_hut: 2,
    to_mast: 3,
};

/// The open link: it is flown beside the first one to the end of the leg, then alone until every queued measurement is accepted, and what is
/// still owed is settled. While it is flown alone, no second of the flight goes by, and the first link waits.
fn tell_open_link(
    rt: &(impl Print + AllocGlobal),
    link: &mut Flight<Reading>,
    ozone_link: &mut Flight<Ozone>,
    journey: &mut Journey,
) -> anyhow::Result<()> {
    tell_airs(rt, ozone_link, OWN)?;
    tell_leg(rt, link, Some(&mut *ozone_link), journey, Leg::High)?;
    let queued = journey.ozone.hut_bound.queued();
    let turns = journey.ozone.catch_up(ozone_link)?;
    println!(rt;
        "The cell is switched off. Until the mast has accepted the {queued} queued measurements, the ozone link goes on for {turns} turns,"
    )?;
    println!(rt; "while no second of the flight goes by and the first link waits.")?;
    tell_settling(rt, ozone_link, &mut journey.ozone)
}

/// The ozone link from its opening to its close; answers its record.
pub(crate) fn tell_ozone(
    rt: &(impl Print + AllocGlobal),
    link: &mut Flight<Reading>,
    journey: &mut Journey,
) -> anyhow::Result<Record> {
    println!(rt;
        "At {} m an ozone cell is switched on. Each second it is read, and the mast accepts the measurements on a second link,",
        Decimal::Tenths(i64::from(journey.balloon.height()))
    )?;
    println!(rt;
        "as its window allows. That link is drafted on the same terms as the first one, and no orders go back on it."
    )?;
    let draft = Draft::new(link.draft().hut_bound(), link.draft().mast_bound())?;
    let mut ozone_link = open(rt.alloc(), draft, OWN)?;
    let told = tell_open_link(rt, link, &mut ozone_link, journey);
    let closed = ozone_link.close();
    told?;
    println!(rt; "The link is closed.")?;
    tell_left(rt, &closed)?;
    Ok(closed.record)
}
