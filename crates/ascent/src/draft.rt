//! The draft of the flight's two streams: the limits of their cycles, that no shorter cycles are drafted, and that the least ones are.
use crate::not_unless;
use frame::{Cycles, Format, Side};
use protocol::{Draft, Terms, least_cycle};
use refusal::Refusal;
use std::io;
use telling::{HUT_BOUND, MAST_BOUND};

/// How many readings, and how many orders, may be unacknowledged.
pub(crate) const WINDOW: u32 = 4;

/// How often a frame with a reading may be overtaken.
const READINGS_BOUND: u32 = 3;

/// How often a frame with an order may be overtaken.
const ORDERS_BOUND: u32 = 1;

/// The terms of both streams.
#[derive(Clone, Copy)]
struct Both {
    readings: Terms,
    orders: Terms,
}

impl Both {
    /// The terms of the stream that a side sends.
    fn sent_by(self, sender: Side) -> Terms {
        match sender {
            Side::Mast => self.readings,
            Side::Hut => self.orders,
        }
    }

    /// Drafts both streams, that which a side sends on a cycle of this length.
    fn draft_on(self, sender: Side, cycle: u32) -> Result<Draft, Refusal> {
        let Both { readings, orders } = self;
        match sender {
            Side::Mast => Draft::new(Terms { cycle, ..readings }, orders),
            Side::Hut => Draft::new(readings, Terms { cycle, ..orders }),
        }
    }
}

/// The terms of a stream on its least cycle, where frames of the other stream may be overtaken `other` times.
fn least_terms(bound: u32, other: u32) -> anyhow::Result<Terms> {
    Ok(Terms {
        window: WINDOW,
        bound,
        cycle: u32::try_from(least_cycle(WINDOW, bound, other))?,
    })
}

/// The two limits of a stream's cycle, the larger of which is the least cycle.
fn tell_limits(rt: &impl Print, terms: Terms, other: Terms) -> io::Result<()> {
    let (window, bound) = (u64::from(terms.window), u64::from(terms.bound));
    let for_frames = 2 * window + bound;
    let for_acknowledgements = (u64::from(other.bound) + 1) * window + 1;
    println!(rt;
        "    To tell late frames from fresh ones takes a cycle of 2 x {window} + {bound} = {for_frames} at least,"
    )?;
    println!(rt;
        "    and late acknowledgements from fresh ones one of ({} + 1) x {window} + 1 = {for_acknowledgements}.",
        other.bound
    )?;
    let larger = for_frames.max(for_acknowledgements);
    println!(rt;
        "    The larger is {larger}, which is {}the least cycle.",
        not_unless(larger == u64::from(terms.cycle))
    )
}

/// That the cycle which is one shorter is refused, and how many of all shorter ones over the window.
fn tell_shorter(rt: &impl Print, both: Both, sender: Side) -> io::Result<()> {
    let Terms { window, cycle, .. } = both.sent_by(sender);
    let (first, last) = (window.saturating_add(1), cycle.saturating_sub(1));
    match both.draft_on(sender, last) {
        Ok(_) => println!(rt; "    On a cycle of {last} it is drafted all the same.")?,
        Err(refusal) => println!(rt; "    On a cycle of {last} it is not drafted: {refusal}.")?,
    }
    let mut refused = 0u32;
    for cycle in first..=last {
        if both.draft_on(sender, cycle) == Err(Refusal::CycleOutOfLimits) {
            refused = refused.saturating_add(1);
        }
    }
    println!(rt;
        "    Of the {} cycles from {first} to {last}, {refused} are refused so.",
        cycle.saturating_sub(first)
    )
}

/// The terms of the stream that a side sends, and why its cycle is as long as it is.
fn tell_terms(rt: &impl Print, both: Both, sender: Side) -> io::Result<()> {
    let (terms, other) = (both.sent_by(sender), both.sent_by(sender.other()));
    let stream = match sender {
        Side::Mast => "Readings",
        Side::Hut => "Orders",
    };
    println!(rt;
        "{stream}: window {}, overtaking bound {}.",
        terms.window, terms.bound
    )?;
    tell_limits(rt, terms, other)?;
    tell_shorter(rt, both, sender)
}

/// The cycles of a format: that of its acknowledgements, and that of its numbers.
fn cycles_of(format: Format) -> (u32, u32) {
    let Cycles { ack, number } = format.cycles;
    (u32::from(ack), u32::from(number))
}

/// Whether the frames that are told of are numbered on the cycles of a draft.
fn is_flown(draft: &Draft) -> bool {
    let (readings, orders) = (draft.hut_bound().cycle, draft.mast_bound().cycle);
    cycles_of(HUT_BOUND) == (orders, readings) && cycles_of(MAST_BOUND) == (readings, orders)
}

/// Drafts both streams on their least cycles, which is the draft of the flight, and tells why on no shorter ones.
pub(crate) fn tell_draft(rt: &impl Print) -> anyhow::Result<Draft> {
    println!(rt;
        "Before the flight, mast and hut draft their two streams: readings to the hut, orders to the mast."
    )?;
    let both = Both {
        readings: least_terms(READINGS_BOUND, ORDERS_BOUND)?,
        orders: least_terms(ORDERS_BOUND, READINGS_BOUND)?,
    };
    tell_terms(rt, both, Side::Mast)?;
    tell_terms(rt, both, Side::Hut)?;
    let draft = Draft::new(both.readings, both.orders)?;
    println!(rt;
        "On cycles of {} and {} it is drafted; the frames below are {}numbered on these.",
        both.readings.cycle,
        both.orders.cycle,
        not_unless(is_flown(&draft))
    )?;
    Ok(draft)
}
