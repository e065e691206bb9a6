//! The worked cases of numbers that start over: on a cycle of 17 by itself, and at ends that count their readings on it.
use crate::drafts::terms;
use crate::kinds::Worked;
use element::Kind;
use element::order::Order;
use element::reading::Reading;
use frame::{Format, Frame, LONGEST, Side, write};
use link::{End, Hearing};
use protocol::{Cycle, Draft, Placement};
use refusal::Refusal;
use std::alloc::{AllocError, Global};

/// Windows of 4, and readings on the cycle of 17.
fn draft() -> Result<Draft, Refusal> {
    Draft::new(terms(4, 0, 17), terms(4, 0, 8))
}

/// What an end makes of a frame that is written in a format.
fn hears<O: Kind, I: Kind>(
    end: &mut End<O, I>,
    format: Format,
    frame: Frame<I>,
) -> Result<Hearing, Refusal> {
    let mut area = [0; LONGEST];
    let n = write(format, &frame, &mut area)?;
    end.hear(&area[..n])
}

/// E on the cycle: the slots of a window of 4 whose first number is 15 stand for 15, 16, 0 and 1.
fn slots_on_cycle() -> bool {
    let Some(cycle) = Cycle::new(17) else {
        return false;
    };
    let place = |number| cycle.place(15, 4, number);
    [0, 1, 2, 3].map(|d| cycle.after(15, d)) == [15, 16, 0, 1]
        && place(1) == Placement::Slot(3)
        && place(2) == Placement::Outside
        && place(14) == Placement::Outside
}

/// What becomes of a reading with this number at the hut.
fn placed(
    hut: &mut End<Order, Reading>,
    format: Format,
    number: u16,
) -> Result<Placement, Refusal> {
    let frame = Frame::Laden {
        ack: 0,
        number,
        element: Reading::FIRST,
    };
    Ok(hears(hut, format, frame)?.placement)
}

/// What becomes of readings with the numbers 1, 2 and 14 at a new hut, after it has passed on those with the numbers 0 to 14.
fn placements(hut: &mut End<Order, Reading>, format: Format) -> Result<[Placement; 3], Refusal> {
    for number in 0..15 {
        placed(hut, format, number)?;
        hut.pass();
    }
    Ok([
        placed(hut, format, 1)?,
        placed(hut, format, 2)?,
        placed(hut, format, 14)?,
    ])
}

/// E at the hut, whose first slot is free still, so that it acknowledges 15.
fn slots_at_hut(alloc: Global) -> Result<bool, AllocError> {
    let Ok(draft) = draft() else {
        return Ok(false);
    };
    let mut hut = End::new(alloc, &draft, Side::Hut)?;
    let expected = [Placement::Slot(3), Placement::Outside, Placement::Outside];
    Ok(
        placements(&mut hut, draft.format(Side::Mast)) == Ok(expected)
            && hut.bare_frame() == Frame::Bare { ack: 15 },
    )
}

/// E: a window of 4 whose first number is 15, on a cycle of 17: number 1 stands for slot 3, and 2 and 14 for none.
pub(crate) fn slots(alloc: Global) -> Result<bool, AllocError> {
    Ok(slots_on_cycle() && slots_at_hut(alloc)?)
}

/// F on the cycle.
fn releases_on_cycle() -> bool {
    let Some(cycle) = Cycle::new(17) else {
        return false;
    };
    [1, 2, 14, 15].map(|ack| cycle.released(15, 3, ack)) == [3, 0, 0, 0]
}

/// A new mast has 15 readings acknowledged, and accepts three more.
fn hold_three(mast: &mut End<Reading, Order>, format: Format) -> Result<(), Refusal> {
    for next in 1..=15 {
        mast.accept(Reading::FIRST)?;
        hears(mast, format, Frame::Bare { ack: next })?;
    }
    for _ in 0..3 {
        mast.accept(Reading::FIRST)?;
    }
    Ok(())
}

/// How many an acknowledgement releases then.
fn released(mast: &mut End<Reading, Order>, format: Format, ack: u16) -> Result<usize, Refusal> {
    hold_three(mast, format)?;
    Ok(hears(mast, format, Frame::Bare { ack })?.released)
}

/// The last of the three has number 0 then, and there is no fourth.
fn frames_at_mast(alloc: Global) -> Result<bool, AllocError> {
    let Ok(draft) = draft() else {
        return Ok(false);
    };
    let mut mast = End::new(alloc, &draft, Side::Mast)?;
    let held = hold_three(&mut mast, draft.format(Side::Hut));
    let last = Frame::Laden {
        ack: 0,
        number: 0,
        element: Reading::FIRST,
    };
    Ok(
        held == Ok(())
            && mast.format() == draft.format(Side::Mast)
            && mast.laden_frame(2) == Some(last)
            && mast.laden_frame(3) == None,
    )
}

/// F at the mast, which is a new one for each acknowledgement.
fn releases_at_mast(alloc: Global) -> Result<bool, AllocError> {
    let Ok(draft) = draft() else {
        return Ok(false);
    };
    for (ack, expected) in [(1, 3), (2, 0), (14, 0), (15, 0)] {
        let mut mast = End::new(alloc, &draft, Side::Mast)?;
        if released(&mut mast, draft.format(Side::Hut), ack) != Ok(expected) {
            return Ok(false);
        }
    }
    Ok(true)
}

/// F: 3 held whose first has number 15, on a cycle of 17: acknowledgements 1, 2, 14 and 15 release 3, 0, 0 and 0.
pub(crate) fn releases(alloc: Global) -> Result<bool, AllocError> {
    Ok(releases_on_cycle() && releases_at_mast(alloc)? && frames_at_mast(alloc)?)
}
