//! The two histories that the limits of a cycle are about, on the least cycles: a frame, and an acknowledgement, that is delivered after
//! as many younger ones as the bound allows. On a cycle that is one shorter the first would fill a slot that is not its own, and the
//! second would release a window of readings that nobody has received.
use crate::calls::{Answer, Call, check_calls, heard};
use crate::checks::{check_eq, closed, least_draft, open, record};
use crate::kinds::ByNumber;
use air::Air;
use element::order::Order;
use element::reading::Reading;
use frame::Side;
use link::{Link, Settled};
use pool::Pool;
use protocol::Placement;
use std::alloc::Global;
use std::test::Fail;

/// The mast accepts the readings from one number up to another.
fn accepts<A: Air, B: Air>(
    link: &mut Link<Reading, Order, A, B>,
    first: u32,
    end: u32,
) -> Result<(), Fail> {
    for number in first..end {
        link.accept_at_mast(Reading::of(number))?;
    }
    Ok(())
}

/// The hut passes on the readings from one number up to another.
fn passes<A: Air, B: Air>(
    link: &mut Link<Reading, Order, A, B>,
    first: u32,
    end: u32,
) -> Result<(), Fail> {
    for number in first..end {
        check_eq(link.pass_at_hut(), Some(Reading::of(number)))?;
    }
    Ok(())
}

/// The held readings from place k up to the window go over, each past so many older frames that wait, and fill the slots of these places.
fn goes_over<A: Air, B: Air>(
    link: &mut Link<Reading, Order, A, B>,
    k: usize,
    window: usize,
    older: usize,
) -> Result<(), Fail> {
    for k in k..window {
        let calls = [
            (Side::Mast, Call::Send(k), Answer::Done),
            (
                Side::Mast,
                Call::Deliver(older),
                heard(0, Placement::Slot(k)),
            ),
        ];
        check_calls(link, &calls)?;
    }
    Ok(())
}

/// The hut acknowledges, past so many older frames that wait, and the mast releases so many readings.
fn acknowledges<A: Air, B: Air>(
    link: &mut Link<Reading, Order, A, B>,
    older: usize,
    released: usize,
) -> Result<(), Fail> {
    let calls = [
        (Side::Hut, Call::Bare, Answer::Done),
        (
            Side::Hut,
            Call::Deliver(older),
            heard(released, Placement::Bare),
        ),
    ];
    check_calls(link, &calls)
}

/// The frame of the first reading is repeated and waits, while its whole window is passed on, and then one reading after another that
/// overtakes it, as many as the bound allows. It is outside then.
fn late_frame<A: Air, B: Air>(
    link: &mut Link<Reading, Order, A, B>,
    window: u32,
    bound: u32,
) -> Result<(), Fail> {
    accepts(link, 0, window)?;
    goes_over(link, 1, window as usize, 0)?;
    let repeated = [
        (Side::Mast, Call::Send(0), Answer::Done),
        (Side::Mast, Call::Repeat(0), heard(0, Placement::Slot(0))),
    ];
    check_calls(link, &repeated)?;
    passes(link, 0, window)?;
    acknowledges(link, 0, window as usize)?;
    let last = window.saturating_add(bound);
    for number in window..last {
        link.accept_at_mast(Reading::of(number))?;
        goes_over(link, 0, 1, 1)?;
        passes(link, number, number.saturating_add(1))?;
        acknowledges(link, 0, 1)?;
    }
    let late = [
        (Side::Mast, Call::Accept(last), Answer::Done),
        (Side::Mast, Call::Send(0), Answer::Done),
        (Side::Mast, Call::Deliver(1), Answer::Refused(8)),
        (Side::Mast, Call::Deliver(0), heard(0, Placement::Outside)),
        (Side::Mast, Call::Deliver(0), heard(0, Placement::Slot(0))),
    ];
    check_calls(link, &late)?;
    passes(link, last, last.saturating_add(1))
}

/// The first acknowledgement waits, while one window of readings after another goes over, and its acknowledgement overtakes the first, as
/// often as the bound allows. The mast holds one more window when the first comes, and releases none of it.
fn late_acknowledgement<A: Air, B: Air>(
    link: &mut Link<Reading, Order, A, B>,
    window: u32,
    bound: u32,
) -> Result<(), Fail> {
    check_calls(link, &[(Side::Hut, Call::Bare, Answer::Done)])?;
    let mut number = 0u32;
    for _ in 0..bound {
        let end = number.saturating_add(window);
        accepts(link, number, end)?;
        goes_over(link, 0, window as usize, 0)?;
        passes(link, number, end)?;
        acknowledges(link, 1, window as usize)?;
        number = end;
    }
    accepts(link, number, number.saturating_add(window))?;
    let late = [
        (Side::Hut, Call::Bare, Answer::Done),
        (Side::Hut, Call::Deliver(1), Answer::Refused(8)),
        (Side::Hut, Call::Deliver(0), heard(0, Placement::Bare)),
        (Side::Hut, Call::Deliver(0), heard(0, Placement::Bare)),
    ];
    check_calls(link, &late)?;
    let mut mast_list = [Order::of(0); 2];
    let mut hut_list = [Reading::of(0); 64];
    let settled = link.settle(&mut mast_list, &mut hut_list)?;
    check_eq(
        settled,
        Settled {
            mast: 0,
            hut: window as usize,
        },
    )?;
    check_eq(hut_list.first(), Some(&Reading::of(number)))
}

/// Both histories, with a window, and the bound in the direction that counts.
fn both(alloc: Global, window: u32, bound: u32) -> Result<(), Fail> {
    let draft = least_draft((window, bound), (1, 0))?;
    let mut link = open(alloc, draft, Pool::new(255), Pool::new(255))?;
    let outcome = late_frame(&mut link, window, bound);
    let left = closed(link);
    outcome?;
    check_eq(left, (record((1, 0), (0, 0)), (0, 0)))?;
    let draft = least_draft((window, 0), (1, bound))?;
    let mut link = open(alloc, draft, Pool::new(255), Pool::new(255))?;
    let outcome = late_acknowledgement(&mut link, window, bound);
    let left = closed(link);
    outcome?;
    check_eq(left, (record((0, 0), (0, 0)), (0, 0)))
}

#[test]
fn late_at_the_limits(rt: HostRuntime) -> Result<(), Fail> {
    for window in [1, 2, 3, 7, 32] {
        for bound in [0, 1, 2, 5] {
            both(rt.alloc(), window, bound)?;
        }
    }
    both(rt.alloc(), 4, 255)
}
