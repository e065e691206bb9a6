//! Tests of open links: refusals at both ends, settling, a window of 32 that is full, what opening does to airs, and want of memory.
use crate::calls::{Answer, Call, check_calls, heard};
use crate::checks::{check_eq, closed, least_draft, numbered, open, record};
use crate::kinds::ByNumber;
use air::{Air, Gauge};
use element::order::Order;
use element::ozone::Ozone;
use element::reading::Reading;
use element::wind::Wind;
use frame::Side;
use link::{Closed, Link, NotOpened, Owed, Record, Settled};
use pool::{CAPACITY, Pool};
use protocol::Placement;
use shelf::Shelf;
use std::alloc::Global;
use std::test::Fail;

/// Before anything is accepted at an end, and when its window of 2 is full.
fn begins<X: ByNumber, A: Air, B: Air>(
    link: &mut Link<X, Order, A, B>,
    end: Side,
) -> Result<(), Fail> {
    let calls = [
        (end, Call::Pass, Answer::Passed(None)),
        (end, Call::Send(0), Answer::Refused(5)),
        (end, Call::Lose(0), Answer::Refused(7)),
        (end, Call::Deliver(0), Answer::Refused(7)),
        (end, Call::Repeat(0), Answer::Refused(7)),
        (end, Call::AcceptWrong, Answer::Refused(17)),
        (end, Call::Accept(1), Answer::Done),
        (end, Call::Accept(2), Answer::Done),
        (end, Call::Accept(3), Answer::Refused(4)),
        (end, Call::AcceptWrong, Answer::Refused(4)),
        (end, Call::Send(2), Answer::Refused(5)),
    ];
    check_calls(link, &calls)
}

/// Three frames, of which the second overtakes the first, as often as the bound of 1 allows; the third comes late.
fn goes_over<X: ByNumber, A: Air, B: Air>(
    link: &mut Link<X, Order, A, B>,
    end: Side,
) -> Result<(), Fail> {
    let other = end.other();
    let calls = [
        (end, Call::Send(0), Answer::Done),
        (end, Call::Send(1), Answer::Done),
        (end, Call::Send(1), Answer::Done),
        (end, Call::Deliver(3), Answer::Refused(7)),
        (end, Call::Deliver(1), heard(0, Placement::Slot(1))),
        (end, Call::Deliver(1), Answer::Refused(8)),
        (end, Call::Repeat(1), Answer::Refused(8)),
        (end, Call::Repeat(2), Answer::Refused(7)),
        (other, Call::Pass, Answer::Passed(None)),
        (end, Call::Repeat(0), heard(0, Placement::Slot(0))),
        (end, Call::Deliver(0), heard(0, Placement::Slot(0))),
        (other, Call::Pass, Answer::Passed(Some(1))),
        (other, Call::Pass, Answer::Passed(Some(2))),
        (other, Call::Pass, Answer::Passed(None)),
        (end, Call::Deliver(0), heard(0, Placement::Outside)),
        (other, Call::Bare, Answer::Done),
        (other, Call::Repeat(0), heard(2, Placement::Bare)),
        (other, Call::Deliver(0), heard(0, Placement::Bare)),
    ];
    check_calls(link, &calls)
}

/// As many acknowledgements as the air has room for, and then nothing more goes in until one of them is lost.
fn fills_up<X: ByNumber, A: Air, B: Air>(
    link: &mut Link<X, Order, A, B>,
    end: Side,
) -> Result<(), Fail> {
    for _ in 0..CAPACITY {
        check_calls(link, &[(end, Call::Bare, Answer::Done)])?;
    }
    let calls = [
        (end, Call::Bare, Answer::Refused(6)),
        (end, Call::Send(0), Answer::Refused(5)),
        (end, Call::Accept(3), Answer::Done),
        (end, Call::Send(0), Answer::Refused(6)),
        (end, Call::Lose(CAPACITY), Answer::Refused(7)),
        (end, Call::Lose(CAPACITY - 1), Answer::Done),
        (end, Call::Send(0), Answer::Done),
        (end, Call::Lose(0), Answer::Done),
    ];
    check_calls(link, &calls)
}

/// Every call at one end, with arguments that are refused and such as are not.
fn every_call<X: ByNumber, A: Air, B: Air>(
    link: &mut Link<X, Order, A, B>,
    end: Side,
) -> Result<(), Fail> {
    begins(link, end)?;
    goes_over(link, end)?;
    fills_up(link, end)
}

/// What is left of a link that was closed: its record, and how many frames wait in its airs.
type Left = (Record, (usize, usize));

/// Every call at one end of a link with elements of the kind X on their way to the hut, and what is left then.
fn every_call_with<X: ByNumber>(alloc: Global, end: Side) -> Result<Left, Fail> {
    let draft = least_draft((2, 1), (2, 1))?;
    let mut link = open::<X, _, _>(alloc, draft, Pool::new(9), Pool::new(9))?;
    let outcome = every_call(&mut link, end);
    let left = closed(link);
    outcome?;
    Ok(left)
}

/// At either end, with each kind of element that goes to the hut.
#[test]
fn every_call_at_both_ends(rt: HostRuntime) -> Result<(), Fail> {
    let at_mast = (record((1, 0), (0, 0)), (CAPACITY - 1, 0));
    let at_hut = (record((0, 1), (0, 0)), (0, CAPACITY - 1));
    for (end, left) in [(Side::Mast, at_mast), (Side::Hut, at_hut)] {
        check_eq(&every_call_with::<Reading>(rt.alloc(), end)?, &left)?;
        check_eq(&every_call_with::<Ozone>(rt.alloc(), end)?, &left)?;
        check_eq(&every_call_with::<Wind>(rt.alloc(), end)?, &left)?;
    }
    Ok(())
}

/// The number by which settling is refused with lists of so many places, at most 8, neither of which is written then.
fn settle_refused<A: Air, B: Air>(
    link: &mut Link<Reading, Order, A, B>,
    mast_places: usize,
    hut_places: usize,
) -> Result<Option<u8>, Fail> {
    let mut mast_list = [Order::of(0); 8];
    let mut hut_list = [Reading::of(0); 8];
    let mast = mast_list.get_mut(..mast_places).ok_or("too long")?;
    let hut = hut_list.get_mut(..hut_places).ok_or("too long")?;
    let refused = numbered(link.settle(mast, hut)).err();
    check_eq(mast_list, [Order::of(0); 8])?;
    check_eq(hut_list, [Reading::of(0); 8])?;
    Ok(refused)
}

/// A list that is one place short of two windows is refused, of orders with a window of 3 and of readings with one of 2; then, by what is
/// expected, airs without room.
fn refuses_lists<A: Air, B: Air>(
    link: &mut Link<Reading, Order, A, B>,
    expected: Option<u8>,
) -> Result<(), Fail> {
    check_eq(settle_refused(link, 0, 0)?, Some(16))?;
    check_eq(settle_refused(link, 5, 8)?, Some(16))?;
    check_eq(settle_refused(link, 8, 3)?, Some(16))?;
    check_eq(settle_refused(link, 6, 4)?, expected)?;
    check_eq(settle_refused(link, 8, 8)?, expected)
}

/// Where an air has no room, settling is refused, and what is owed stays owed.
fn stays_owed<A: Air, B: Air>(link: &mut Link<Reading, Order, A, B>) -> Result<(), Fail> {
    link.accept_at_mast(Reading::of(1))?;
    refuses_lists(link, Some(18))?;
    check_eq(link.owed(), Owed { mast: 0, hut: 1 })
}

/// A link over these airs, of which one at least has no room.
fn has_no_room<A: Air + Drop, B: Air + Drop>(
    alloc: Global,
    hut_bound_air: A,
    mast_bound_air: B,
) -> Result<(), Fail> {
    let draft = least_draft((2, 0), (3, 0))?;
    let mut link = open(alloc, draft, hut_bound_air, mast_bound_air)?;
    let outcome = stays_owed(&mut link);
    let left = closed(link);
    outcome?;
    check_eq(left, (record((1, 0), (0, 0)), (0, 0)))
}

#[test]
fn settling_is_refused(rt: HostRuntime) -> Result<(), Fail> {
    let draft = least_draft((2, 0), (3, 0))?;
    let mut link = open(rt.alloc(), draft, Pool::new(0), Pool::new(0))?;
    let outcome = refuses_lists(&mut link, None);
    let left = closed(link);
    outcome?;
    check_eq(left, (record((0, 0), (0, 0)), (0, 0)))?;
    let mut memory = [0; 35];
    has_no_room(rt.alloc(), Shelf::new(&mut memory, 0), Pool::new(0))?;
    has_no_room(rt.alloc(), Pool::new(0), Shelf::new(&mut memory, 0))?;
    let mut other = [0; 0];
    has_no_room(
        rt.alloc(),
        Shelf::new(&mut memory, 0),
        Shelf::new(&mut other, 0),
    )
}

/// The mast accepts the readings with these 32 numbers, and no other then.
fn accepts_32<A: Air, B: Air>(
    link: &mut Link<Reading, Order, A, B>,
    first: u32,
) -> Result<(), Fail> {
    for i in 0..32u32 {
        link.accept_at_mast(Reading::of(first.saturating_add(i)))?;
    }
    check_calls(link, &[(Side::Mast, Call::Accept(99), Answer::Refused(4))])
}

/// Its 32 readings go over from the last to the first, so that the hut can pass none before the first comes.
fn sends_32<A: Air, B: Air>(link: &mut Link<Reading, Order, A, B>) -> Result<(), Fail> {
    for k in (0..32usize).rev() {
        let calls = [
            (Side::Hut, Call::Pass, Answer::Passed(None)),
            (Side::Mast, Call::Send(k), Answer::Done),
            (Side::Mast, Call::Deliver(0), heard(0, Placement::Slot(k))),
        ];
        check_calls(link, &calls)?;
    }
    Ok(())
}

/// A whole window is held at the mast and placed at the hut.
fn places_32<A: Air, B: Air>(link: &mut Link<Reading, Order, A, B>) -> Result<(), Fail> {
    accepts_32(link, 0)?;
    sends_32(link)
}

/// All slots of the hut are filled. Then it acknowledges the whole window at once, the mast accepts another, and settling gives it both.
fn fills_32<A: Air, B: Air>(link: &mut Link<Reading, Order, A, B>) -> Result<(), Fail> {
    places_32(link)?;
    let calls = [
        (Side::Hut, Call::Bare, Answer::Done),
        (Side::Hut, Call::Deliver(0), heard(32, Placement::Bare)),
    ];
    check_calls(link, &calls)?;
    accepts_32(link, 32)?;
    check_eq(link.owed(), Owed { mast: 0, hut: 64 })?;
    let mut mast_list = [Order::of(0); 2];
    let mut hut_list = [Reading::of(99); 65];
    let settled = link.settle(&mut mast_list, &mut hut_list)?;
    check_eq(settled, Settled { mast: 0, hut: 64 })?;
    check_eq(
        hut_list
            .iter()
            .map(|reading| reading.number())
            .eq((0..64u32).chain([99])),
        true,
    )
}

#[test]
fn a_window_of_32(rt: HostRuntime) -> Result<(), Fail> {
    let draft = least_draft((32, 0), (1, 0))?;
    let mut link = open(rt.alloc(), draft, Pool::new(0), Pool::new(0))?;
    let outcome = fills_32(&mut link);
    let left = closed(link);
    outcome?;
    check_eq(left, (record((0, 0), (0, 0)), (0, 0)))
}

/// A link that is closed while a whole window is held at one end and placed at the other.
#[test]
fn a_window_of_32_is_left(rt: HostRuntime) -> Result<(), Fail> {
    let draft = least_draft((32, 0), (1, 0))?;
    let mut link = open(rt.alloc(), draft, Pool::new(0), Pool::new(0))?;
    let outcome = places_32(&mut link);
    let left = closed(link);
    outcome?;
    check_eq(left, (record((32, 0), (0, 32)), (0, 0)))
}

/// Every frame that waits in an air is lost when the link is opened, and its bound is the smaller of its own and the drafted one. When the
/// link is closed, it has its own again, and what waits then.
#[test]
fn opening_empties_the_airs(rt: HostRuntime) -> Result<(), Fail> {
    let mut to_hut = Pool::new(9);
    let mut to_mast = Pool::new(1);
    to_hut.put(b"before")?;
    to_mast.put(b"before")?;
    to_mast.put(b"and more")?;
    let draft = least_draft((2, 3), (2, 3))?;
    let mut link = open::<Reading, _, _>(rt.alloc(), draft, to_hut, to_mast)?;
    let waiting = (
        link.hut_bound_air().waiting(),
        link.mast_bound_air().waiting(),
    );
    let bounds = (link.hut_bound_air().bound(), link.mast_bound_air().bound());
    let readings = link.draft().hut_bound();
    let sent = link.bare_from_mast();
    let Closed {
        record: left,
        hut_bound_air,
        mast_bound_air,
    } = link.close();
    sent?;
    check_eq((waiting, bounds), ((0, 0), (3, 1)))?;
    check_eq(readings, least_draft((2, 3), (2, 3))?.hut_bound())?;
    check_eq(left, record((0, 0), (0, 0)))?;
    check_eq((hut_bound_air.waiting(), hut_bound_air.bound()), (1, 9))?;
    check_eq((mast_bound_air.waiting(), mast_bound_air.bound()), (0, 1))
}

/// Every call, and settling, which gives the hut the last reading.
fn every_call_and_settling<A: Air, B: Air>(
    link: &mut Link<Reading, Order, A, B>,
) -> Result<(), Fail> {
    every_call(link, Side::Mast)?;
    let mut mast_list = [Order::of(0); 4];
    let mut hut_list = [Reading::of(0); 4];
    let settled = link.settle(&mut mast_list, &mut hut_list)?;
    check_eq(settled, Settled { mast: 0, hut: 1 })?;
    check_eq(hut_list.first(), Some(&Reading::of(3)))
}

/// What a link could not be opened with is as it was: the draft, and an air with bound 9 in which one frame waits.
fn is_back(back: NotOpened<Pool, Pool>) -> Result<(), Fail> {
    let NotOpened {
        draft,
        hut_bound_air,
        mast_bound_air,
    } = back;
    check_eq(draft, least_draft((2, 1), (2, 1))?)?;
    check_eq((hut_bound_air.waiting(), hut_bound_air.bound()), (1, 9))?;
    check_eq((mast_bound_air.waiting(), mast_bound_air.bound()), (0, 8))
}

/// A link is opened, or, where memory is short, hands everything back. This is for runs in which an allocation fails: none is made by a
/// call of an open link, so that only its opening can be refused memory.
#[test]
fn opens_or_hands_back(rt: HostRuntime) -> Result<(), Fail> {
    let draft = least_draft((2, 1), (2, 1))?;
    let mut to_hut = Pool::new(9);
    to_hut.put(b"waits")?;
    match Link::open(rt.alloc(), draft, to_hut, Pool::new(8)) {
        Ok(mut link) => {
            let outcome = every_call_and_settling(&mut link);
            let left = closed(link);
            outcome?;
            check_eq(left, (record((0, 0), (0, 0)), (0, 0)))
        }
        Err(back) => is_back(back),
    }
}
