//! Long flights of calls that are drawn, on cycles as short as they may be, compared with the plain model call by call.
use crate::calls::{Answer, Call, called};
use crate::checks::{check_eq, closed, least_draft, next_draw, open, record};
use crate::kinds::ByNumber;
use crate::model::Model;
use air::Air;
use element::order::Order;
use element::ozone::Ozone;
use element::reading::Reading;
use element::wind::Wind;
use frame::Side;
use link::{Link, Owed};
use pool::{CAPACITY, Pool};
use std::alloc::Global;
use std::test::Fail;

/// What was passed on at each end, in sequence.
#[derive(Drop)]
struct Passed {
    at_mast: Vec<u32>,
    at_hut: Vec<u32>,
}

/// A place that a number picks, most often one of the oldest two.
fn place(draw: u32) -> usize {
    let wide = (draw >> 12 & 0x1f) as usize;
    match draw >> 20 & 0x1f {
        0..=11 => 0,
        12..=23 => 1,
        24..=29 => wide % 4,
        _ => wide,
    }
}

/// A call at a side that a number picks.
fn drawn(draw: u32) -> (Side, Call) {
    let side = if draw >> 25 & 1 == 0 {
        Side::Mast
    } else {
        Side::Hut
    };
    let k = place(draw);
    let call = match draw >> 26 {
        0..=8 => Call::Accept(draw),
        9..=18 => Call::Send(k),
        19..=23 => Call::Bare,
        24 => Call::Lose(k),
        25 => Call::AcceptWrong,
        26..=45 => Call::Deliver(k),
        46..=50 => Call::Repeat(k),
        _ => Call::Pass,
    };
    (side, call)
}

/// One call of a link and of the model: the same answer, and the same is owed.
fn same_call<X: ByNumber, A: Air, B: Air>(
    link: &mut Link<X, Order, A, B>,
    model: &mut Model,
    passed: &mut Passed,
    draw: u32,
) -> Result<(), Fail> {
    let (side, call) = drawn(draw);
    let answer = called(link, side, call);
    check_eq(answer, model.called(side, call)?)?;
    match (answer, side) {
        (Answer::Passed(Some(element)), Side::Mast) => passed.at_mast.push(element)?,
        (Answer::Passed(Some(element)), Side::Hut) => passed.at_hut.push(element)?,
        _ => {}
    }
    let owed = Owed {
        mast: model.mast_bound.owed(),
        hut: model.hut_bound.owed(),
    };
    check_eq(link.owed(), owed)
}

/// Both are settled: each list gets the same, from its front, and its other places stay as they were.
fn same_settle<X: ByNumber, A: Air, B: Air>(
    link: &mut Link<X, Order, A, B>,
    model: &mut Model,
    passed: &mut Passed,
    alloc: Global,
) -> Result<(), Fail> {
    let mut mast_list = [Order::of(0); 64];
    let mut hut_list = vec![in alloc; X::of(0); 64]?;
    let settled = link.settle(&mut mast_list, &mut hut_list)?;
    let orders: Vec<u32> = mast_list.iter().map(|order| order.number()).collect(alloc)?;
    let elements: Vec<u32> = hut_list
        .iter()
        .map(|element| element.number())
        .collect(alloc)?;
    let (at_mast, others) = orders.split_at_checked(settled.mast).ok_or("too many")?;
    check_eq(others.iter().all(|number| *number == 0), true)?;
    passed.at_mast.extend_from_slice(at_mast)?;
    let (at_hut, others) = elements.split_at_checked(settled.hut).ok_or("too many")?;
    check_eq(others.iter().all(|number| *number == 0), true)?;
    passed.at_hut.extend_from_slice(at_hut)?;
    let (mast, hut) = model.settled(alloc)?;
    check_eq((at_mast, at_hut), (mast.as_slice(), hut.as_slice()))?;
    check_eq(link.owed(), Owed { mast: 0, hut: 0 })
}

/// So many calls, with a settle now and then and in the end. What each end has passed on is then just what the other has accepted.
fn flies<X: ByNumber, A: Air, B: Air>(
    link: &mut Link<X, Order, A, B>,
    model: &mut Model,
    alloc: Global,
    calls: usize,
) -> Result<(), Fail> {
    let mut passed = Passed {
        at_mast: Vec::new(alloc),
        at_hut: Vec::new(alloc),
    };
    let mut draw = 2_026;
    for _ in 0..calls {
        draw = next_draw(draw);
        same_call(link, model, &mut passed, draw)?;
        if draw >> 8 & 0x1ff == 0 {
            same_settle(link, model, &mut passed, alloc)?;
        }
    }
    same_settle(link, model, &mut passed, alloc)?;
    check_eq(passed.at_mast.as_slice(), model.mast_bound.accepted())?;
    check_eq(passed.at_hut.as_slice(), model.hut_bound.accepted())
}

/// A flight of streams with these windows and bounds, with elements of the kind X on their way to the hut; answers how many
/// acknowledgements of these came late.
fn flown<X: ByNumber>(
    alloc: Global,
    hut_bound: (u32, u32),
    mast_bound: (u32, u32),
    calls: usize,
) -> Result<usize, Fail> {
    let draft = least_draft(hut_bound, mast_bound)?;
    let mut model = Model::new(alloc, hut_bound, mast_bound, CAPACITY);
    let mut link = open::<X, _, _>(alloc, draft, Pool::new(255), Pool::new(255))?;
    let outcome = flies(&mut link, &mut model, alloc, calls);
    let left = closed(link);
    outcome?;
    check_eq(left, (record((0, 0), (0, 0)), (0, 0)))?;
    Ok(model.hut_bound.late)
}

#[test]
fn flights_like_the_model(rt: HostRuntime) -> Result<(), Fail> {
    flown::<Reading>(rt.alloc(), (1, 0), (1, 0), 5_000)?;
    flown::<Reading>(rt.alloc(), (1, 1), (1, 1), 10_000)?;
    flown::<Reading>(rt.alloc(), (2, 1), (2, 1), 10_000)?;
    flown::<Reading>(rt.alloc(), (32, 1), (5, 255), 5_000)?;
    flown::<Ozone>(rt.alloc(), (2, 1), (2, 1), 2_000)?;
    flown::<Wind>(rt.alloc(), (2, 1), (2, 1), 2_000)?;
    let late = [
        flown::<Reading>(rt.alloc(), (4, 3), (4, 7), 5_000)?,
        flown::<Ozone>(rt.alloc(), (4, 3), (4, 7), 5_000)?,
        flown::<Wind>(rt.alloc(), (4, 3), (4, 7), 5_000)?,
    ];
    for acknowledgements in late {
        check_eq(acknowledgements > 20, true)?;
    }
    Ok(())
}
