//! What several tests use.
use air::{Air, Gauge};
use element::Kind;
use element::order::Order;
use link::{Closed, EndRecord, Link, Record};
use protocol::{Draft, Terms, least_cycle};
use refusal::Refusal;
use std::alloc::{AllocError, Global};
use std::fmt::Debug;
use std::test::Fail;

/// Fails where two values differ. It takes no handle, so no helper of these tests can end the process.
pub(crate) fn check_eq<T: PartialEq + Debug + Drop>(left: T, right: T) -> Result<(), Fail> {
    if left == right {
        return Ok(());
    }
    Err(Fail::new(format_args!("{left:?} is not {right:?}")))
}

/// An answer with the number of a refusal in its place.
pub(crate) fn numbered<T: Drop>(answer: Result<T, Refusal>) -> Result<T, u8> {
    answer.map_err(Refusal::number)
}

/// An answer with the number and the place of a refusal in its place.
pub(crate) fn number_and_place<T: Drop>(
    answer: Result<T, Refusal>,
) -> Result<T, (u8, Option<usize>)> {
    answer.map_err(|refusal| (refusal.number(), refusal.place()))
}

/// The next number of a fixed sequence that looks random.
pub(crate) fn next_draw(draw: u32) -> u32 {
    draw.wrapping_mul(1_664_525).wrapping_add(1_013_904_223)
}

/// The terms of a stream with this window and this bound, on the least cycle where the other stream has the bound `other`.
fn least_terms(window: u32, bound: u32, other: u32) -> Result<Terms, Fail> {
    Ok(Terms {
        window,
        bound,
        cycle: u32::try_from(least_cycle(window, bound, other))?,
    })
}

/// The draft of two streams, each by its window and its bound, on the least cycles.
pub(crate) fn least_draft(readings: (u32, u32), orders: (u32, u32)) -> Result<Draft, Fail> {
    let hut_bound = least_terms(readings.0, readings.1, orders.1)?;
    let mast_bound = least_terms(orders.0, orders.1, readings.1)?;
    Ok(Draft::new(hut_bound, mast_bound)?)
}

/// Opens a link over two airs, which are let go where there is no memory.
pub(crate) fn open<X: Kind, A: Air + Drop, B: Air + Drop>(
    alloc: Global,
    draft: Draft,
    hut_bound_air: A,
    mast_bound_air: B,
) -> Result<Link<X, Order, A, B>, AllocError> {
    Ok(Link::open(alloc, draft, hut_bound_air, mast_bound_air)?)
}

/// Closes a link, and answers its record and how many frames wait in its airs, that to the hut first.
pub(crate) fn closed<X: Kind, A: Air + Drop, B: Air + Drop>(
    link: Link<X, Order, A, B>,
) -> (Record, (usize, usize)) {
    let Closed {
        record,
        hut_bound_air,
        mast_bound_air,
    } = link.close();
    (record, (hut_bound_air.waiting(), mast_bound_air.waiting()))
}

/// The record of ends that hold so many elements and have placed so many; the mast's number is the first of each two.
pub(crate) fn record(held: (usize, usize), placed: (usize, usize)) -> Record {
    Record {
        mast: EndRecord {
            held: held.0,
            placed: placed.0,
        },
        hut: EndRecord {
            held: held.1,
            placed: placed.1,
        },
    }
}
