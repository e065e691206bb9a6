//! How a link is opened over the airs of two relays, and what it leaves when it is closed.
use crate::Flight;
use crate::sides::name_of;
use air::{Air, Gauge};
use element::Kind;
use frame::Side;
use link::{Closed, EndRecord, Link};
use pool::Pool;
use protocol::Draft;
use std::alloc::{AllocError, Global};
use std::io;

/// How often each of two relays itself lets a frame be overtaken, whatever is drafted.
#[derive(Clone, Copy)]
pub(crate) struct OwnBounds {
    pub to_hut: u8,
    pub to_mast: u8,
}

/// Opens a link over the airs of two relays.
pub(crate) fn open<X: Kind>(
    alloc: Global,
    draft: Draft,
    own: OwnBounds,
) -> Result<Flight<X>, AllocError> {
    let (to_hut, to_mast) = (Pool::new(own.to_hut), Pool::new(own.to_mast));
    Ok(Link::open(alloc, draft, to_hut, to_mast)?)
}

/// An air of an open link, whose bound is the smaller of the drafted one and its own.
fn tell_air<A: Air>(rt: &impl Print, to: Side, air: &A, drafted: u32, own: u8) -> io::Result<()> {
    println!(rt;
        "    To the {}: room for {} frames, bound {}: the smaller of {drafted}, as drafted, and {own}, the relay's own.",
        name_of(to),
        air.capacity(),
        air.bound()
    )
}

/// Both airs of a link that was just opened.
pub(crate) fn tell_airs<X: Kind>(
    rt: &impl Print,
    link: &Flight<X>,
    own: OwnBounds,
) -> io::Result<()> {
    let (hut_bound, mast_bound) = (link.draft().hut_bound(), link.draft().mast_bound());
    println!(rt; "The link is opened over the airs of two relays:")?;
    tell_air(
        rt,
        Side::Hut,
        link.hut_bound_air(),
        hut_bound.bound,
        own.to_hut,
    )?;
    tell_air(
        rt,
        Side::Mast,
        link.mast_bound_air(),
        mast_bound.bound,
        own.to_mast,
    )
}

/// What an end kept when the link was closed.
fn tell_record(rt: &impl Print, end: Side, record: &EndRecord) -> io::Result<()> {
    println!(rt;
        "    The {} holds {} and has placed {}.",
        name_of(end),
        record.held,
        record.placed
    )
}

/// What a relay's air is when the link has given it back.
fn tell_released<A: Air>(rt: &impl Print, to: Side, air: &A) -> io::Result<()> {
    println!(rt;
        "    The air to the {}: {} waiting, bound {}, the relay's own again.",
        name_of(to),
        air.waiting(),
        air.bound()
    )
}

/// What a closed link has left.
pub(crate) fn tell_left(rt: &impl Print, closed: &Closed<Pool, Pool>) -> io::Result<()> {
    println!(rt; "It leaves its record and the airs:")?;
    tell_record(rt, Side::Mast, &closed.record.mast)?;
    tell_record(rt, Side::Hut, &closed.record.hut)?;
    tell_released(rt, Side::Hut, &closed.hut_bound_air)?;
    tell_released(rt, Side::Mast, &closed.mast_bound_air)
}
