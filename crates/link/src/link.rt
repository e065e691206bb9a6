//! An open link.
ghost use Rattle.std.specs.Prelude.{◌≡◌};
ghost use Rattle.frame.specs.declared.Side.TheVariants.{Mast, Hut};
ghost use Rattle.link.specs.Ends.{drafted, settings_of};

use crate::{End, EndRecord};
use protocol::Draft;
use tight::Tight;

mod calls;
mod opening;
mod settling;

/// An open link: the mast, the hut, and between them an air for each direction. X is the kind of element that goes to the hut, and Y the
/// kind that goes to the mast; A and B are the airs that carry them.
///
/// It owns all of these. It cannot be let go, but only closed, so that its record tells what is left behind.
pub struct Link<X, Y, A, B> {
    draft: Draft,
    mast: End<X, Y>,
    hut: End<Y, X>,
    hut_bound_air: Tight<A>,
    mast_bound_air: Tight<B>,
    /// both ends are set as drafted
    ghost mast_set: { settings_of mast ≡ drafted Mast draft.hut_bound draft.mast_bound },
    ghost hut_set: { settings_of hut ≡ drafted Hut draft.hut_bound draft.mast_bound },
    /// each air is held to the drafted bound
    ghost hut_bound_held: { hut_bound_air.given ≡ draft.hut_bound.bound },
    ghost mast_bound_held: { mast_bound_air.given ≡ draft.mast_bound.bound },
}

/// The record of a closed link.
#[derive(Drop, PartialEq, Eq, Debug)]
pub struct Record {
    pub mast: EndRecord,
    pub hut: EndRecord,
}

/// What is left of a link that was closed: its record, and the airs with the frames that wait in them, each held to its own bound again.
#[derive(Drop)]
pub struct Closed<A, B> {
    pub record: Record,
    pub hut_bound_air: A,
    pub mast_bound_air: B,
}

/// What a link could not be opened with for want of memory, all of it as it was.
#[derive(Drop)]
pub struct NotOpened<A, B> {
    pub draft: Draft,
    pub hut_bound_air: A,
    pub mast_bound_air: B,
}

/// How many elements each end has still to get.
#[derive(Clone, Copy, PartialEq, Eq, Debug)]
pub struct Owed {
    pub mast: usize,
    pub hut: usize,
}

/// How many elements settling wrote into each list.
#[derive(Clone, Copy, PartialEq, Eq, Debug)]
pub struct Settled {
    pub mast: usize,
    pub hut: usize,
}
