//! What a link carries, turn by turn: both ends speak, and the relays hand over.
use crate::Flight;
use crate::carried::{Carried, CarriedBy};
use crate::relay::Relay;
use crate::stream::Stream;
use crate::turns::{fly_stream, rest_stream};
use anyhow::{bail, ensure};
use element::order::Order;
use link::Owed;
use protocol::Draft;
use std::alloc::Global;

/// How many turns a link has at most to come to rest, or until all that is queued is accepted.
const TURNS: u32 = 1_000;

/// What belongs to one link, besides the link itself: the books of its two streams, and its two relays. X is the kind that goes to the hut.
#[derive(Drop)]
pub(crate) struct Traffic<X: Carried> {
    to_hut: Relay,
    to_mast: Relay,
    pub hut_bound: Stream<X>,
    pub mast_bound: Stream<Order>,
    /// How often what the link owes was compared with the books.
    pub compared: u32,
    /// How often the two were not the same.
    pub astray: u32,
}

impl<X: CarriedBy<Flight<X>>> Traffic<X> {
    /// The traffic of a link that is drafted so, before its first turn.
    pub(crate) fn new(alloc: Global, draft: &Draft, to_hut: Relay, to_mast: Relay) -> Traffic<X> {
        Traffic {
            to_hut,
            to_mast,
            hut_bound: Stream::new(alloc, draft.hut_bound()),
            mast_bound: Stream::new(alloc, draft.mast_bound()),
            compared: 0,
            astray: 0,
        }
    }

    /// Both streams.
    pub(crate) fn streams(&mut self) -> (&mut Stream<X>, &mut Stream<Order>) {
        (&mut self.hut_bound, &mut self.mast_bound)
    }

    /// Compares what the link owes with the books.
    fn compare(&mut self, link: &Flight<X>) {
        let owed = Owed {
            mast: self.mast_bound.owed(),
            hut: self.hut_bound.owed(),
        };
        self.compared = self.compared.saturating_add(1);
        if link.owed() != owed {
            self.astray = self.astray.saturating_add(1);
        }
    }

    /// A turn of the link, first of the hut-bound stream and then of the mast-bound one.
    pub(crate) fn fly(&mut self, link: &mut Flight<X>) -> anyhow::Result<()> {
        let (forth, back) = (&mut self.hut_bound, &mut self.mast_bound);
        fly_stream(link, &mut self.to_hut, forth, back)?;
        fly_stream(link, &mut self.to_mast, back, forth)?;
        self.compare(link);
        Ok(())
    }

    /// Goes on until all that was made is accepted, while nothing more is made; answers in how many turns.
    pub(crate) fn catch_up(&mut self, link: &mut Flight<X>) -> anyhow::Result<u32> {
        for turn in 0..TURNS {
            if self.hut_bound.queued() == 0 && self.mast_bound.queued() == 0 {
                return Ok(turn);
            }
            self.fly(link)?;
        }
        bail!("something that was made is not accepted")
    }

    /// Whether all that was made is accepted, neither end holds anything, and no frame waits.
    fn is_at_rest(&self) -> bool {
        self.hut_bound.is_at_rest() && self.mast_bound.is_at_rest()
    }

    /// Brings both streams to rest by ordinary calls, while the relays hand over everything: what was made is accepted, sent, passed on and
    /// acknowledged.
    pub(crate) fn rest(&mut self, link: &mut Flight<X>) -> anyhow::Result<()> {
        for _ in 0..TURNS {
            if self.is_at_rest() {
                break;
            }
            rest_stream(link, &mut self.hut_bound, &mut self.mast_bound)?;
            rest_stream(link, &mut self.mast_bound, &mut self.hut_bound)?;
        }
        ensure!(self.is_at_rest(), "the streams have not come to rest");
        self.compare(link);
        Ok(())
    }
}
