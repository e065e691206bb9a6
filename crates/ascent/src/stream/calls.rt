//! The calls of the link that are of a stream, each with what is written down of it.
use crate::carried::{Carried, CarriedBy};
use crate::late::released_on_too_short;
use crate::stream::Stream;
use crate::{Flight, sides};
use anyhow::Context;
use element::Kind;
use link::Hearing;
use refusal::Refusal;
use std::alloc::AllocError;

impl<E: Carried> Stream<E> {
    /// The sender accepts the element that waits longest; where it refuses, that waits on.
    pub(crate) fn accept<X: Kind>(
        &mut self,
        link: &mut Flight<X>,
    ) -> anyhow::Result<Result<E, Refusal>>
    where
        E: CarriedBy<Flight<X>>,
    {
        let next = self.made.get(self.accepted.len());
        let element = *next.context("no element waits to be accepted")?;
        if let Err(refusal) = E::accept(link, element) {
            return Ok(Err(refusal));
        }
        self.accepted.push(element)?;
        Ok(Ok(element))
    }

    /// The sender sends the element at a place of those that it holds. It has passed on all that it has of the other stream.
    pub(crate) fn send<X: Kind, B: Carried>(
        &mut self,
        link: &mut Flight<X>,
        back: &Stream<B>,
        place: usize,
    ) -> anyhow::Result<()> {
        sides::send(link, E::SENDER, place)?;
        self.enter(back)
    }

    /// The sender sends its acknowledgement alone. It has passed on all that it has of the other stream.
    pub(crate) fn bare<X: Kind, B: Carried>(
        &mut self,
        link: &mut Flight<X>,
        back: &Stream<B>,
    ) -> anyhow::Result<()> {
        sides::bare(link, E::SENDER)?;
        self.enter(back)
    }

    /// A frame has gone into the air.
    fn enter<B: Carried>(&mut self, back: &Stream<B>) -> anyhow::Result<()> {
        self.waiting.push(back.passed.len())?;
        self.frames.count_sent();
        Ok(())
    }

    /// The frame at a place has left the air.
    fn leave(&mut self, place: usize) {
        if place < self.waiting.len() {
            self.waiting.remove(place);
        }
    }

    /// The relay loses the frame at a place.
    pub(crate) fn lose<X: Kind>(
        &mut self,
        link: &mut Flight<X>,
        place: usize,
    ) -> anyhow::Result<()> {
        sides::lose(link, E::SENDER, place)?;
        self.leave(place);
        self.frames.count_lost();
        Ok(())
    }

    /// The relay hands over the frame at a place.
    pub(crate) fn deliver<X: Kind, B: Carried>(
        &mut self,
        link: &mut Flight<X>,
        back: &mut Stream<B>,
        place: usize,
    ) -> anyhow::Result<Result<Hearing, Refusal>> {
        let answer = sides::deliver(link, E::SENDER, place);
        self.hear(back, place, answer)?;
        if answer.is_ok() {
            self.leave(place);
        }
        Ok(answer)
    }

    /// The relay hands over a copy of the frame at a place.
    pub(crate) fn repeat<X: Kind, B: Carried>(
        &mut self,
        link: &mut Flight<X>,
        back: &mut Stream<B>,
        place: usize,
    ) -> anyhow::Result<Result<Hearing, Refusal>> {
        let answer = sides::repeat(link, E::SENDER, place);
        self.hear(back, place, answer)?;
        if answer.is_ok() {
            self.frames.count_repeated();
        }
        Ok(answer)
    }

    /// The frame at a place was handed over, or was held back.
    fn hear<B: Carried>(
        &mut self,
        back: &mut Stream<B>,
        place: usize,
        answer: Result<Hearing, Refusal>,
    ) -> anyhow::Result<()> {
        let acknowledged = *self.waiting.get(place).context("no frame waits there")?;
        match answer {
            Ok(hearing) => {
                self.frames.count_overtaken(u32::try_from(place)?);
                back.release(acknowledged, hearing.released)?;
            }
            Err(Refusal::BoundReached) => self.frames.count_held_back(),
            Err(_) => {}
        }
        Ok(())
    }

    /// The sender has heard an acknowledgement of so many elements, and released so many.
    fn release(&mut self, acknowledged: usize, released: usize) -> anyhow::Result<()> {
        if acknowledged < self.released {
            let too_short = released_on_too_short(acknowledged, self.released, self.held())?;
            let by_then = self.released.saturating_add(too_short);
            let missing = by_then.saturating_sub(self.passed.len());
            self.late.count(released, too_short, missing);
        }
        self.released = self.released.saturating_add(released);
        Ok(())
    }

    /// The receiver passes on the next element, if it has come.
    pub(crate) fn pass<X: Kind>(&mut self, link: &mut Flight<X>) -> Result<Option<E>, AllocError>
    where
        E: CarriedBy<Flight<X>>,
    {
        let Some(element) = E::pass(link) else {
            return Ok(None);
        };
        self.passed.push(element)?;
        self.board.post(&element);
        Ok(Some(element))
    }

    /// The link was settled, and the receiver's list got these elements.
    pub(crate) fn settle(&mut self, list: &[E]) -> Result<(), AllocError> {
        self.passed.extend_from_slice(list)?;
        self.board.post_all(list);
        self.released = self.accepted.len();
        self.waiting.clear();
        Ok(())
    }
}
