//! A turn of one stream, from its sender through its relay to its receiver. As long as the balloon flies on, that is a second.
use crate::Flight;
use crate::carried::{Carried, CarriedBy};
use crate::draft::WINDOW;
use crate::relay::Relay;
use crate::sides::has_room;
use crate::stream::Stream;
use element::Kind;
use std::alloc::AllocError;

/// The sender accepts what waits to be accepted, until it refuses; answers how many elements it accepted.
fn accept_all<X: Kind, E: CarriedBy<Flight<X>>>(
    link: &mut Flight<X>,
    stream: &mut Stream<E>,
) -> anyhow::Result<usize> {
    let mut accepted = 0usize;
    for _ in 0..stream.queued() {
        if stream.accept(link)?.is_err() {
            break;
        }
        accepted = accepted.saturating_add(1);
    }
    Ok(accepted)
}

/// The sender sends each element that it holds, from a place on, as far as the air has room.
fn send_from<X: Kind, E: Carried, B: Carried>(
    link: &mut Flight<X>,
    forth: &mut Stream<E>,
    back: &Stream<B>,
    first: usize,
) -> anyhow::Result<()> {
    for place in first..forth.held() {
        if has_room(link, E::SENDER) {
            forth.send(link, back, place)?;
        }
    }
    Ok(())
}

/// The sender speaks: where it holds nothing, it sends its acknowledgement alone; where it holds something from an earlier turn, the oldest
/// of that once more; and then each element that it has just accepted.
fn speak<X: Kind, E: Carried, B: Carried>(
    link: &mut Flight<X>,
    forth: &mut Stream<E>,
    back: &Stream<B>,
    accepted: usize,
) -> anyhow::Result<()> {
    let held = forth.held();
    if held == 0 && has_room(link, E::SENDER) {
        forth.bare(link, back)?;
    }
    if held > accepted && has_room(link, E::SENDER) {
        forth.send(link, back, 0)?;
    }
    send_from(link, forth, back, held.saturating_sub(accepted))
}

/// The receiver passes on what it has in sequence.
fn pass_all<X: Kind, E: CarriedBy<Flight<X>>>(
    link: &mut Flight<X>,
    stream: &mut Stream<E>,
) -> Result<(), AllocError> {
    for _ in 0..WINDOW {
        if stream.pass(link)?.is_none() {
            break;
        }
    }
    Ok(())
}

/// The relay hands over every frame that waits, the oldest first.
fn hand_over_all<X: Kind, E: Carried, B: Carried>(
    link: &mut Flight<X>,
    forth: &mut Stream<E>,
    back: &mut Stream<B>,
) -> anyhow::Result<()> {
    for _ in 0..forth.waiting() {
        forth.deliver(link, back, 0)??;
    }
    Ok(())
}

/// A turn of a stream, through a relay that does as it likes.
pub(crate) fn fly_stream<X: Kind, E: CarriedBy<Flight<X>>, B: Carried>(
    link: &mut Flight<X>,
    relay: &mut Relay,
    forth: &mut Stream<E>,
    back: &mut Stream<B>,
) -> anyhow::Result<()> {
    let accepted = accept_all(link, forth)?;
    speak(link, forth, back, accepted)?;
    relay.work(link, forth, back)?;
    pass_all(link, forth)?;
    Ok(())
}

/// A turn of a stream that is to come to rest: what waits in the air is handed over; the sender sends all that it holds, or its
/// acknowledgement alone where it holds nothing, and that is handed over, too.
pub(crate) fn rest_stream<X: Kind, E: CarriedBy<Flight<X>>, B: Carried>(
    link: &mut Flight<X>,
    forth: &mut Stream<E>,
    back: &mut Stream<B>,
) -> anyhow::Result<()> {
    hand_over_all(link, forth, back)?;
    accept_all(link, forth)?;
    if forth.held() == 0 {
        forth.bare(link, back)?;
    }
    send_from(link, forth, back, 0)?;
    hand_over_all(link, forth, back)?;
    pass_all(link, forth)?;
    Ok(())
}
