//! Calls of the link, each with what is told of it.
use crate::Flight;
use crate::carried::Carried;
use crate::journey::Journey;
use crate::sides::name_of;
use crate::stream::Stream;
use air::{Air, most_overtaken};
use element::Kind;
use element::order::Order;
use element::reading::Reading;
use link::Hearing;
use protocol::Placement;
use refusal::Refusal;
use std::{fmt, io};
use telling::Told;

/// What became of the element of a frame that was heard.
#[derive(Clone, Copy)]
struct Fate(Placement);

impl fmt::Display for Fate {
    fn fmt<W: fmt::Write>(&self, f: &mut fmt::Formatter<W>) -> fmt::Result {
        match self.0 {
            Placement::Slot(d) => write!(f, "fills slot {d}"),
            Placement::Outside => f.write_str("finds it outside"),
            Placement::Bare => f.write_str("finds it bare"),
        }
    }
}

/// A second for each reading: the balloon's instruments read, and the mast accepts.
pub(crate) fn tell_accepting(
    rt: &impl Print,
    link: &mut Flight<Reading>,
    journey: &mut Journey,
    seconds: usize,
) -> anyhow::Result<()> {
    for _ in 0..seconds {
        journey.read()?;
        let reading = journey.first.hut_bound.accept(link)??;
        println!(rt; "    {}", Told(reading))?;
    }
    Ok(())
}

/// The hut accepts an order, and sends it; it holds no other.
pub(crate) fn tell_ordering(
    rt: &impl Print,
    link: &mut Flight<Reading>,
    readings: &Stream<Reading>,
    orders: &mut Stream<Order>,
    order: Order,
) -> anyhow::Result<()> {
    orders.made.push(order)?;
    let order = orders.accept(link)??;
    println!(rt; "    {}", Told(order))?;
    orders.send(link, readings, 0)
}

/// What the receiver of a stream made of a frame, if the air handed it over. It holds elements of the kind B.
fn tell_hearing<E: Carried, B: Carried>(
    rt: &impl Print,
    answer: Result<Hearing, Refusal>,
) -> io::Result<()> {
    match answer {
        Ok(hearing) => {
            let (receiver, held) = (name_of(E::SENDER.other()), B::ONE);
            let (fate, released) = (Fate(hearing.placement), hearing.released);
            println!(rt; "    The {receiver} {fate}, and releases {released} of its {held}s.")
        }
        Err(refusal) => println!(rt; "    It is held back: {refusal}."),
    }
}

/// The relay hands over the frame at a place.
pub(crate) fn tell_delivering<X: Kind, E: Carried, B: Carried>(
    rt: &impl Print,
    link: &mut Flight<X>,
    forth: &mut Stream<E>,
    back: &mut Stream<B>,
    place: usize,
) -> anyhow::Result<()> {
    let answer = forth.deliver(link, back, place)?;
    tell_hearing::<E, B>(rt, answer)?;
    Ok(())
}

/// The relay hands over a copy of the frame at a place.
pub(crate) fn tell_repeating<X: Kind, E: Carried, B: Carried>(
    rt: &impl Print,
    link: &mut Flight<X>,
    forth: &mut Stream<E>,
    back: &mut Stream<B>,
    place: usize,
) -> anyhow::Result<()> {
    let answer = forth.repeat(link, back, place)?;
    tell_hearing::<E, B>(rt, answer)?;
    Ok(())
}

/// The hut passes on what it has in sequence, at most a window of readings.
pub(crate) fn tell_passing(
    rt: &impl Print,
    link: &mut Flight<Reading>,
    readings: &mut Stream<Reading>,
) -> anyhow::Result<()> {
    println!(rt; "The hut passes on what it has in sequence:")?;
    for _ in 0..link.draft().hut_bound().window {
        let Some(reading) = readings.pass(link)? else {
            break;
        };
        println!(rt; "    {}", Told(reading))?;
    }
    Ok(())
}

/// What waits in an air.
pub(crate) fn tell_waiting<A: Air>(rt: &impl Print, air: &A) -> io::Result<()> {
    println!(rt;
        "    Waiting: {}. The oldest was overtaken {} of {} times.",
        air.waiting(),
        most_overtaken(air),
        air.bound()
    )
}
