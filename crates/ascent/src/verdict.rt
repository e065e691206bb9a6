//! What the books say in the end. Each sentence is printed from a comparison, and the program fails where one does not hold.
use crate::boards::{counts_passed, shows_passed};
use crate::carried::Carried;
use crate::journey::Journey;
use crate::late::TOO_SHORT;
use crate::not_unless;
use crate::sides::name_of;
use crate::stream::Stream;
use crate::traffic::Traffic;
use anyhow::ensure;
use link::{EndRecord, Record};

/// That nothing was accepted or passed on by a stream for which nothing was made, and that the board is empty; answers whether that holds.
fn tell_unused<E: Carried>(rt: &impl Print, stream: &Stream<E>) -> anyhow::Result<bool>
where
    E::Headline: PartialEq,
{
    let unused = stream.accepted.is_empty() && stream.passed.is_empty();
    let empty = counts_passed(stream) && shows_passed(stream);
    println!(rt;
        "No {}s were made. Their books and the board at the {} are {}empty.",
        E::ONE,
        name_of(E::SENDER.other()),
        not_unless(unused && empty)
    )?;
    Ok(unused && empty)
}

/// That a stream's sender accepted all that was made, that its receiver passed on just what was accepted, and that the board there shows
/// that; answers whether all of it holds.
fn tell_stream<E: Carried>(rt: &impl Print, stream: &Stream<E>) -> anyhow::Result<bool>
where
    E::Headline: PartialEq,
{
    let (one, sender, receiver) = (E::ONE, name_of(E::SENDER), name_of(E::SENDER.other()));
    if stream.made.is_empty() {
        return tell_unused(rt, stream);
    }
    println!(rt;
        "{} {one}s were made. The {sender} accepted {}, and the {receiver} passed on {}.",
        stream.made.len(),
        stream.accepted.len(),
        stream.passed.len()
    )?;
    let all = stream.accepted == stream.made;
    println!(rt;
        "Every {one} that was made was {}accepted at the {sender}, in sequence.",
        not_unless(all)
    )?;
    let same = stream.passed == stream.accepted;
    println!(rt;
        "Every {one} that the {sender} accepted was {}passed on at the {receiver} once, in sequence.",
        not_unless(same)
    )?;
    let (counted, shown) = (counts_passed(stream), shows_passed(stream));
    println!(rt;
        "The board there has {}got as many, and what it shows is {}the headline of the last one.",
        not_unless(counted),
        not_unless(shown)
    )?;
    Ok(all && same && counted && shown)
}

/// How often the numbers started over, and what the relays did.
fn tell_counts<X: Carried>(rt: &impl Print, traffic: &Traffic<X>) -> anyhow::Result<()> {
    let frames = traffic.hut_bound.frames.and(traffic.mast_bound.frames);
    println!(rt;
        "The numbers of {}s started over {} times, those of orders {} times.",
        X::ONE,
        traffic.hut_bound.started_over(),
        traffic.mast_bound.started_over()
    )?;
    println!(rt;
        "{} frames were sent and {} lost, and {} copies were handed over.",
        frames.sent, frames.lost, frames.repeated
    )?;
    println!(rt;
        "{} times a frame was overtaken, and {} times one was held back.",
        frames.overtaken, frames.held_back
    )?;
    Ok(())
}

/// That no acknowledgement that came late released anything.
fn tell_late<X: Carried>(rt: &impl Print, traffic: &Traffic<X>) -> anyhow::Result<bool> {
    let (one, late) = (X::ONE, traffic.hut_bound.late);
    println!(rt;
        "{} acknowledgements of {one}s came late, and released {} {one}s.",
        late.heard, late.released
    )?;
    println!(rt;
        "On a cycle of {TOO_SHORT} they would have released {}, of which the hut had still to pass on {}.",
        late.too_short, late.missing
    )?;
    Ok(late.released == 0 && traffic.mast_bound.late.released == 0)
}

/// That the link owed what the books say, each time that the two were compared.
fn tell_owing<X: Carried>(rt: &impl Print, traffic: &Traffic<X>) -> anyhow::Result<bool> {
    let same = traffic.astray == 0;
    println!(rt;
        "What the link owed was compared with the books {} times, and was {}the same each time.",
        traffic.compared,
        not_unless(same)
    )?;
    Ok(same)
}

/// That the record says what the books say, by which both ends have passed on all that came, and that nothing is held.
fn tell_record<X: Carried>(
    rt: &impl Print,
    traffic: &Traffic<X>,
    record: &Record,
) -> anyhow::Result<bool> {
    let books = Record {
        mast: EndRecord {
            held: traffic.hut_bound.held(),
            placed: 0,
        },
        hut: EndRecord {
            held: traffic.mast_bound.held(),
            placed: 0,
        },
    };
    let same = *record == books;
    let nothing = books.mast.held == 0 && books.hut.held == 0;
    println!(rt;
        "The record is {}what the books say, and {}nothing is held or placed.",
        not_unless(same),
        not_unless(nothing)
    )?;
    Ok(same && nothing)
}

/// All of this of one link; answers whether it holds.
fn tell_traffic<X: Carried>(
    rt: &impl Print,
    traffic: &Traffic<X>,
    record: &Record,
) -> anyhow::Result<bool>
where
    X::Headline: PartialEq,
{
    let forth = tell_stream(rt, &traffic.hut_bound)?;
    let back = tell_stream(rt, &traffic.mast_bound)?;
    tell_counts(rt, traffic)?;
    let late = tell_late(rt, traffic)?;
    let paid = tell_owing(rt, traffic)?;
    let kept = tell_record(rt, traffic, record)?;
    Ok(forth && back && late && paid && kept)
}

/// The verdict on both links, from the books and the records.
pub(crate) fn tell_verdict(
    rt: &impl Print,
    journey: &Journey,
    record: &Record,
    ozone_record: &Record,
) -> anyhow::Result<()> {
    println!(rt; "The first link:")?;
    let first = tell_traffic(rt, &journey.first, record)?;
    println!(rt; "\nThe ozone link:")?;
    let ozone = tell_traffic(rt, &journey.ozone, ozone_record)?;
    ensure!(first && ozone, "the flight was not as it is promised");
    Ok(())
}
