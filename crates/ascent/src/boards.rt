//! The boards at both ends, and whether they show what was passed on there.
use crate::carried::Carried;
use crate::journey::Journey;
use crate::sides::name_of;
use crate::stream::Stream;
use board::Board;
use std::{fmt, io};
use telling::Told;

/// What the board of a stream's receiver shows.
fn tell_board<E: Carried>(rt: &impl Print, board: &Board<E>) -> io::Result<()>
where
    Told<E::Headline>: fmt::Display,
{
    let (receiver, one) = (name_of(E::SENDER.other()), E::ONE);
    print!(rt;
        "The {receiver}'s board of {one}s has got {}",
        board.count()
    )?;
    match board.latest() {
        Some(headline) => println!(rt; ", and shows the last one: {}.", Told(headline)),
        None => println!(rt; ", and shows nothing."),
    }
}

/// All boards on which something was posted.
pub(crate) fn tell_boards(rt: &impl Print, journey: &Journey) -> io::Result<()> {
    tell_board(rt, &journey.first.hut_bound.board)?;
    tell_board(rt, &journey.ozone.hut_bound.board)?;
    tell_board(rt, &journey.first.mast_bound.board)
}

/// Whether the board of a stream's receiver has got as many elements as the receiver has passed on.
pub(crate) fn counts_passed<E: Carried>(stream: &Stream<E>) -> bool {
    stream.board.count() as usize == stream.passed.len()
}

/// Whether the board of a stream's receiver shows the headline of the last element that the receiver has passed on, if there is one.
pub(crate) fn shows_passed<E: Carried>(stream: &Stream<E>) -> bool
where
    E::Headline: PartialEq,
{
    let last = stream.passed.last().map(|element| element.headline());
    stream.board.latest() == last
}
