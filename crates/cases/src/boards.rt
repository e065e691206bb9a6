//! The worked case of boards.
use crate::kinds::Worked;
use board::Board;

/// A board gets two elements: it shows the headline of the second, and 2.
pub(crate) fn two_posted<K: Worked>() -> bool
where
    K::Headline: PartialEq,
{
    let mut board = Board::new();
    board.post(&K::FIRST);
    board.post(&K::SECOND);
    board.latest() == Some(K::HEADLINE) && board.count() == 2
}
