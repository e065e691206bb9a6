//! A stream of the flight with its books.
use crate::carried::Carried;
use crate::frames::Frames;
use crate::late::Late;
use board::Board;
use protocol::Terms;
use std::alloc::Global;

mod calls;

/// The books of a stream.
#[derive(Drop)]
pub(crate) struct Stream<E: Carried> {
    /// How many numbers its elements have.
    cycle: usize,
    /// What the sender is to accept, in this sequence.
    pub made: Vec<E>,
    /// What the sender has accepted.
    pub accepted: Vec<E>,
    /// What the receiver has passed on.
    pub passed: Vec<E>,
    /// The receiver's board, on which all of that is posted.
    pub board: Board<E>,
    /// How many elements the sender has released.
    pub released: usize,
    /// The acknowledgements that came late.
    pub late: Late,
    /// Of each frame that waits in the stream's air, how many elements of the other stream it acknowledges.
    waiting: Vec<usize>,
    /// What became of the frames.
    pub frames: Frames,
}

impl<E: Carried> Stream<E> {
    /// The books of a stream in which nothing has happened.
    pub(crate) fn new(alloc: Global, terms: Terms) -> Stream<E> {
        Stream {
            cycle: terms.cycle as usize,
            made: Vec::new(alloc),
            accepted: Vec::new(alloc),
            passed: Vec::new(alloc),
            board: Board::new(),
            released: 0,
            late: Late::default(),
            waiting: Vec::new(alloc),
            frames: Frames::default(),
        }
    }

    /// How many elements wait to be accepted.
    pub(crate) fn queued(&self) -> usize {
        self.made.len().saturating_sub(self.accepted.len())
    }

    /// How many elements the sender holds.
    pub(crate) fn held(&self) -> usize {
        self.accepted.len().saturating_sub(self.released)
    }

    /// How many elements the receiver has still to get.
    pub(crate) fn owed(&self) -> usize {
        self.accepted.len().saturating_sub(self.passed.len())
    }

    /// How many frames wait in the air.
    pub(crate) fn waiting(&self) -> usize {
        self.waiting.len()
    }

    /// How often the numbers of its elements have started over.
    pub(crate) fn started_over(&self) -> usize {
        let after_the_first = self.accepted.len().saturating_sub(1);
        after_the_first.checked_div(self.cycle).unwrap_or(0)
    }

    /// Whether nothing waits to be accepted, nothing is held and no frame waits.
    pub(crate) fn is_at_rest(&self) -> bool {
        self.queued() == 0 && self.held() == 0 && self.waiting() == 0
    }
}
