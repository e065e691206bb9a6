//! The receiver of a stream.
ghost use Rattle.std.specs.Prelude.{◌≡◌, ◌≤◌, vec_len};
ghost use Rattle.window.specs.Marks.{marks_of};

use protocol::Cycle;

mod calls;

/// What a receiver has placed: slot d, if it is filled, holds the element whose number lies d places after the base.
#[derive(Drop)]
pub struct Receiver<E> {
    cycle: Cycle,
    base: u16,
    slots: Vec<Option<E>>,
    marks: u32,
    /// bit d of the marks is set just if slot d is filled
    ghost marked: { marks ≡ marks_of slots.items },
    /// there is a slot
    ghost some: { 1 ≤ vec_len slots },
    /// no window is wider than 32, so that one word has a bit for each slot
    ghost narrow: { vec_len slots ≤ 32 },
}
