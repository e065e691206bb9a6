//! The sender of a stream.
ghost use Rattle.std.specs.Prelude.{◌≤◌, vec_len, vec_capacity};

use protocol::Cycle;

mod calls;

/// What a sender holds: the elements that are not yet acknowledged, the first of which has the low number.
#[derive(Drop)]
pub struct Sender<E> {
    cycle: Cycle,
    window: usize,
    low: u16,
    held: Vec<E>,
    /// no more are held than the window is wide
    ghost few: { vec_len held ≤ window },
    /// and there is memory for as many
    ghost reserved: { window ≤ vec_capacity held },
    /// no window is wider than 32
    ghost narrow: { window ≤ 32 },
}
