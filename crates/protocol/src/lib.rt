//! The protocol of a link: the draft that both ends agree on, the arithmetic of numbers that start over, and what is proved of
//! every link over its whole past.
//!
//! It must know nothing of bytes and kinds of element, nor of the code of an end or a link. The link that it speaks of is a machine in
//! the definitions: its elements are of any types, its frames are written in any way that reads them back, its airs are their lists.
#![tactic(auto)]

mod cycle;
mod draft;
mod laws;
mod terms;

pub use cycle::Cycle;
pub use draft::Draft;
pub use laws::{
    counts, like_ideal, promises, queues, records_cover, same_after_settle, same_on_any_cycle,
    same_with_any_codec,
};
pub use terms::{Terms, least_cycle};

/// What became of the element of a frame that was heard.
#[derive(Clone, Copy, PartialEq, Eq, Debug)]
pub enum Placement {
    /// It fills this slot now.
    Slot(usize),
    /// Its number stands for no slot of the window, so it was dropped.
    Outside,
    /// The frame carried none.
    Bare,
}
