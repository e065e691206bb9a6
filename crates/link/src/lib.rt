//! The link: two ends, the mast on its hill and the hut at the launch field, and the airs between them.
//!
//! An end can be made by itself from a draft. An open link owns both ends and both airs; it is opened from a draft, and closed into its
//! record. Each of its calls does what the machine of the protocol does, so that what is proved of the machine holds of the link.
//!
//! It alone knows frames, airs and windows together. It must know nothing of which kinds of element and which airs there are, but for
//! the tight air, by which it holds each air to its bound.
#![tactic(auto)]

mod end;
mod link;

pub use end::End;
pub use link::{Closed, Link, NotOpened, Owed, Record, Settled};
use protocol::Placement;

/// What an end made of a frame that it heard.
#[derive(Clone, Copy, PartialEq, Eq, Debug)]
pub struct Hearing {
    /// How many held elements its acknowledgement released.
    pub released: usize,
    /// What became of its element.
    pub placement: Placement,
}

/// What an end keeps when it is closed.
#[derive(Drop, PartialEq, Eq, Debug)]
pub struct EndRecord {
    /// How many elements it holds.
    pub held: usize,
    /// How many elements it has placed: how many of its slots are filled.
    pub placed: usize,
}
