//! The pool: an air with a table of its own, with room for sixteen frames.
//!
//! It must know nothing of what a frame says, nor of the link that it carries frames for: what it promises is what every air does.
#![tactic(auto)]

ghost use Rattle.std.specs.Prelude.{◌≤◌, length};
ghost use Rattle.air.specs.Places.{EachFine};
ghost use Rattle.pool.specs.Entries.{frames_in};

use arrayvec::ArrayVec;

mod calls;
mod entry;
mod gauge;

use entry::Entry;

/// How many frames may wait in a pool.
pub const CAPACITY: usize = 16;

/// A table of at most sixteen entries, oldest first, each of which holds a waiting frame.
#[derive(Drop)]
pub struct Pool {
    waiting: ArrayVec<Entry, CAPACITY>,
    bound: u8,
    /// no more frames wait than the table has room for
    ghost within: { length waiting.items ≤ 16 },
    /// the bound is a byte
    ghost small: { bound ≤ 255 },
    /// each waiting frame has 1 to 32 bytes, and has been overtaken at most as often as the bound allows
    ghost each: { EachFine bound (frames_in waiting.items) },
}

/// What a pool takes of memory, in bytes: 48 for each entry, and 16 besides.
const _: () = prove!(size_of::<Pool>() == 48 * CAPACITY + 16);
