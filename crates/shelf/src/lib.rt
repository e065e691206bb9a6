//! The shelf: an air whose frames lie in memory that the caller lends, 36 bytes for each.
//!
//! It must know nothing of what a frame says, nor of what the memory held before: what it promises is what every air does.
#![tactic(auto)]

ghost use Rattle.std.specs.Prelude.{◌≤◌};
ghost use Rattle.air.specs.Places.{EachFine};
ghost use Rattle.shelf.specs.Cells.{frames_in};

mod calls;
mod cells;
mod gauge;

use cells::Cells;

/// How many bytes of memory a frame takes: its length, its count, two bytes that are not used, and room for 32 bytes.
pub const CELL: usize = 36;

/// No shelf has room for more frames than this, however long its memory is.
pub const MOST: usize = 1_000;

/// Cells in lent memory, which hold the waiting frames, and a bound.
#[derive(Drop)]
pub struct Shelf<'a> {
    cells: Cells<'a>,
    bound: u8,
    /// the bound is a byte
    ghost small: { bound ≤ 255 },
    /// each waiting frame has 1 to 32 bytes, and has been overtaken at most as often as the bound allows
    ghost each: { EachFine bound (frames_in cells.used cells.memory.now) },
}

/// What a shelf takes of memory besides what is lent, in bytes.
const _: () = prove!(size_of::<Shelf>() == 32);
