//! Lent memory, in cells for a frame each.
ghost use Rattle.std.specs.Prelude.{◌≡◌, ℕ, ◌+◌, ◌<◌, ◌≤◌, [], ◌∷◌, ◌++◌, length, min, slice_index_or};
ghost use Rattle.octets.specs.Areas.{front};
ghost use Rattle.air.specs.Waiting.{fresh, overtaken, without};
ghost use Rattle.shelf.specs.Cells.{frame_in};

use crate::{CELL, MOST};
use octets::LONGEST;

/// Where the length of a frame stands in its cell.
const SIZE: usize = 0;

/// Where its count stands.
const COUNT: usize = 1;

/// Where its bytes begin.
const FRAME: usize = 4;

/// The first `used` cells hold the waiting frames, oldest first.
#[derive(Drop)]
pub(crate) struct Cells<'a> {
    pub memory: &'a mut [[u8; CELL]],
    pub used: usize,
    /// no more cells are used than there are, and no more than 1,000
    ghost within: { used ≤ min (length memory.now) 1000 },
}

/// Writes a frame that has just been put into a cell.
fn write(cell: &mut [u8; CELL], bytes: &[u8])
    requires { length bytes.now ≤ 32 }
    ensures { frame_in cell.new ≡ fresh bytes.now }
{
    let n = bytes.len();
    cell[SIZE] = n as u8;
    cell[COUNT] = 0;
    cell[FRAME..FRAME + n].copy_from_slice(bytes);
}

impl<'a> Cells<'a> {
    ghost use Rattle.shelf.specs.Shelves.{frames_of};

    /// How many cells there are.
    pub(crate) fn capacity(&self) -> usize
        ensures { result ≡ min (length self.now.memory.now) 1000 }
    {
        self.memory.len().min(MOST)
    }

    /// Writes a frame that has just been put into the first cell that is not used.
    pub(crate) fn push(&mut self, bytes: &[u8])
        requires room { self.old.used < min (length self.old.memory.now) 1000 }
        requires few { length bytes.now ≤ 32 }
        ensures len { length self.new.memory.now ≡ length self.old.memory.now }
        ensures used { self.new.used ≡ self.old.used + 1 }
        ensures frames { frames_of self.new ≡ frames_of self.old ++ (fresh bytes.now ∷ []) }
    {
        let memory = &mut *self.memory;
        write(&mut memory[self.used], bytes);
        self.used += 1;
    }

    /// Removes the frame in cell k: those behind it close up.
    pub(crate) fn remove(&mut self, k: usize)
        requires { k < self.old.used }
        ensures len { length self.new.memory.now ≡ length self.old.memory.now }
        ensures used { self.new.used + 1 ≡ self.old.used }
        ensures frames { frames_of self.new ≡ without k (frames_of self.old) }
    {
        self.memory[k..self.used].rotate_left(1);
        self.used -= 1;
    }

    /// The count of the frame in cell k.
    pub(crate) fn count(&self, k: usize) -> u8
        requires { k < self.now.used }
        ensures { result ≡ (frame_in (slice_index_or self.now.memory.now k [])).count }
    {
        self.memory[k][COUNT]
    }

    /// Each frame before cell k is overtaken once more.
    pub(crate) fn raise_counts(&mut self, k: usize)
        requires at { k < self.old.used }
        requires small { (i : ℕ) → i < k → (frame_in (slice_index_or self.old.memory.now i [])).count < 255 }
        ensures len { length self.new.memory.now ≡ length self.old.memory.now }
        ensures used { self.new.used ≡ self.old.used }
        ensures frames { frames_of self.new ≡ overtaken k (frames_of self.old) }
    {
        for cell in self.memory[..k].iter_mut() {
            cell[COUNT] += 1;
        }
    }

    /// Copies the frame in cell k into the front of the area, and answers its length.
    pub(crate) fn copy_to(&self, k: usize, area: &mut [u8; LONGEST]) -> usize
        requires { k < self.now.used }
        ensures size { result ≡ length (frame_in (slice_index_or self.now.memory.now k [])).frame }
        ensures area { area.new ≡ front (frame_in (slice_index_or self.now.memory.now k [])).frame area.old }
    {
        let memory = &*self.memory;
        let cell = &memory[k];
        let n = usize::from(cell[SIZE]).min(LONGEST);
        area[..n].copy_from_slice(&cell[FRAME..FRAME + n]);
        n
    }
}
