//! The calls of a shelf.
ghost use Rattle.std.specs.Prelude.{◌≡◌};
ghost use Rattle.air.specs.Waiting.{empty_air};
ghost use Rattle.shelf.specs.Cells.{cell_count};
ghost use Rattle.shelf.specs.Shelves.{shelf_state};

use crate::Shelf;
use crate::cells::Cells;
use air::{Air, check_answer, check_place, check_put};
use octets::LONGEST;
use refusal::Refusal;

impl<'a> Shelf<'a> {
    /// A shelf in which no frame waits, with one cell for each whole 36 bytes of the memory, 1,000 at most, and a bound of its own.
    pub fn new(memory: &'a mut [u8], bound: u8) -> Shelf<'a>
        ensures { shelf_state result ≡ empty_air (cell_count memory.old) bound }
    {
        let (memory, _) = memory.as_chunks_mut();
        Shelf {
            cells: Cells { memory, used: 0 },
            bound,
        }
    }
}

impl<'a> Air for Shelf<'a> {
    fn put(&mut self, bytes: &[u8]) -> Result<(), Refusal> {
        check_put(self, bytes)?;
        self.cells.push(bytes);
        Ok(())
    }

    fn lose(&mut self, k: usize) -> Result<(), Refusal> {
        check_place(self, k)?;
        self.cells.remove(k);
        Ok(())
    }

    fn repeat(&mut self, k: usize, area: &mut [u8; LONGEST]) -> Result<usize, Refusal> {
        check_answer(self, k)?;
        let n = self.cells.copy_to(k, area);
        self.cells.raise_counts(k);
        Ok(n)
    }
}
