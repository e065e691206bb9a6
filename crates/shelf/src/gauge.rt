//! What can be read off a shelf.
ghost use Rattle.shelf.specs.Shelves.{shelf_sound, shelf_state};

use crate::Shelf;
use air::Gauge;
use refusal::Refusal;

impl<'a> Gauge for Shelf<'a> {
    ghost state = { shelf_state };

    ghost sound = { shelf_sound };

    fn capacity(&self) -> usize {
        self.cells.capacity()
    }

    fn bound(&self) -> u8 {
        self.bound
    }

    fn waiting(&self) -> usize {
        self.cells.used
    }

    fn count(&self, k: usize) -> Result<u8, Refusal> {
        if k >= self.waiting() {
            return Err(Refusal::NoFrame);
        }
        Ok(self.cells.count(k))
    }
}
