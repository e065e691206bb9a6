//! What can be read off a tight air.
ghost use Rattle.tight.specs.Tights.{tight_sound, tight_state};

use crate::Tight;
use air::Gauge;
use refusal::Refusal;

impl<A: Gauge> Gauge for Tight<A> {
    ghost state = { tight_state A.Gauge.state };

    ghost sound = { λ t. tight_sound t.given (A.Gauge.state t.below) (A.Gauge.sound t.below) };

    fn capacity(&self) -> usize {
        self.below.capacity()
    }

    fn bound(&self) -> u8 {
        self.given.min(self.below.bound())
    }

    fn waiting(&self) -> usize {
        self.below.waiting()
    }

    fn count(&self, k: usize) -> Result<u8, Refusal> {
        let count = self.below.count(k)?;
        Ok(count.min(self.bound()))
    }
}
