//! The calls of a pool.
ghost use Rattle.std.specs.Prelude.{◌≡◌};
ghost use Rattle.air.specs.Waiting.{empty_air};
ghost use Rattle.pool.specs.Pools.{pool_state};

use crate::Pool;
use crate::entry::{Entry, raise_counts};
use air::{Air, check_answer, check_place, check_put};
use arrayvec::ArrayVec;
use octets::LONGEST;
use refusal::Refusal;

impl Pool {
    /// A pool in which no frame waits, with a bound of its own.
    pub fn new(bound: u8) -> Pool
        ensures { pool_state result ≡ empty_air 16 bound }
    {
        Pool {
            waiting: ArrayVec::new(),
            bound,
        }
    }
}

impl Air for Pool {
    fn put(&mut self, bytes: &[u8]) -> Result<(), Refusal> {
        check_put(self, bytes)?;
        self.waiting.push(Entry::holding(bytes));
        Ok(())
    }

    fn lose(&mut self, k: usize) -> Result<(), Refusal> {
        check_place(self, k)?;
        self.waiting.remove(k);
        Ok(())
    }

    fn repeat(&mut self, k: usize, area: &mut [u8; LONGEST]) -> Result<usize, Refusal> {
        check_answer(self, k)?;
        let n = self.waiting[k].copy_to(area);
        raise_counts(&mut self.waiting, k);
        Ok(n)
    }
}
