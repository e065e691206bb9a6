//! What can be read off a pool.
ghost use Rattle.pool.specs.Pools.{pool_sound, pool_state};

use crate::{CAPACITY, Pool};
use air::Gauge;
use refusal::Refusal;

impl Gauge for Pool {
    ghost state = { pool_state };

    ghost sound = { pool_sound };

    fn capacity(&self) -> usize {
        CAPACITY
    }

    fn bound(&self) -> u8 {
        self.bound
    }

    fn waiting(&self) -> usize {
        self.waiting.len()
    }

    fn count(&self, k: usize) -> Result<u8, Refusal> {
        self.waiting
            .get(k)
            .map(|entry| entry.count)
            .ok_or(Refusal::NoFrame)
    }
}
