//! An air that is lent: it means what the air means that it borrows, so that whatever owns an air can be given one for a while.
use crate::{Air, Gauge};
use octets::LONGEST;
use refusal::Refusal;

/// The air that is lent.
#[derive(Drop)]
pub struct Lent<'a, A>(pub &'a mut A);

impl<'a, A: Gauge> Gauge for Lent<'a, A> {
    ghost state = { λ lent. A.Gauge.state lent.0.now };

    ghost sound = { λ lent. A.Gauge.sound lent.0.now };

    fn capacity(&self) -> usize {
        self.0.capacity()
    }

    fn bound(&self) -> u8 {
        self.0.bound()
    }

    fn waiting(&self) -> usize {
        self.0.waiting()
    }

    fn count(&self, k: usize) -> Result<u8, Refusal> {
        self.0.count(k)
    }
}

impl<'a, A: Air> Air for Lent<'a, A> {
    fn put(&mut self, bytes: &[u8]) -> Result<(), Refusal> {
        self.0.put(bytes)
    }

    fn lose(&mut self, k: usize) -> Result<(), Refusal> {
        self.0.lose(k)
    }

    fn repeat(&mut self, k: usize, area: &mut [u8; LONGEST]) -> Result<usize, Refusal> {
        self.0.repeat(k, area)
    }
}
