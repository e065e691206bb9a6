//! Numbers that look random, in a sequence that is the same at every run.
use rand_core::Rng;
use rand_pcg::Pcg32;

/// Where each sequence starts.
const SEED: u64 = 2_026;

/// A generator of the PCG family. Each of its sequences has a number.
#[derive(Drop)]
pub(crate) struct Draws(Pcg32);

impl Draws {
    /// The generator of the sequence of this number, at its start.
    pub(crate) fn new(sequence: u64) -> Draws {
        Draws(Pcg32::new(SEED, sequence))
    }

    /// A number from 0 to `most`.
    pub(crate) fn up_to(&mut self, most: u8) -> u8 {
        (self.0.next_u32() % (u32::from(most) + 1)) as u8
    }

    /// A number from -`most` to `most`.
    pub(crate) fn about_zero(&mut self, most: u8) -> i64 {
        let spread = 2 * u32::from(most) + 1;
        i64::from(self.0.next_u32() % spread) - i64::from(most)
    }
}
