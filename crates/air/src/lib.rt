//! Airs: what carries frames from one end of a link to the other. On the way a frame may be lost, repeated, or overtaken by a
//! younger one, up to a bound.
//!
//! An air means a list of waiting frames, oldest first, with a capacity and a bound; places in it count from 0. How an air keeps
//! its frames is its own affair: callers rely on the list alone.
//!
//! It must know nothing of what a frame says, and of ends and links: to an air a frame is 1 to 32 bytes.
#![tactic(auto)]

ghost use Rattle.std.specs.Prelude.{◌≡◌, length};
ghost use Rattle.air.specs.Waiting.{AirState};
ghost use Rattle.air.specs.Steps.{Bytes, Sound, count_at, lose_step, put_step, repeat_step, take_step};

use octets::LONGEST;
use refusal::Refusal;

mod checks;
mod clearing;
mod lent;
mod overtaking;

pub use checks::{check_answer, check_place, check_put};
pub use clearing::clear;
pub use lent::Lent;
pub use overtaking::most_overtaken;

/// What an air means, and what can be read off it. The questions change nothing. They are a trait of their own so that the tests
/// that come before every call are written once, for every air.
pub trait Gauge {
    /// The waiting frames, the capacity and the bound.
    ghost state: { Self → AirState Bytes };

    /// What holds of every air; who builds one shows it.
    ghost sound: { (air : Self) → Sound (state air) };

    /// How many frames may wait.
    fn capacity(&self) -> usize
        ensures { result ≡ (state self.now).capacity };

    /// How often a frame may be overtaken.
    fn bound(&self) -> u8
        ensures { result ≡ (state self.now).bound };

    /// How many frames wait.
    fn waiting(&self) -> usize
        ensures { result ≡ length (state self.now).waiting };

    /// How often frame k has been overtaken; refused by 7 where no frame waits at place k.
    fn count(&self, k: usize) -> Result<u8, Refusal>
        ensures { result ≡ count_at k (state self.now) };
}

/// The calls of an air. One that is refused changes nothing.
pub trait Air: Gauge {
    /// Puts a frame behind all that wait; refused by 9 for 0 bytes or more than 32, and then by 6 where the air is full.
    fn put(&mut self, bytes: &[u8]) -> Result<(), Refusal>
        ensures { (result, Self.Gauge.state self.new) ≡ put_step bytes.now (Self.Gauge.state self.old) };

    /// Loses frame k; refused by 7 where no frame waits at place k.
    fn lose(&mut self, k: usize) -> Result<(), Refusal>
        ensures { (result, Self.Gauge.state self.new) ≡ lose_step k (Self.Gauge.state self.old) };

    /// Answers frame k, in the front of the area, by its length; the frame is then gone, and has overtaken each older one. Refused
    /// by 7 where no frame waits at place k, and then by 8 where an older one may not be overtaken again.
    fn take(&mut self, k: usize, area: &mut [u8; LONGEST]) -> Result<usize, Refusal>
        ensures { (result, Self.Gauge.state self.new, area.new) ≡ take_step k (Self.Gauge.state self.old) area.old }
    {
        let n = self.repeat(k, area)?;
        self.lose(k)?;
        Ok(n)
    }

    /// Answers frame k as taking it does, but the frame stays, with its own count as it was.
    fn repeat(&mut self, k: usize, area: &mut [u8; LONGEST]) -> Result<usize, Refusal>
        ensures { (result, Self.Gauge.state self.new, area.new) ≡ repeat_step k (Self.Gauge.state self.old) area.old };
}
