//! The tight air: any other air, held to a bound that may be smaller than its own.
//!
//! It must know nothing of what a frame says, nor of how the air below keeps its frames: it goes by what every air promises.
#![tactic(auto)]

ghost use Rattle.std.specs.Prelude.{◌≡◌, min};
ghost use Rattle.air.specs.Waiting.{empty_air};
ghost use Rattle.tight.specs.SameList.{SameList};
ghost use Rattle.tight.specs.Tights.{tight_state};

use air::{Air, Gauge, clear};

mod calls;
mod gauge;

/// The air below keeps the frames and their counts; the bound is the smaller of its own and the one given.
#[derive(Drop)]
pub struct Tight<A> {
    below: A,
    given: u8,
}

impl<A: Air> Tight<A> {
    /// Holds an air to a bound. Every frame that waits in it is lost.
    pub fn new(mut below: A, given: u8) -> Tight<A>
        ensures state { tight_state A.Gauge.state result ≡ empty_air (A.Gauge.state below).capacity (min given (A.Gauge.state below).bound) }
        ensures below { A.Gauge.state result.below ≡ empty_air (A.Gauge.state below).capacity (A.Gauge.state below).bound }
        ensures given { result.given ≡ given }
        ensures list { SameList A.Gauge.state result }
    {
        clear(&mut below);
        Tight { below, given }
    }

    /// The air below, with the frames that wait in it, held to its own bound again.
    pub fn into_inner(self) -> A
        ensures { result ≡ self.below }
    {
        self.below
    }
}
