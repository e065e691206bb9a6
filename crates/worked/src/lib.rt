//! Worked cases: shown of the definitions that the contracts of the other crates rest on, and verdicts on those that are flown.
//!
//! It must know nothing of the code that does what the definitions say: it calls none of it. The program `cases` does.
#![tactic(auto)]

ghost use Rattle.std.specs.Prelude.{◌≡◌, codes};
ghost use Rattle.worked.specs.Cases.{AllWorked};

mod verdicts;

pub use verdicts::{BLANK, Verdict, holds_only};

/// The letters of the cases that are shown of the definitions, by the theorem in this contract. In G and H the calls of a link are run
/// through the machine, with elements of any two kinds E and F.
pub fn shown<E, F>() -> &'static str
    ensures letters { result.now ≡ codes "ABCDEFGHIJKL" }
    ensures cases { AllWorked E F }
{
    "ABCDEFGHIJKL"
}
