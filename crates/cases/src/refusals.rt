//! What a case compares of a refusal.
ghost use Rattle.std.specs.Prelude.{◌≡◌};
ghost use Rattle.refusal.specs.Refusals.{number_of, place_of};

use refusal::Refusal;

/// The number of a refusal, and its place, as the documents give them.
pub(crate) fn told(refusal: Refusal) -> (u8, Option<usize>)
    ensures { result ≡ (number_of refusal, place_of refusal) }
{
    (refusal.number(), refusal.place())
}
