//! What every air tests before a call takes effect, in the order in which the causes are told.
ghost use Rattle.std.specs.Prelude.{◌≡◌, ◌<◌, ◌≤◌, length, ◌==◌};
ghost use Rattle.refusal.specs.Refusals.{unless};
ghost use Rattle.std.specs.List.{slice_get};
ghost use Rattle.air.specs.Waiting.{barred};
ghost use Rattle.air.specs.Steps.{answer_refusal, count_of, place_refusal, put_refusal};

use crate::Gauge;
use octets::LONGEST;
use refusal::Refusal;

/// Refuses to put what has no bytes or too many, and then to put anything into a full air.
pub fn check_put<A: Gauge>(air: &A, bytes: &[u8]) -> Result<(), Refusal>
    ensures { result ≡ unless tt (put_refusal bytes.now (A.Gauge.state air.now)) }
{
    if bytes.is_empty() || bytes.len() > LONGEST {
        return Err(Refusal::SizeOutOfLimits);
    }
    if air.waiting() >= air.capacity() {
        return Err(Refusal::AirFull);
    }
    Ok(())
}

/// Refuses a place where no frame waits.
pub fn check_place<A: Gauge>(air: &A, k: usize) -> Result<(), Refusal>
    ensures { result ≡ unless tt (place_refusal k (A.Gauge.state air.now)) }
{
    if k >= air.waiting() {
        return Err(Refusal::NoFrame);
    }
    Ok(())
}

/// Whether frame i has been overtaken as often as the bound allows.
fn is_at_bound<A: Gauge>(air: &A, i: usize) -> bool
    requires { i < length (A.Gauge.state air.now).waiting }
    ensures { result ≡ (count_of (slice_get (A.Gauge.state air.now).waiting i) == (A.Gauge.state air.now).bound) }
{
    air.count(i) == Ok(air.bound())
}

/// Whether a frame before place k has been overtaken as often as the bound allows.
fn is_barred<A: Gauge>(air: &A, k: usize) -> bool
    requires { k ≤ length (A.Gauge.state air.now).waiting }
    ensures { result ≡ barred (A.Gauge.state air.now).bound k (A.Gauge.state air.now).waiting }
{
    (0..k).any(|i| is_at_bound(air, i))
}

/// Refuses to answer a frame that is not there, and then one that may not overtake those before it.
pub fn check_answer<A: Gauge>(air: &A, k: usize) -> Result<(), Refusal>
    ensures { result ≡ unless tt (answer_refusal k (A.Gauge.state air.now)) }
{
    check_place(air, k)?;
    if is_barred(air, k) {
        return Err(Refusal::BoundReached);
    }
    Ok(())
}
