//! How often frames have been overtaken, and the laws of every history.
ghost use Rattle.std.specs.Prelude.{◌≡◌};
ghost use Rattle.air.specs.Histories.{AlwaysLawful, AtMost};
ghost use Rattle.air.specs.Steps.{oldest_count};

use crate::Gauge;

/// How often the oldest waiting frame has been overtaken; 0 where none waits. In an air that was made empty and changed by calls
/// alone, no waiting frame has been overtaken more often.
///
/// The laws of every history hold of every air, since each of its calls is the step that a history takes.
pub fn most_overtaken<A: Gauge>(air: &A) -> u8
    ensures value { result ≡ oldest_count (A.Gauge.state air.now) }
    ensures most { AtMost result (A.Gauge.state air.now) }
    ensures laws { AlwaysLawful }
{
    air.count(0).unwrap_or(0)
}
