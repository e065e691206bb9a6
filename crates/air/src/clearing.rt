//! Emptying an air.
ghost use Rattle.std.specs.Prelude.{◌≡◌};
ghost use Rattle.air.specs.Waiting.{empty_air};

use crate::{Air, Gauge};

/// Loses every waiting frame, the youngest first, so that no other has to close up.
pub fn clear<A: Air>(air: &mut A)
    ensures { A.Gauge.state air.new ≡ empty_air (A.Gauge.state air.old).capacity (A.Gauge.state air.old).bound }
{
    while let Some(youngest) = air.waiting().checked_sub(1) {
        let _ = air.lose(youngest);
    }
}
