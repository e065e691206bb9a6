//! The calls of a tight air.
ghost use Rattle.std.specs.Prelude.{◌≡◌};
ghost use Rattle.air.specs.Steps.{lose_step, put_step, repeat_step, take_step};
ghost use Rattle.tight.specs.SameList.{Keeps};
ghost use Rattle.tight.specs.Tights.{tight_state};

use crate::Tight;
use air::{Air, check_answer};
use octets::LONGEST;
use refusal::Refusal;

/// Each call promises, beside what every air promises, what it keeps of the air below. For that, taking is passed on too.
impl<A: Air> Air for Tight<A> {
    fn put(&mut self, bytes: &[u8]) -> Result<(), Refusal>
        ensures step { (result, tight_state A.Gauge.state self.new) ≡ put_step bytes.now (tight_state A.Gauge.state self.old) }
        ensures below { Keeps A.Gauge.state self.old self.new }
    {
        self.below.put(bytes)
    }

    fn lose(&mut self, k: usize) -> Result<(), Refusal>
        ensures step { (result, tight_state A.Gauge.state self.new) ≡ lose_step k (tight_state A.Gauge.state self.old) }
        ensures below { Keeps A.Gauge.state self.old self.new }
    {
        self.below.lose(k)
    }

    fn take(&mut self, k: usize, area: &mut [u8; LONGEST]) -> Result<usize, Refusal>
        ensures step { (result, tight_state A.Gauge.state self.new, area.new) ≡ take_step k (tight_state A.Gauge.state self.old) area.old }
        ensures below { Keeps A.Gauge.state self.old self.new }
    {
        check_answer(self, k)?;
        self.below.take(k, area)
    }

    fn repeat(&mut self, k: usize, area: &mut [u8; LONGEST]) -> Result<usize, Refusal>
        ensures step { (result, tight_state A.Gauge.state self.new, area.new) ≡ repeat_step k (tight_state A.Gauge.state self.old) area.old }
        ensures below { Keeps A.Gauge.state self.old self.new }
    {
        check_answer(self, k)?;
        self.below.repeat(k, area)
    }
}
