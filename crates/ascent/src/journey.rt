//! The flight second by second: the balloon's instruments read, and the links carry what they read.
use crate::Flight;
use crate::balloon::Balloon;
use crate::draws::Draws;
use crate::orders::order_at;
use crate::relay::Relay;
use crate::traffic::Traffic;
use element::ozone::Ozone;
use element::reading::Reading;
use protocol::Draft;
use std::alloc::Global;

/// What the flight keeps besides its links.
#[derive(Drop)]
pub(crate) struct Journey {
    pub balloon: Balloon,
    /// Of the first link, from the release to the ground.
    pub first: Traffic<Reading>,
    /// Of the ozone link, which is there for a part of the way up.
    pub ozone: Traffic<Ozone>,
}

impl Journey {
    /// A journey before its first second. Both links are drafted alike. The balloon, each relay and the ozone cell draw from a sequence of
    /// their own.
    pub(crate) fn new(alloc: Global, draft: &Draft) -> Journey {
        Journey {
            balloon: Balloon::released(Draws::new(0), Draws::new(5)),
            first: Traffic::new(
                alloc,
                draft,
                Relay::new(Draws::new(1)),
                Relay::new(Draws::new(2)),
            ),
            ozone: Traffic::new(
                alloc,
                draft,
                Relay::new(Draws::new(3)),
                Relay::new(Draws::new(4)),
            ),
        }
    }

    /// The instruments read, and a second goes by; what they read is queued at the mast.
    pub(crate) fn read(&mut self) -> anyhow::Result<()> {
        let reading = self.balloon.read()?;
        self.first.hut_bound.made.push(reading)?;
        Ok(())
    }

    /// The hut makes an order, if it is time for one.
    fn order(&mut self) -> anyhow::Result<()> {
        if let Some(order) = order_at(self.balloon.second(), self.balloon.height())? {
            self.first.mast_bound.made.push(order)?;
        }
        Ok(())
    }

    /// A second of the flight over the first link.
    pub(crate) fn fly(&mut self, link: &mut Flight<Reading>) -> anyhow::Result<()> {
        self.read()?;
        self.order()?;
        self.first.fly(link)
    }

    /// A second of the flight over both links. The ozone cell is read, too.
    pub(crate) fn fly_both(
        &mut self,
        link: &mut Flight<Reading>,
        ozone_link: &mut Flight<Ozone>,
    ) -> anyhow::Result<()> {
        self.ozone.hut_bound.made.push(self.balloon.ozone()?)?;
        self.fly(link)?;
        self.ozone.fly(ozone_link)
    }
}
