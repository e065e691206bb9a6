//! A relay: what it does with the frames that wait in its air.
use crate::Flight;
use crate::carried::Carried;
use crate::draws::Draws;
use crate::stream::Stream;
use element::Kind;
use refusal::Refusal;

/// A relay on the way of one stream.
#[derive(Drop)]
pub(crate) struct Relay {
    draws: Draws,
    /// For how many more turns it is silent.
    silent: u8,
}

impl Relay {
    /// A relay that is not silent.
    pub(crate) fn new(draws: Draws) -> Relay {
        Relay { draws, silent: 0 }
    }

    /// Whether it is silent in this turn. Once in 60 turns or so it falls silent for 3 to 12 of them.
    fn is_silent(&mut self) -> bool {
        if self.silent == 0 && self.draws.up_to(59) == 0 {
            self.silent = self.draws.up_to(9).saturating_add(3);
        }
        let silent = self.silent > 0;
        self.silent = self.silent.saturating_sub(1);
        silent
    }

    /// Takes up a frame. Of 20 times, it loses one of the oldest four once, hands over a copy of the oldest once, lets one of the oldest
    /// four overtake those before it five times, and hands over the oldest otherwise. What the air holds back stays where it is.
    fn take_up<X: Kind, E: Carried, B: Carried>(
        &mut self,
        link: &mut Flight<X>,
        forth: &mut Stream<E>,
        back: &mut Stream<B>,
    ) -> anyhow::Result<()> {
        let youngest = forth.waiting().saturating_sub(1);
        let place = usize::from(self.draws.up_to(3)).min(youngest);
        let answer = match self.draws.up_to(19) {
            0 => return forth.lose(link, place),
            1 => forth.repeat(link, back, 0)?,
            2..=6 => forth.deliver(link, back, place)?,
            _ => forth.deliver(link, back, 0)?,
        };
        match answer {
            Ok(_) | Err(Refusal::BoundReached) => Ok(()),
            Err(refusal) => Err(refusal.into()),
        }
    }

    /// A turn of a relay: unless it is silent, it takes up as many as five frames that wait.
    pub(crate) fn work<X: Kind, E: Carried, B: Carried>(
        &mut self,
        link: &mut Flight<X>,
        forth: &mut Stream<E>,
        back: &mut Stream<B>,
    ) -> anyhow::Result<()> {
        if self.is_silent() {
            return Ok(());
        }
        for _ in 0..self.draws.up_to(5) {
            if forth.waiting() > 0 {
                self.take_up(link, forth, back)?;
            }
        }
        Ok(())
    }
}
