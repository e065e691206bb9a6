//! The balloon: how it climbs, bursts and falls, and what its instruments read.
use crate::draws::Draws;
use crate::weather::{
    cell_temperature_at, fall_at, humidity_at, ozone_at, pressure_at, temperature_at,
};
use element::Kind;
use element::ozone::Ozone;
use element::reading::Reading;

/// The second at which the balloon bursts.
const BURST: u32 = 6_050;

/// So many seconds before the burst the ozone cell is switched off, and from there on the flight is told call by call.
const NEAR_BURST: u32 = 10;

/// At this height the ozone cell is switched on, in decimetres.
const OZONE_HEIGHT: u32 = 100_000;

/// At this height the balloon is a few seconds from the ground, in decimetres.
const NEAR_GROUND: u32 = 280;

/// How much faster a falling balloon may get in a second, in decimetres a second.
const GRAVITY: u32 = 98;

/// A leg of the flight.
#[derive(Clone, Copy)]
pub(crate) enum Leg {
    /// Up to where the ozone cell is switched on.
    Low,
    /// From there up to a few seconds before the burst.
    High,
    /// From the burst down to a few seconds before the ground.
    Down,
}

/// A balloon on its way, with the instruments that hang from it.
#[derive(Drop)]
pub(crate) struct Balloon {
    /// Seconds from release.
    second: u32,
    /// Decimetres.
    height: u32,
    /// How fast it falls, in decimetres a second; 0 as long as it climbs.
    fall: u32,
    draws: Draws,
    ozone_draws: Draws,
}

impl Balloon {
    /// A balloon at its release. The ozone cell's noise is drawn apart from all else.
    pub(crate) fn released(draws: Draws, ozone_draws: Draws) -> Balloon {
        Balloon {
            second: 0,
            height: 0,
            fall: 0,
            draws,
            ozone_draws,
        }
    }

    /// Seconds from release.
    pub(crate) fn second(&self) -> u32 {
        self.second
    }

    /// Its height, in decimetres.
    pub(crate) fn height(&self) -> u32 {
        self.height
    }

    /// Whether it has burst.
    fn has_burst(&self) -> bool {
        self.second >= BURST
    }

    /// Whether it is at the end of a leg: where the ozone cell is switched on, or a few seconds before it bursts or is on the ground.
    pub(crate) fn has_flown(&self, leg: Leg) -> bool {
        match leg {
            Leg::Low => self.height >= OZONE_HEIGHT,
            Leg::High => self.second >= BURST - NEAR_BURST,
            Leg::Down => self.has_burst() && self.height <= NEAR_GROUND,
        }
    }

    /// What the instruments read now, with a little noise.
    fn reading(&mut self) -> anyhow::Result<Reading> {
        let temperature = temperature_at(self.height).saturating_add(self.draws.about_zero(5));
        let humidity = humidity_at(self.height).saturating_add(self.draws.about_zero(3));
        let pressure = pressure_at(self.height).saturating_add(self.draws.about_zero(1));
        let reading = Reading {
            time: self.second.saturating_mul(10),
            height: i32::try_from(self.height)?,
            temperature: i16::try_from(temperature)?,
            humidity: u16::try_from(humidity)?,
            pressure: u16::try_from(pressure)?,
        };
        Ok(reading.make()?)
    }

    /// What the ozone cell reads now, with a little noise.
    pub(crate) fn ozone(&mut self) -> anyhow::Result<Ozone> {
        let partial_pressure = ozone_at(self.height).saturating_add(self.ozone_draws.about_zero(3));
        let cell_temperature = cell_temperature_at(self.height).saturating_add(
            self.ozone_draws.about_zero(4),
        );
        let ozone = Ozone {
            time: self.second.saturating_mul(10),
            partial_pressure: u16::try_from(partial_pressure)?,
            cell_temperature: i16::try_from(cell_temperature)?,
        };
        Ok(ozone.make()?)
    }

    /// A second goes by: it climbs at about 5 m/s, or falls faster than in the second before, but no faster than the air lets it.
    fn rise_or_fall(&mut self) -> anyhow::Result<()> {
        self.second = self.second.saturating_add(1);
        if self.has_burst() {
            let braked = u32::try_from(fall_at(self.height))?;
            self.fall = self.fall.saturating_add(GRAVITY).min(braked);
            self.height = self.height.saturating_sub(self.fall);
        } else {
            let climbed = u32::from(self.draws.up_to(12)) + 44;
            self.height = self.height.saturating_add(climbed);
        }
        Ok(())
    }

    /// What the instruments read in this second; the next one begins.
    pub(crate) fn read(&mut self) -> anyhow::Result<Reading> {
        let reading = self.reading()?;
        self.rise_or_fall()?;
        Ok(reading)
    }
}
