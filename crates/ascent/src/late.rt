//! Acknowledgements that come late: what they release, and what they would release on a cycle that is too short.
use crate::draft::WINDOW;
use anyhow::Context;
use protocol::Cycle;

/// A cycle that is too short: twice the window.
pub(crate) const TOO_SHORT: u16 = 2 * WINDOW as u16;

/// How many of so many held elements an acknowledgement would release on the cycle that is too short, where it is of so many elements, and
/// so many were released before.
pub(crate) fn released_on_too_short(
    acknowledged: usize,
    released: usize,
    held: usize,
) -> anyhow::Result<usize> {
    let cycle = Cycle::new(TOO_SHORT).context("a cycle without numbers")?;
    let ack = cycle.after(0, u16::try_from(acknowledged)?);
    let low = cycle.after(0, u16::try_from(released)?);
    Ok(cycle.released(low, held, ack))
}

/// The counts of acknowledgements that were of fewer elements than the sender had released.
#[derive(Clone, Copy, Default)]
pub(crate) struct Late {
    /// How many came.
    pub heard: u32,
    /// How many elements they released.
    pub released: usize,
    /// How many elements they would have released on the cycle that is too short.
    pub too_short: usize,
    /// How many of these the receiver had still to pass on.
    pub missing: usize,
}

impl Late {
    /// One more has come, and released so many elements; how many it would have released on the cycle that is too short, and how many of
    /// these were still missing.
    pub(crate) fn count(&mut self, released: usize, too_short: usize, missing: usize) {
        self.heard = self.heard.saturating_add(1);
        self.released = self.released.saturating_add(released);
        self.too_short = self.too_short.saturating_add(too_short);
        self.missing = self.missing.saturating_add(missing);
    }
}
