//! How many frames of a stream were sent, and what the relay did with them.

/// The counts of a stream's frames. Those that a settle sends are not among them.
#[derive(Clone, Copy, Default)]
pub(crate) struct Frames {
    /// How many frames were sent.
    pub sent: u32,
    /// How many were lost.
    pub lost: u32,
    /// How many copies were handed over.
    pub repeated: u32,
    /// How often a frame was overtaken by another one.
    pub overtaken: u32,
    /// How often a frame was held back, since an older one could not be overtaken again.
    pub held_back: u32,
}

impl Frames {
    /// A frame was sent.
    pub(crate) fn count_sent(&mut self) {
        self.sent = self.sent.saturating_add(1);
    }

    /// A frame was lost.
    pub(crate) fn count_lost(&mut self) {
        self.lost = self.lost.saturating_add(1);
    }

    /// A copy was handed over.
    pub(crate) fn count_repeated(&mut self) {
        self.repeated = self.repeated.saturating_add(1);
    }

    /// A frame overtook so many older ones.
    pub(crate) fn count_overtaken(&mut self, older: u32) {
        self.overtaken = self.overtaken.saturating_add(older);
    }

    /// A frame was held back.
    pub(crate) fn count_held_back(&mut self) {
        self.held_back = self.held_back.saturating_add(1);
    }

    /// The counts of two streams together.
    pub(crate) fn and(self, others: Frames) -> Frames {
        Frames {
            sent: self.sent.saturating_add(others.sent),
            lost: self.lost.saturating_add(others.lost),
            repeated: self.repeated.saturating_add(others.repeated),
            overtaken: self.overtaken.saturating_add(others.overtaken),
            held_back: self.held_back.saturating_add(others.held_back),
        }
    }
}
