//! What is asked for of one stream.
ghost use Rattle.std.specs.Prelude.{◌≡◌};
ghost use Rattle.protocol.specs.Drafts.{least_cycle};

/// The terms that are asked for of one stream: any numbers, until they are drafted.
#[derive(Clone, Copy, PartialEq, Eq, Debug)]
pub struct Terms {
    /// How many elements the sender may hold, and how many slots the receiver has.
    pub window: u32,
    /// How often a frame may be overtaken in the stream's air.
    pub bound: u32,
    /// How many frame numbers there are before they start over.
    pub cycle: u32,
}

/// The least cycle of a stream with this window and this bound, where the other stream has the bound `other_bound`: no shorter one
/// that is over the window keeps every late frame and every late acknowledgement apart from the fresh ones.
pub fn least_cycle(window: u32, bound: u32, other_bound: u32) -> u64
    ensures { result ≡ least_cycle window bound other_bound }
{
    let (window, bound, other_bound) = (
        u64::from(window),
        u64::from(bound),
        u64::from(other_bound),
    );
    let for_frames = 2 * window + bound;
    let for_acknowledgements = (other_bound + 1) * window + 1;
    for_frames.max(for_acknowledgements)
}
