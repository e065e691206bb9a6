//! A frame that is damaged on the way: each of its bits is turned over, and the hut tells it from what was sent.
use element::reading::Reading;
use frame::{Frame, hear};
use refusal::Refusal;
use std::io;
use telling::HUT_BOUND;

/// One more than the greatest number of a refusal.
const NUMBERS: usize = 19;

/// How often damaged bytes were heard all the same, and how often each refusal answered, by its number.
#[derive(Clone, Copy)]
struct Tally {
    heard: u32,
    refused: [u32; NUMBERS],
}

impl Tally {
    /// Counts one more answer.
    fn count(&mut self, answer: Result<Frame<Reading>, Refusal>) {
        let count = match answer {
            Ok(_) => &mut self.heard,
            Err(refusal) => &mut self.refused[usize::from(refusal.number())],
        };
        *count = count.saturating_add(1);
    }
}

/// Turns one of a frame's bits over; the bits of a byte are counted from its lowest.
fn turn_over(frame: &mut [u8], bit: usize) {
    if let Some(byte) = frame.get_mut(bit / 8) {
        *byte ^= 1 << (bit % 8);
    }
}

/// Hears a frame with each of its bits turned over, one at a time, and turned back.
fn turn_each_bit(frame: &mut [u8]) -> Tally {
    let mut tally = Tally {
        heard: 0,
        refused: [0; NUMBERS],
    };
    for bit in 0..frame.len().saturating_mul(8) {
        turn_over(frame, bit);
        tally.count(hear::<Reading>(HUT_BOUND, frame));
        turn_over(frame, bit);
    }
    tally
}

/// Tells how often each refusal answered, and how often the damaged frame was heard. It takes no memory.
pub(crate) fn tell_damage(rt: &impl Print, frame: &mut [u8]) -> io::Result<()> {
    println!(rt; "Each bit is turned over on the way, one at a time:")?;
    let tally = turn_each_bit(frame);
    for (number, count) in tally.refused.iter().enumerate() {
        if *count > 0 {
            println!(rt; "    {count} times refusal {number}")?;
        }
    }
    println!(rt; "    {} times heard all the same", tally.heard)
}
