//! A plain model of a link: its numbers never start over, its frames are not written, and its elements are numbers.
use crate::calls::{Answer, Call};
use frame::Side;
use link::Hearing;
use protocol::Placement;
use std::alloc::{AllocError, Global};

/// A frame on its way.
#[derive(Clone, Copy)]
struct Waiting {
    /// The number of the first element that its sender had not received.
    ack: usize,
    /// The number of the element that it carries, if it carries one.
    number: Option<usize>,
    /// How often it has been overtaken.
    count: u32,
}

/// A stream: its elements, by their numbers; where its two ends are; and its air.
#[derive(Drop)]
pub(crate) struct Stream {
    window: usize,
    bound: u32,
    capacity: usize,
    /// Every element that was accepted.
    elements: Vec<u32>,
    /// Whether each of these has been received.
    received: Vec<bool>,
    /// How many of them are acknowledged.
    low: usize,
    /// How many of them are passed on.
    base: usize,
    air: Vec<Waiting>,
    /// How often an acknowledgement came late.
    pub(crate) late: usize,
}

impl Stream {
    /// A stream with this window and this bound, whose air has room for so many frames.
    fn new(alloc: Global, (window, bound): (u32, u32), capacity: usize) -> Stream {
        Stream {
            window: window as usize,
            bound,
            capacity,
            elements: Vec::new(alloc),
            received: Vec::new(alloc),
            low: 0,
            base: 0,
            air: Vec::new(alloc),
            late: 0,
        }
    }

    /// How many elements are accepted and not passed on.
    pub(crate) fn owed(&self) -> usize {
        self.elements.len().saturating_sub(self.base)
    }

    /// Every element that was accepted, in sequence.
    pub(crate) fn accepted(&self) -> &[u32] {
        &self.elements
    }

    /// The number of the first element that was not received.
    fn next_free(&self) -> usize {
        let filled = self.received.iter().skip(self.base).take_while(|it| **it);
        self.base.saturating_add(filled.count())
    }

    /// The sender takes an element, where its window has room.
    fn accept(&mut self, element: u32) -> Result<Answer, AllocError> {
        if self.elements.len().saturating_sub(self.low) >= self.window {
            return Ok(Answer::Refused(4));
        }
        self.elements.push(element)?;
        self.received.push(false)?;
        Ok(Answer::Done)
    }

    /// A frame joins the air.
    fn put(&mut self, ack: usize, number: Option<usize>) -> Result<Answer, AllocError> {
        if self.air.len() >= self.capacity {
            return Ok(Answer::Refused(6));
        }
        let count = 0;
        self.air.push(Waiting { ack, number, count })?;
        Ok(Answer::Done)
    }

    /// The k-th held element is sent, with this acknowledgement.
    fn send(&mut self, k: usize, ack: usize) -> Result<Answer, AllocError> {
        let number = self.low.saturating_add(k);
        if number >= self.elements.len() {
            return Ok(Answer::Refused(5));
        }
        self.put(ack, Some(number))
    }

    /// Frame k is gone.
    fn lose(&mut self, k: usize) -> Answer {
        if k >= self.air.len() {
            return Answer::Refused(7);
        }
        self.air.remove(k);
        Answer::Done
    }

    /// Frame k overtakes each older one; or the number of the refusal.
    fn overtake(&mut self, k: usize) -> Result<Waiting, u8> {
        let frame = *self.air.get(k).ok_or(7u8)?;
        if self
            .air
            .iter()
            .take(k)
            .any(|older| older.count >= self.bound)
        {
            return Err(8);
        }
        for older in self.air.iter_mut().take(k) {
            older.count = older.count.saturating_add(1);
        }
        Ok(frame)
    }

    /// An acknowledgement releases what lies before its number.
    fn acknowledge(&mut self, ack: usize) -> usize {
        if ack < self.low {
            self.late = self.late.saturating_add(1);
            return 0;
        }
        let released = ack.saturating_sub(self.low);
        self.low = ack;
        released
    }

    /// What becomes of the element with this number.
    fn place(&mut self, number: usize) -> Placement {
        match number.checked_sub(self.base) {
            Some(d) if d < self.window => {
                if let Some(received) = self.received.get_mut(number) {
                    *received = true;
                }
                Placement::Slot(d)
            }
            _ => Placement::Outside,
        }
    }

    /// The receiver passes on its next element, where it has received it.
    fn pass(&mut self) -> Option<u32> {
        let received = *self.received.get(self.base)?;
        if !received {
            return None;
        }
        let element = *self.elements.get(self.base)?;
        self.base = self.base.saturating_add(1);
        Some(element)
    }

    /// What settling gives the end of the stream; everything is passed on and acknowledged then, and no frame waits.
    fn settle(&mut self, alloc: Global) -> Result<Vec<u32>, AllocError> {
        let owed = self
            .elements
            .iter()
            .skip(self.base)
            .copied()
            .collect(alloc)?;
        self.received.fill(true);
        self.low = self.elements.len();
        self.base = self.elements.len();
        self.air.clear();
        Ok(owed)
    }
}

/// A frame of one stream is heard, which acknowledges the other.
fn hear(out: &mut Stream, back: &mut Stream, frame: Waiting) -> Answer {
    let released = back.acknowledge(frame.ack);
    let placement = match frame.number {
        Some(number) => out.place(number),
        None => Placement::Bare,
    };
    Answer::Heard(Hearing {
        released,
        placement,
    })
}

/// A call at the end that sends the one stream and receives the other.
fn act(out: &mut Stream, back: &mut Stream, call: Call) -> Result<Answer, AllocError> {
    match call {
        Call::Accept(element) => out.accept(element),
        Call::AcceptWrong if out.elements.len().saturating_sub(out.low) >= out.window => {
            Ok(Answer::Refused(4))
        }
        Call::AcceptWrong => Ok(Answer::Refused(17)),
        Call::Send(k) => out.send(k, back.next_free()),
        Call::Bare => out.put(back.next_free(), None),
        Call::Lose(k) => Ok(out.lose(k)),
        Call::Deliver(k) => Ok(match out.overtake(k) {
            Ok(frame) => {
                out.lose(k);
                hear(out, back, frame)
            }
            Err(number) => Answer::Refused(number),
        }),
        Call::Repeat(k) => Ok(match out.overtake(k) {
            Ok(frame) => hear(out, back, frame),
            Err(number) => Answer::Refused(number),
        }),
        Call::Pass => Ok(Answer::Passed(back.pass())),
    }
}

/// Both streams.
#[derive(Drop)]
pub(crate) struct Model {
    pub(crate) hut_bound: Stream,
    pub(crate) mast_bound: Stream,
}

impl Model {
    /// A link whose streams have these windows and bounds, over airs with room for so many frames.
    pub(crate) fn new(
        alloc: Global,
        readings: (u32, u32),
        orders: (u32, u32),
        capacity: usize,
    ) -> Model {
        Model {
            hut_bound: Stream::new(alloc, readings, capacity),
            mast_bound: Stream::new(alloc, orders, capacity),
        }
    }

    /// What a call at a side answers.
    pub(crate) fn called(&mut self, side: Side, call: Call) -> Result<Answer, AllocError> {
        match side {
            Side::Mast => act(&mut self.hut_bound, &mut self.mast_bound, call),
            Side::Hut => act(&mut self.mast_bound, &mut self.hut_bound, call),
        }
    }

    /// What settling gives the mast, and what it gives the hut.
    pub(crate) fn settled(&mut self, alloc: Global) -> Result<(Vec<u32>, Vec<u32>), AllocError> {
        let mast = self.mast_bound.settle(alloc)?;
        let hut = self.hut_bound.settle(alloc)?;
        Ok((mast, hut))
    }
}
