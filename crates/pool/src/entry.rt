//! An entry of the table.
ghost use Rattle.std.specs.Prelude.{◌≡◌, ℕ, ◌<◌, ◌≤◌, length, slice_index_or};
ghost use Rattle.octets.specs.Areas.{front};
ghost use Rattle.air.specs.Waiting.{fresh, overtaken};
ghost use Rattle.pool.specs.declared.entry.Entry.{Entry};
ghost use Rattle.pool.specs.Entries.{frame_in, frames_in, raised_entry};

use arrayvec::ArrayVec;
use octets::LONGEST;

/// A frame, and how often it has been overtaken.
#[derive(Default, Drop)]
pub(crate) struct Entry {
    frame: ArrayVec<u8, LONGEST>,
    pub count: u8,
}

impl Entry {
    /// A frame that has just been put.
    pub(crate) fn holding(bytes: &[u8]) -> Entry
        requires { length bytes.now ≤ 32 }
        ensures { frame_in result ≡ fresh bytes.now }
    {
        Entry {
            frame: ArrayVec::try_from(bytes).unwrap(),
            count: 0,
        }
    }

    /// The frame has been overtaken once more.
    pub(crate) fn raise(&mut self)
        requires { self.old.count < 255 }
        ensures { self.new ≡ raised_entry self.old }
    {
        self.count += 1;
    }

    /// Copies the frame into the front of the area, and answers its length.
    pub(crate) fn copy_to(&self, area: &mut [u8; LONGEST]) -> usize
        ensures size { result ≡ length (frame_in self.now).frame }
        ensures area { area.new ≡ front (frame_in self.now).frame area.old }
    {
        let n = self.frame.len();
        area[..n].copy_from_slice(&self.frame);
        n
    }
}

/// Each of the first k frames is overtaken once more, in its place.
pub(crate) fn raise_counts(entries: &mut [Entry], k: usize)
    requires within { k ≤ length entries.old }
    requires small { (i : ℕ) (d : Entry) → i < k → (slice_index_or entries.old i d).count < 255 }
    ensures { frames_in entries.new ≡ overtaken k (frames_in entries.old) }
{
    for entry in &mut entries[..k] {
        entry.raise();
    }
}
