//! A console board, for any kind of element: the headline of the latest one that was posted, and how many were.
//!
//! It must know nothing of which kinds there are, nor of links: whoever has an element posts it.
#![tactic(auto)]

ghost use Rattle.std.specs.Prelude.{◌≡◌, [], ◌∷◌};
ghost use Rattle.board.specs.Boards.{ExtendedBy, all_posted, posted, shown};

use element::Kind;

/// A board for elements of the kind K.
#[derive(Drop)]
pub struct Board<K: Kind> {
    latest: Option<K::Headline>,
    count: u32,
}

impl<K: Kind> Board<K> {
    /// A board on which nothing was posted.
    pub fn new() -> Board<K>
        ensures { result ≡ shown K.headline [] }
    {
        Board {
            latest: None,
            count: 0,
        }
    }

    /// The headline of the latest element; none at first.
    pub fn latest(&self) -> Option<K::Headline>
        ensures { result ≡ self.now.latest }
    {
        self.latest
    }

    /// How many elements were posted; the count stays at the greatest number of 32 bits.
    pub fn count(&self) -> u32
        ensures { result ≡ self.now.count }
    {
        self.count
    }

    /// Posts an element.
    #[tactic(auto, using(crate::proofs::Posts::shows_one))]
    pub fn post(&mut self, element: &K)
        ensures step { self.new ≡ posted K.headline element.now self.old }
        ensures sequence { ExtendedBy K.headline (element.now ∷ []) self.old self.new }
    {
        let Board { latest, count } = self;
        *latest = Some(element.headline());
        *count = count.saturating_add(1);
    }

    /// Posts elements, one after another.
    #[tactic(auto, using(crate::proofs::Posts::shows_all))]
    pub fn post_all(&mut self, elements: &[K])
        ensures steps { self.new ≡ all_posted K.headline elements.now self.old }
        ensures sequence { ExtendedBy K.headline elements.now self.old self.new }
    {
        for element in elements {
            self.post(element);
        }
    }
}
