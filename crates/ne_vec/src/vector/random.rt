//! The methods of [`NEVec`] that draw from a random number generator.
ghost use Rattle.std.specs.Prelude.{◌≡◌, length, Some, IsSome, IfSome, slice_get, IsPermutation};
ghost use Rattle.std.specs.Prelude.{Contains};
ghost use Rattle.rand.specs.Shuffle.{shuffled};
ghost use Rattle.rand.specs.Uniform.{usize_single};

use super::NEVec;
use rand::seq::{IndexedRandom, SliceRandom};
use rand_core::Rng;

impl<T> NEVec<T> {
    /// Shuffles the items: they become the permutation that `rand` draws for this list from `rng`.
    ///
    /// In the Rust crate this is `SliceRandom::shuffle`. It is not promised that all orders are
    /// equally likely.
    ///
    /// ```
    /// let mut small = SmallRng::seed_from_u64(7);
    /// let mut items = nev![alloc; 7]?;
    /// items.shuffle(&mut small); // [7]
    /// ```
    pub fn shuffle<G: Rng>(&mut self, rng: &mut G)
        ensures permutation { IsPermutation self.old self.new }
        ensures drawn { (self.new, G.stream rng.new) ≡ shuffled self.old 0 (G.stream rng.old) }
    {
        self.inner.shuffle(rng);
    }

    /// Returns a random item: the one that `rand` draws for this list from `rng`. It never returns
    /// `None`.
    ///
    /// In the Rust crate this is `IndexedRandom::choose`, which has the same return type. It is not
    /// promised that all items are equally likely.
    ///
    /// ```
    /// let mut small = SmallRng::seed_from_u64(7);
    /// let only = nev![alloc; 7]?.choose(&mut small).copied(); // Some(7)
    /// ```
    pub fn choose<G: Rng>(&self, rng: &mut G) -> Option<&T>
        ensures some { IsSome result }
        ensures member { IfSome result (λ x. Contains self.now x.now) }
        ensures drawn { IfSome result (λ x. (slice_get self.now
            (usize_single 0 (length self.now) (G.stream rng.old)).0 ≡ Some x.now)
            × (G.stream rng.new ≡ (usize_single 0 (length self.now) (G.stream rng.old)).1)) }
    {
        self.inner.as_slice().choose(rng)
    }
}
