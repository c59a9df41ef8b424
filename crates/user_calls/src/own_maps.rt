//! A user's own map type: the list of its pairs, which is enough if there are few keys.
ghost use Rattle.std.specs.Prelude.{◌≡◌, ◌<◌, [], ◌∷◌, length, IfOk, IfSome};
ghost use Rattle.std.specs.List.{position};

use ne_laws::maps::NonEmptyMap;
use nonempty_collections::NEVec;
use std::alloc::{AllocError, Global};
use std::marker::Model;
use std::mem;
use std::num::NonZeroUsize;

/// A list of pairs, at least one, in which no two keys are equal. In contracts it is that list.
#[derive(Drop)]
pub struct PairMap<K: Eq, V> {
    pairs: NEVec<(K, V)>,
}

impl<K: Eq, V> Model for PairMap<K, V> {
    ghost use Rattle.std.specs.Prelude.{List};
    ghost use Rattle.ne_laws.specs.Maps.{IsNonEmptyMap};

    ghost Value = { List (K × V) };

    ghost view = { λ m. m.pairs };

    ghost invariant = { λ m. IsNonEmptyMap K.eq m.pairs };
}

impl<K: Eq + Drop, V: Drop> PairMap<K, V> {
    /// Creates a map that holds the key `k` with the value `v`. Returns `AllocError` if the
    /// allocation fails; the pair is then dropped.
    pub fn new(alloc: Global, k: K, v: V) -> Result<Self, AllocError>
        ensures { IfOk result (λ m. m ≡ (k, v) ∷ []) }
    {
        Ok(PairMap {
            pairs: NEVec::new(alloc, (k, v))?,
        })
    }

    // Returns the index of the key equal to `k`, or `None` if there is no such key.
    fn place(&self, k: &K) -> Option<usize>
        ensures place { result ≡ position (λ p. K.eq k.now p.0) self.now }
        ensures within { IfSome result (λ i. i < length self.now) }
    {
        self.pairs.iter().position(|pair| *k == pair.0)
    }
}

impl<K: Eq + Drop, V: Drop> NonEmptyMap<K, V> for PairMap<K, V> {
    ghost entries = { λ m. m };

    fn put(&mut self, k: K, v: V) -> Result<Option<V>, AllocError> {
        if self.has(&k) {
            return Ok(self.set(&k, v));
        }
        self.pairs.push((k, v))?;
        Ok(None)
    }

    fn has(&self, k: &K) -> bool {
        self.place(k).is_some()
    }

    fn set(&mut self, k: &K, v: V) -> Option<V> {
        let place = self.place(k)?;
        Some(mem::replace(&mut self.pairs[place].1, v))
    }

    fn take(&mut self, k: &K) -> Option<V> {
        let place = self.place(k)?;
        let (_key, v) = self.pairs.remove(place)?;
        Some(v)
    }

    fn size(&self) -> NonZeroUsize {
        self.pairs.len()
    }
}
