//! The methods of [`NEVec`] that drop repeated neighbours.
ghost use Rattle.std.specs.Prelude.{◌<◌, Bool, length};
ghost use Rattle.std.specs.List.Retain.{IsDeduped};
ghost use Rattle.std.specs.Fn.{CalledAtPairMut, ComparesKeys};

use super::NEVec;

impl<T: Drop> NEVec<T> {
    ghost use Rattle.ne_vec.specs.Kept.{ActsAsAtPairMut, ComparesKeysAs, KeepsFirsts};

    /// Drops each item whose key equals the key of the last item kept. So of each run of items
    /// whose keys equal the key of the run's first item, the first item stays.
    ///
    /// `key` is called with the later item first, then with the kept one. It must be callable with
    /// any value of the items' type. The clause `firsts` covers a `key` whose result depends only
    /// on the item and that changes nothing; `called` covers any `key`. At least one item stays,
    /// whatever `key` does.
    ///
    /// ```
    /// let mut items = nev![alloc; 41, 43, 60, 69, 40]?;
    /// items.dedup_by_key(|x| *x / 10); // [41, 60, 40]
    /// ```
    pub fn dedup_by_key<K: PartialEq + Drop, F: FnMut(&mut T) -> K>(&mut self, key: F)
        requires { F.IsAlwaysCallable key }
        ensures stays { 0 < length self.new }
        ensures firsts { (same : T → T → Bool) → ComparesKeysAs F.FnMut K.eq key same
            → KeepsFirsts same self.old self.new }
        ensures called { IsDeduped (ComparesKeys F.FnMut K.eq) key self.old self.new }
    {
        self.inner.dedup_by_key(key);
    }

    /// Drops each item for which `same_bucket(item, kept)` returns `true`, where `kept` is the last
    /// item kept. So of each run of items that are the same as the run's first item, the first item
    /// stays.
    ///
    /// `same_bucket` must be callable with any two values of the items' type. The clause `firsts`
    /// covers one whose result depends only on the two items and that changes nothing; `called`
    /// covers any. At least one item stays, whatever `same_bucket` does.
    ///
    /// ```
    /// let mut items = nev![alloc; 4, 6, 5, 3]?;
    /// items.dedup_by(|later, kept| *later < *kept); // [4, 6]
    /// ```
    pub fn dedup_by<F: FnMut(&mut T, &mut T) -> bool>(&mut self, same_bucket: F)
        requires { F.IsAlwaysCallable same_bucket }
        ensures stays { 0 < length self.new }
        ensures firsts { (same : T → T → Bool)
            → ActsAsAtPairMut F.FnMut same_bucket (λ later kept. same kept later)
            → KeepsFirsts same self.old self.new }
        ensures called { IsDeduped (CalledAtPairMut F.FnMut) same_bucket self.old self.new }
    {
        self.inner.dedup_by(same_bucket);
    }

    /// Drops each item that equals the last item kept. So of each run of items that equal the run's
    /// first item, the first item stays.
    ///
    /// ```
    /// let mut items = nev![alloc; 7u32, 7, 0, 12, 12, 35, 4294967295]?;
    /// items.dedup(); // [7, 0, 12, 35, 4294967295]
    /// ```
    pub fn dedup(&mut self)
    where
        T: PartialEq,
        ensures stays { 0 < length self.new }
        ensures firsts { KeepsFirsts T.eq self.old self.new }
    {
        self.inner.dedup();
    }
}
