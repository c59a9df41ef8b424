//! Laws that the collections' iterators end, and two more: those of a peeked source and of
//! `intersperse`. With these laws and those of the adapters, a caller shows that its chain ends.
ghost use Rattle.std.specs.Iterator.{IsFinite};
ghost use Rattle.ne_vec.specs.SliceRuns.{CallableAtPairs};
ghost use Rattle.ne_iter.specs.Intersperse.{intersperse_rest};
ghost use Rattle.ne_iter.specs.TryInto.{peeked_iterator};

use ne_hash::{NEMap, NESet, map, set};
use ne_index::{NEIndexMap, NEIndexSet, index_map, index_set};
use ne_iter::ArrayNonEmptyIterator;
use ne_iter::iter::{Intersperse, ItemSource, NonEmptyIterAdapter};
use ne_tree::{NEBTreeMap, NEBTreeSet, btree_map, btree_set};
use ne_vec::{NESlice, NEVec, slice, vector};
use std::hash::{BuildHasher, Hash};
use std::iter::Peekable;

/// A vector ends, by value and by reference, and so do its iterators.
pub fn vectors_end<'a, T: Drop + 'a>()
    ensures vectors { (v : _) → ⟦<NEVec<T> as ItemSource>⟧.ends v }
    ensures lent { (v : _) → ⟦<&'a NEVec<T> as ItemSource>⟧.ends v }
    ensures mutable { (v : _) → ⟦<&'a mut NEVec<T> as ItemSource>⟧.ends v }
    ensures iterators { (v : _) → ⟦<vector::Iter<'a, T> as ItemSource>⟧.ends v }
    ensures writing { (v : _) → ⟦<vector::IterMut<'a, T> as ItemSource>⟧.ends v }
    ensures own { (v : _) → ⟦<vector::IntoIter<T> as ItemSource>⟧.ends v }
{}

/// A slice ends, and so do its iterators and its chunks.
pub fn slices_end<'a, T: 'a>()
    ensures slices { (v : _) → ⟦<NESlice<'a, T> as ItemSource>⟧.ends v }
    ensures lent { (v : _) → ⟦<&'a NESlice<'a, T> as ItemSource>⟧.ends v }
    ensures iterators { (v : _) → ⟦<slice::Iter<'a, T> as ItemSource>⟧.ends v }
    ensures chunks { (v : _) → ⟦<slice::NEChunks<'a, T> as ItemSource>⟧.ends v }
{}

/// The runs of a slice end, if the closure may be called with any two of its items.
pub fn slice_runs_end<'a, T: 'a, F: Fn(&T, &T) -> bool>()
    ensures by_first { (s : _) → CallableAtPairs F.Fn s.closure s.left
        → ⟦<slice::SliceRuns<'a, T, F> as ItemSource>⟧.ends s }
    ensures by_previous { (s : _) → CallableAtPairs F.Fn s.closure s.left
        → ⟦<slice::AdjacentRuns<'a, T, F> as ItemSource>⟧.ends s }
{}

/// An array ends, by value and by reference, and so does its iterator.
pub fn arrays_end<'a, T: Drop + 'a, const N: usize>()
    ensures arrays { (a : _) → ⟦<[T; N] as ItemSource>⟧.ends a }
    ensures lent { (a : _) → ⟦<&'a [T; N] as ItemSource>⟧.ends a }
    ensures iterators { (a : _) → ⟦<ArrayNonEmptyIterator<T, N> as ItemSource>⟧.ends a }
{}

/// The source that an iterator with an item becomes ends if the iterator does.
pub fn peeked_sources_end<I: Iterator>()
where
    I::Item: Drop,
    ensures { (s : _) → ⟦<Peekable<I> as Iterator>⟧.can_next (peeked_iterator s)
        → IsFinite (⟦<Peekable<I> as Iterator>⟧.remaining (peeked_iterator s))
        → ⟦<NonEmptyIterAdapter<Peekable<I>> as ItemSource>⟧.ends s }
{}

/// `intersperse` ends if the iterator over the items after the first does.
pub fn intersperse_ends<I: Iterator>()
where
    I::Item: Clone + Drop,
    ensures { (s : _) → I.can_next (intersperse_rest s)
        → IsFinite (I.remaining (intersperse_rest s))
        → ⟦<Intersperse<I> as ItemSource>⟧.ends s }
{}

/// A tree map ends, by value and by reference, and so do its iterators.
pub fn tree_maps_end<'a, K: Ord + Drop + 'a, V: Drop + 'a>()
    ensures maps { (m : _) → ⟦<NEBTreeMap<K, V> as ItemSource>⟧.ends m }
    ensures lent { (m : _) → ⟦<&'a NEBTreeMap<K, V> as ItemSource>⟧.ends m }
    ensures mutable { (m : _) → ⟦<&'a mut NEBTreeMap<K, V> as ItemSource>⟧.ends m }
    ensures iterators { (m : _) → ⟦<btree_map::Iter<'a, K, V> as ItemSource>⟧.ends m }
    ensures writing { (m : _) → ⟦<btree_map::IterMut<'a, K, V> as ItemSource>⟧.ends m }
    ensures own { (m : _) → ⟦<btree_map::IntoIter<K, V> as ItemSource>⟧.ends m }
    ensures keys { (m : _) → ⟦<btree_map::Keys<'a, K, V> as ItemSource>⟧.ends m }
    ensures values { (m : _) → ⟦<btree_map::Values<'a, K, V> as ItemSource>⟧.ends m }
    ensures writing_values { (m : _) → ⟦<btree_map::ValuesMut<'a, K, V> as ItemSource>⟧.ends m }
    ensures own_keys { (m : _) → ⟦<btree_map::IntoKeys<K, V> as ItemSource>⟧.ends m }
    ensures own_values { (m : _) → ⟦<btree_map::IntoValues<K, V> as ItemSource>⟧.ends m }
{}

/// A tree set ends, by value and by reference, and so do its iterators.
pub fn tree_sets_end<'a, T: Ord + Drop + 'a>()
    ensures sets { (s : _) → ⟦<NEBTreeSet<T> as ItemSource>⟧.ends s }
    ensures lent { (s : _) → ⟦<&'a NEBTreeSet<T> as ItemSource>⟧.ends s }
    ensures iterators { (s : _) → ⟦<btree_set::Iter<'a, T> as ItemSource>⟧.ends s }
    ensures own { (s : _) → ⟦<btree_set::IntoIter<T> as ItemSource>⟧.ends s }
    ensures unions { (s : _) → ⟦<btree_set::Union<'a, T> as ItemSource>⟧.ends s }
{}

/// A hashed map ends, by value and by reference, and so do its iterators.
pub fn hashed_maps_end<'a, K: Eq + Hash + Drop + 'a, V: Drop + 'a, S: BuildHasher + Drop + 'a>()
    ensures maps { (m : _) → ⟦<NEMap<K, V, S> as ItemSource>⟧.ends m }
    ensures lent { (m : _) → ⟦<&'a NEMap<K, V, S> as ItemSource>⟧.ends m }
    ensures mutable { (m : _) → ⟦<&'a mut NEMap<K, V, S> as ItemSource>⟧.ends m }
    ensures iterators { (m : _) → ⟦<map::Iter<'a, K, V> as ItemSource>⟧.ends m }
    ensures writing { (m : _) → ⟦<map::IterMut<'a, K, V> as ItemSource>⟧.ends m }
    ensures own { (m : _) → ⟦<map::IntoIter<K, V> as ItemSource>⟧.ends m }
    ensures keys { (m : _) → ⟦<map::Keys<'a, K, V> as ItemSource>⟧.ends m }
    ensures values { (m : _) → ⟦<map::Values<'a, K, V> as ItemSource>⟧.ends m }
    ensures writing_values { (m : _) → ⟦<map::ValuesMut<'a, K, V> as ItemSource>⟧.ends m }
    ensures own_keys { (m : _) → ⟦<map::IntoKeys<K, V> as ItemSource>⟧.ends m }
    ensures own_values { (m : _) → ⟦<map::IntoValues<K, V> as ItemSource>⟧.ends m }
{}

/// A hashed set ends, by value and by reference, and so do its iterators.
pub fn hashed_sets_end<'a, T: Eq + Hash + Drop + 'a, S: BuildHasher + Drop + 'a>()
    ensures sets { (s : _) → ⟦<NESet<T, S> as ItemSource>⟧.ends s }
    ensures lent { (s : _) → ⟦<&'a NESet<T, S> as ItemSource>⟧.ends s }
    ensures iterators { (s : _) → ⟦<set::Iter<'a, T> as ItemSource>⟧.ends s }
    ensures own { (s : _) → ⟦<set::IntoIter<T> as ItemSource>⟧.ends s }
    ensures unions { (s : _) → ⟦<set::Union<'a, T, S> as ItemSource>⟧.ends s }
{}

/// An index map ends, by value and by reference, and so do its iterators.
pub fn index_maps_end<'a, K: Eq + Hash + Drop + 'a, V: Drop + 'a, S: BuildHasher + Drop + 'a>()
    ensures maps { (m : _) → ⟦<NEIndexMap<K, V, S> as ItemSource>⟧.ends m }
    ensures lent { (m : _) → ⟦<&'a NEIndexMap<K, V, S> as ItemSource>⟧.ends m }
    ensures mutable { (m : _) → ⟦<&'a mut NEIndexMap<K, V, S> as ItemSource>⟧.ends m }
    ensures iterators { (m : _) → ⟦<index_map::Iter<'a, K, V> as ItemSource>⟧.ends m }
    ensures writing { (m : _) → ⟦<index_map::IterMut<'a, K, V> as ItemSource>⟧.ends m }
    ensures own { (m : _) → ⟦<index_map::IntoIter<K, V> as ItemSource>⟧.ends m }
    ensures keys { (m : _) → ⟦<index_map::Keys<'a, K, V> as ItemSource>⟧.ends m }
    ensures values { (m : _) → ⟦<index_map::Values<'a, K, V> as ItemSource>⟧.ends m }
    ensures writing_values { (m : _) → ⟦<index_map::ValuesMut<'a, K, V> as ItemSource>⟧.ends m }
{}

/// An index set ends, by value and by reference, and so do its iterators.
pub fn index_sets_end<'a, T: Eq + Hash + Drop + 'a, S: BuildHasher + Drop + 'a>()
    ensures sets { (s : _) → ⟦<NEIndexSet<T, S> as ItemSource>⟧.ends s }
    ensures lent { (s : _) → ⟦<&'a NEIndexSet<T, S> as ItemSource>⟧.ends s }
    ensures iterators { (s : _) → ⟦<index_set::Iter<'a, T> as ItemSource>⟧.ends s }
    ensures own { (s : _) → ⟦<index_set::IntoIter<T> as ItemSource>⟧.ends s }
    ensures unions { (s : _) → ⟦<index_set::Union<'a, T, S> as ItemSource>⟧.ends s }
{}
