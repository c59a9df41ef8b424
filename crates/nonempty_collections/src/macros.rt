//! The macros that make collections of what is written out.

/// Adds each item, or each pair, to the collection that is made first, by its method `$add`. The
/// expressions are evaluated one after another, and none after a failed allocation.
///
/// The other macros expand to it, so it is exported; call one of them.
#[doc(hidden)]
#[macro_export]
macro_rules! add_each {
    ($made:expr; $add:ident; $($item:expr $(=> $value:expr)?),+) => {
        'made: {
            let mut made = match $made {
                Ok(made) => made,
                Err(refused) => break 'made Err(refused),
            };
            $(
                if let Err(refused) = made.$add($item $(, $value)?) {
                    break 'made Err(refused);
                }
            )+
            Ok(made)
        }
    };
}

/// Makes a vector of the given items, as in `nev![alloc; 1, 2, 3]`, or of one item repeated, as in
/// `nev![alloc; 0; 7]`.
///
/// It evaluates to a `Result`, which is `AllocError` if an allocation, or a clone of the repeated
/// item, fails; the items are then dropped. The expressions are evaluated from left to right, the
/// allocator first, and none after a failure. They may not contain `return`, `break` or `?`. The
/// number of repetitions is a `usize` that must not be 0; in the Rust crate it is a constant.
/// Without an item the macro does not compile.
///
/// ```
/// let three = nev![alloc; 7, 5, 9]?; // [7, 5, 9]
/// let one = nev![alloc; 7]?; // [7]
/// let same = nev![alloc; 7; 4]?; // [7, 7, 7, 7]
/// ```
#[macro_export]
macro_rules! nev {
    ($alloc:expr; $elem:expr; $n:expr) => {
        $crate::NEVec::from_elem($alloc, $elem, std::num::NonZeroUsize::new($n).unwrap())
    };
    ($alloc:expr; $head:expr $(,)?) => {
        $crate::NEVec::new($alloc, $head)
    };
    ($alloc:expr; $head:expr, $($item:expr),+ $(,)?) => {
        $crate::add_each![$crate::NEVec::new($alloc, $head); push; $($item),+]
    };
}

/// Creates a map from the pairs that are written out, as in `nebtm![alloc; 1 => 'a', 2 => 'b']`.
/// Each key has the value of its last pair.
///
/// Returns a `Result`: `AllocError` if an allocation fails; the pairs are then dropped. The
/// expressions are evaluated from left to right, the allocator first, and none after a failed
/// allocation. They must not contain `return`, `break` or `?`. Without a pair the macro does not
/// compile.
///
/// ```
/// let map = nebtm![alloc; 1 => 10, 2 => 20, 1 => 30]?;
/// let (one, two) = (map.get(&1), map.get(&2)); // Some(&30) and Some(&20)
/// ```
#[macro_export]
macro_rules! nebtm {
    ($alloc:expr; $key:expr => $value:expr $(,)?) => {
        $crate::NEBTreeMap::new($alloc, $key, $value)
    };
    ($alloc:expr; $key:expr => $value:expr, $($keys:expr => $values:expr),+ $(,)?) => {
        $crate::add_each![
            $crate::NEBTreeMap::new($alloc, $key, $value);
            insert; $($keys => $values),+
        ]
    };
}

/// Creates a set from the items that are written out, as in `nebts![alloc; 3, 1, 2]`. Of several
/// equal items it holds the first.
///
/// Returns a `Result`: `AllocError` if an allocation fails; the items are then dropped. The
/// expressions are evaluated from left to right, the allocator first, and none after a failed
/// allocation. They must not contain `return`, `break` or `?`. Without an item the macro does not
/// compile.
///
/// ```
/// let set = nebts![alloc; 2, 1, 2]?;
/// let len = set.len().get(); // 2
/// ```
#[macro_export]
macro_rules! nebts {
    ($alloc:expr; $value:expr $(,)?) => {
        $crate::NEBTreeSet::new($alloc, $value)
    };
    ($alloc:expr; $value:expr, $($values:expr),+ $(,)?) => {
        $crate::add_each![$crate::NEBTreeSet::new($alloc, $value); insert; $($values),+]
    };
}

/// Creates a map from the pairs that are written out, as in `nem![alloc; 1 => 'a', 2 => 'b']`. Each
/// key has the value of its last pair.
///
/// Returns a `Result`: `AllocError` if an allocation fails; the pairs are then dropped. The
/// expressions are evaluated from left to right, the allocator first, and none after a failed
/// allocation. They must not contain `return`, `break` or `?`. Without a pair the macro does not
/// compile.
///
/// ```
/// let map = nem![alloc; 1 => 10, 2 => 20, 1 => 30]?;
/// let (one, two) = (map.get(&1), map.get(&2)); // Some(&30) and Some(&20)
/// ```
#[macro_export]
macro_rules! nem {
    ($alloc:expr; $key:expr => $value:expr $(,)?) => {
        $crate::NEMap::new($alloc, $key, $value)
    };
    ($alloc:expr; $key:expr => $value:expr, $($keys:expr => $values:expr),+ $(,)?) => {
        $crate::add_each![
            $crate::NEMap::new($alloc, $key, $value);
            insert; $($keys => $values),+
        ]
    };
}

/// Creates a set from the items that are written out, as in `nes![alloc; 3, 1, 2]`. Of several
/// equal items it holds the first.
///
/// Returns a `Result`: `AllocError` if an allocation fails; the items are then dropped. The
/// expressions are evaluated from left to right, the allocator first, and none after a failed
/// allocation. They must not contain `return`, `break` or `?`. Without an item the macro does not
/// compile.
///
/// ```
/// let set = nes![alloc; 2, 1, 2]?;
/// let len = set.len().get(); // 2
/// ```
#[macro_export]
macro_rules! nes {
    ($alloc:expr; $value:expr $(,)?) => {
        $crate::NESet::new($alloc, $value)
    };
    ($alloc:expr; $value:expr, $($values:expr),+ $(,)?) => {
        $crate::add_each![$crate::NESet::new($alloc, $value); insert; $($values),+]
    };
}

/// Creates a map from the pairs that are written out, as in
/// `ne_indexmap![alloc; "a" => 1, "b" => 2]`. The keys are in the order in which they first appear,
/// each with the value of its last pair.
///
/// Returns a `Result`: `AllocError` if an allocation fails; the pairs are then dropped. The
/// expressions are evaluated from left to right, the allocator first, and none after a failed
/// allocation. They must not contain `return`, `break` or `?`. Without a pair the macro does not
/// compile. The Rust crate's macro reserves room for all pairs; this one makes room for each pair
/// as it is inserted.
///
/// ```
/// let map = ne_indexmap![alloc; 2 => 10, 1 => 11]?; // {2: 10, 1: 11}
/// ```
#[macro_export]
macro_rules! ne_indexmap {
    ($alloc:expr; $key:expr => $value:expr $(,)?) => {
        $crate::NEIndexMap::new($alloc, $key, $value)
    };
    ($alloc:expr; $key:expr => $value:expr, $($keys:expr => $values:expr),+ $(,)?) => {
        $crate::add_each![
            $crate::NEIndexMap::new($alloc, $key, $value);
            insert; $($keys => $values),+
        ]
    };
}

/// Creates a map exactly as [`ne_indexmap!`](crate::ne_indexmap) does, under a shorter name.
///
/// ```
/// let map = neim![alloc; 1 => 10, 2 => 20, 1 => 30]?; // {1: 30, 2: 20}
/// ```
#[macro_export]
macro_rules! neim {
    ($alloc:expr; $($keys:expr => $values:expr),+ $(,)?) => {
        $crate::ne_indexmap![$alloc; $($keys => $values),+]
    };
}

/// Creates a set from the items that are written out, as in `neis![alloc; 3, 1, 2]`, in their
/// order. Of several equal items it holds the first.
///
/// Returns a `Result`: `AllocError` if an allocation fails; the items are then dropped. The
/// expressions are evaluated from left to right, the allocator first, and none after a failed
/// allocation. They must not contain `return`, `break` or `?`. Without an item the macro does not
/// compile.
///
/// ```
/// let set = neis![alloc; 2, 1, 2]?; // {2, 1}
/// ```
#[macro_export]
macro_rules! neis {
    ($alloc:expr; $value:expr $(,)?) => {
        $crate::NEIndexSet::new($alloc, $value)
    };
    ($alloc:expr; $value:expr, $($values:expr),+ $(,)?) => {
        $crate::add_each![$crate::NEIndexSet::new($alloc, $value); insert; $($values),+]
    };
}
