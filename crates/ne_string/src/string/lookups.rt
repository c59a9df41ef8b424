//! The traits by which a `&str` looks up an [`NEString`] in a map or set: those of hashed and of
//! tree types, which are std's, and that of index types.
ghost use Rattle.std.specs.Prelude.{◌≡◌};
ghost use Rattle.std.specs.BTreeMap.Comparable.{le_lt_trans};
ghost use Rattle.std.specs.Cmp.Lexicographic.{nat_list_cmp_total, nat_list_eq_equiv, slice_cmp};
ghost use Rattle.std.specs.Ordering.{nat_cmp};
ghost use Rattle.std.specs.Str.{bytes_eq};
ghost use Rattle.ne_string.specs.CharacterLaws.{alike};

use super::NEString;
use std::cmp::Ordering;
use std::collections::btree_map::Comparable;
use std::collections::hash_map::Equivalent;

/// Looks up an `NEString` by a `&str` in a hashed map or set.
///
/// ```
/// let map = nem![alloc; NEString::new(alloc, 'A', "da")? => 36]?;
/// let (some, none) = (map.get("Ada"), map.get("Al")); // Some(&36) and None
/// ```
impl Equivalent<NEString> for &str {
    ghost equivalent = { λ q. bytes_eq q.now };

    ghost respects_hash = { λ q. alike q.now };

    ghost respects_eq = { λ q. nat_list_eq_equiv.congr q.now };

    fn equivalent(&self, key: &NEString) -> bool {
        *self == key.as_str()
    }
}

/// Looks up an `NEString` by a `&str` in an index map or set.
///
/// ```
/// let map = neim![alloc; NEString::new(alloc, 'A', "da")? => 36]?;
/// let (some, none) = (map.get("Ada"), map.get("Al")); // Some(&36) and None
/// ```
impl indexmap::Equivalent<NEString> for &str {
    ghost equivalent = { λ q. bytes_eq q.now };

    ghost respects_hash = { λ q. alike q.now };

    ghost respects_eq = { λ q. nat_list_eq_equiv.congr q.now };

    fn equivalent(&self, key: &NEString) -> bool {
        *self == key.as_str()
    }
}

/// Looks up an `NEString` by a `&str` in a tree map or set.
///
/// ```
/// let (ada, alan) = (NEString::new(alloc, 'A', "da")?, NEString::new(alloc, 'A', "lan")?);
/// let map = nebtm![alloc; ada => 36, alan => 41]?;
/// let (some, none) = (map.get("Alan"), map.get("Al")); // Some(&41) and None
/// ```
impl Comparable<NEString> for &str {
    ghost compare = { λ q. slice_cmp nat_cmp q.now };

    ghost respects_cmp = { λ q. nat_list_cmp_total.congr q.now };

    ghost below_greater = { λ q. le_lt_trans nat_list_cmp_total q.now };

    fn compare(&self, key: &NEString) -> Ordering {
        compare_texts(*self, key.as_str())
    }
}

// Takes both at one lifetime, the only form of its call that the borrow checker covers.
fn compare_texts<'x>(a: &'x str, b: &'x str) -> Ordering
    ensures { result ≡ slice_cmp nat_cmp a.now b.now }
{
    Ord::cmp(&a, &b)
}
