//! The loop that the methods for the least and the greatest item share. It keeps one item, and
//! replaces it by a later one that a test says is better.
ghost use Rattle.std.specs.Prelude.{◌≡◌, true, List, ◌∷◌, map};
ghost use Rattle.std.specs.Fn.{CalledAt, FnReturnsAtPair, TakesAt};
ghost use Rattle.std.specs.Iterator.{CallableOnAllAt};
ghost use Rattle.std.specs.List.{FoldsTo};
ghost use Rattle.ne_iter.specs.Consumers.{CallableOnTwo, KeepsBetter};
ghost use Rattle.ne_iter.specs.Calls.{CallsEachAt};

use super::NonEmptyIterator;
use super::sources::ItemSource;

/// Returns the item that is kept: the first one, until `better` returns `true` for a later one,
/// which then replaces it.
///
/// `better` is called with the item kept so far and the next one, in this order.
pub(super) fn best<S: NonEmptyIterator, F: Fn(&S::Item, &S::Item) -> bool>(
    source: S,
    better: F,
) -> S::Item
where
    S::Item: Drop,
    requires ends { ⟦<S as ItemSource>⟧.ends source }
    requires callable { (it : S.IntoIter) → S.into_iter_gives source it
        → CallableOnTwo S.IntoIter.next_gives F.Fn it better }
    ensures { (x : S.Item) × (xs : List S.Item)
        × ⟦<S as ItemSource>⟧.reads true source (x ∷ xs)
        × FoldsTo (KeepsBetter (λ y. y) F.Fn better) x xs result }
{
    let (first, rest) = source.next();
    let mut best = first;
    for x in rest {
        if better(&best, &x) {
            best = x;
        }
    }
    best
}

/// Returns the item that is kept when items are compared by their keys. `better` is called with the
/// key of the item kept so far and the key of the next one. `key` is called once for each item,
/// when it is taken.
pub(super) fn best_by_key<
    S: NonEmptyIterator,
    B: Drop,
    F: FnMut(&S::Item) -> B,
    G: Fn(&B, &B) -> bool,
>(source: S, mut key: F, better: G) -> S::Item
where
    S::Item: Drop,
    requires ends { ⟦<S as ItemSource>⟧.ends source }
    requires keyed { (it : S.IntoIter) → S.into_iter_gives source it
        → CallableOnAllAt S.IntoIter.next_gives F.FnMut it key }
    requires callable { G.IsAlwaysCallable better }
    ensures { (p : S.Item × B) × (ps : List (S.Item × B)) × (k : B) × (g : F)
        × ⟦<S as ItemSource>⟧.reads true source (map (λ q. q.0) (p ∷ ps))
        × CallsEachAt F.FnMut key (p ∷ ps) g
        × FoldsTo (KeepsBetter (λ q. q.1) G.Fn better) p ps (result, k) }
{
    let pairs = source.map(
        |x|
            requires { TakesAt F.FnMut key x }
            ensures { (x ≡ result.1) × CalledAt F.FnMut key.entry x result.0 key.exit }
        { (key(&x), x) },
    );
    let (_key, item) = best(
        pairs,
        |kept, next|
            requires { G.IsAlwaysCallable better }
            ensures { FnReturnsAtPair G.Fn better kept.now.0 next.now.0 result }
        { better(&kept.0, &next.0) },
    );
    item
}
