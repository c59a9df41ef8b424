//! What a source may yield, in contracts; and values that become sources.
ghost use Rattle.std.specs.Prelude.{◌≡◌, Bool, List};
ghost use Rattle.std.specs.Iterator.{IsFiniteIterable};
ghost use Rattle.ne_vec.specs.Lists.{Listed, Lists, EachPrefix, YieldsItems, YieldsThrough, View};
ghost use Rattle.ne_iter.specs.Sources.{Reads, SameLists};
ghost use Rattle.ne_iter.specs.SourceLists.{KeepsLists};
ghost use Rattle.ne_iter.specs.SourceLaws.{SameLists-of, keeps_lists};

use super::NonEmptyIterator;

/// Says what a source may yield; every `IntoIterator` implements it. It is used in contracts only,
/// and has no method.
///
/// - `listed source xs` says that the items of `source` are `xs`, and no others, as far as they are
///   taken, and `listed_through view source xs` that they are through `view`, such as `referenced`
///   for a source of references. A function over any source says by them what its result is.
/// - `starts source` says that the first item may be taken, and `ends source` that all items may be
///   taken, and that they come to an end.
/// - `reads whole source xs` says that `source` may first yield the items `xs`, and, if `whole` is
///   true, may end after them. `each_prefix P source` says that `P` holds for the first items that
///   come, however many are taken.
///
/// The clauses of adapters say `listed_through` by `lists`, which the automatic proof does not
/// unfold, and by `yields_items` and `yields_through`, with what it needs of each run of the
/// iterator.
pub trait ItemSource: IntoIterator {
    ghost listed: { Self → List Self.Item → Type 0 };

    ghost listed_through: { (view : View Self.Item) → Self → List view.Target → Type 0 };

    ghost reads: { Bool → Self → List Self.Item → Type 0 };

    ghost lists: { (view : View Self.Item) → Self → List view.Target → Type 0 };

    ghost yields_items: { Self → List Self.Item → Type 0 };

    ghost yields_through: { (view : View Self.Item) → Self → List view.Target → Type 0 };

    ghost each_prefix: { (List Self.Item → Type 0) → Self → Type 0 };

    ghost starts: { Self → Type 0 };

    ghost ends: { Self → Type 0 };
}

impl<S: IntoIterator> ItemSource for S {
    ghost listed = { Listed S.into_iter_gives S.IntoIter.next_gives (λ x. x) };

    ghost listed_through = { λ view. Listed S.into_iter_gives S.IntoIter.next_gives view.of };

    ghost reads = { Reads S.into_iter_gives S.IntoIter.next_gives };

    ghost lists = { λ view. Lists S.into_iter_gives S.IntoIter.next_gives view.of };

    ghost yields_items = { YieldsItems S.into_iter_gives S.IntoIter.next_gives };

    ghost yields_through = { λ view.
        YieldsThrough S.into_iter_gives S.IntoIter.next_gives view.of };

    ghost each_prefix = { EachPrefix S.into_iter_gives S.IntoIter.next_gives };

    ghost starts = { λ s. (it : S.IntoIter) → S.into_iter_gives s it → S.IntoIter.can_next it };

    ghost ends = { IsFiniteIterable S.into_iter_gives S.IntoIter.can_next S.IntoIter.remaining };
}

/// A value that becomes a source with at least one item.
///
/// Its law `same_lists` says that this source may yield the same lists as `into_iter` of the value.
/// So the value can be passed to code that expects either.
///
/// ```
/// let items: NEVec<u32> = [1u32, 2, 3].into_nonempty_iter().collect(alloc)?; // [1, 2, 3]
/// ```
pub trait IntoNonEmptyIterator: IntoIterator {
    /// The type of the source that it becomes.
    type IntoNEIter: NonEmptyIterator<Item = Self::Item>;

    ghost into_nonempty_iter_gives: { Self → Self.IntoNEIter → Type 0 };

    /// Returns a source of its items.
    fn into_nonempty_iter(self) -> Self::IntoNEIter
        ensures into_nonempty_iter_gives { into_nonempty_iter_gives self result };

    ghost same_lists: { SameLists Self.into_iter_gives Self.IntoIter.next_gives
        into_nonempty_iter_gives Self.IntoNEIter.into_iter_gives
        Self.IntoNEIter.IntoIter.next_gives };
}

impl<S: NonEmptyIterator> IntoNonEmptyIterator for S {
    type IntoNEIter = S;

    ghost into_nonempty_iter_gives = { λ s r. (r ≡ s)
        × KeepsLists S.into_iter_gives S.IntoIter.next_gives S.item_view s r };

    ghost same_lists = { SameLists-of S.into_iter_gives S.IntoIter.next_gives (λ s. s)
        (KeepsLists S.into_iter_gives S.IntoIter.next_gives S.item_view)
        (keeps_lists S.into_iter_gives S.IntoIter.next_gives S.item_view) };

    fn into_nonempty_iter(self) -> S {
        self
    }
}
