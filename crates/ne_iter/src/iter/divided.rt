//! The source of runs of items, and its iterator: `group_by`, `runs_by` and `try_group_by` share
//! them.
ghost use Rattle.std.specs.Prelude.{◌≡◌, Bool, List, [], ◌∷◌, ◌++◌, Option, Some, IfOk, map};
ghost use Rattle.std.specs.List.{Contains};
ghost use Rattle.ne_iter.specs.GroupingRuns.{RunTest, GivesKeys, Divides, CanRead, ReturnsNext};
ghost use Rattle.ne_iter.specs.GroupingRuns.{IsUnread, YieldsRuns, runs_left};
ghost use Rattle.ne_iter.specs.GroupingRuns.{divided_source, divided_callee};
ghost use Rattle.ne_iter.specs.Keys.{items_of};

use super::NonEmptyIterator;
use ne_vec::NEVec;
use std::alloc::{AllocError, Global};
use std::marker::{Model, PhantomData};
use std::mem;

/// Says how a closure divides items into runs. It is asked for a key of each item that is taken,
/// once and in order, and whether an item continues a run, at which it sees the first item of the
/// run and that item, with their keys.
///
/// `how` relates a closure to the keys that it may give, and to what it says of two items. The
/// closure may be called if `callable back it closure`, where the items of `back` were taken, and
/// those of `it` come. `whole closure xs rs` is what is known of the runs `rs` of the items `xs`.
pub trait Division<F, I: Iterator> {
    /// The type of the keys; `()` if the closure compares items that have no keys.
    type Key: Drop;

    ghost how: { RunTest F I.Item Self.Key };

    ghost callable: { List I.Item → I → F → Type 0 };

    ghost whole: { F → List I.Item → List (List I.Item) → Type 0 };

    /// Returns the key of an item. An `Err` ends the runs.
    fn key(f: &mut F, item: &I::Item) -> Result<Self::Key, AllocError>
        requires { (back : List I.Item) × (s : I) × (t : I) × callable back s f.old
            × I.next_gives s (Some item.now) t }
        ensures { IfOk result (λ k. how.keys f.old item.now k f.new) };

    /// Returns whether an item continues the run with this first item.
    fn goes_on(
        f: &F,
        first: &I::Item,
        first_key: &Self::Key,
        item: &I::Item,
        item_key: &Self::Key,
    ) -> bool
        requires { (back : List I.Item) × (s : I) × callable back s f.now
            × Contains back first.now × Contains back item.now }
        ensures { (test : I.Item × Self.Key → I.Item × Self.Key → Bool) → how.tests f.now test
            → result ≡ test (first.now, first_key.now) (item.now, item_key.now) };

    ghost more: { (back : List I.Item) (s t : I) (x : I.Item) (k : Self.Key) (f g : F)
        → callable back s f → I.next_gives s (Some x) t → how.keys f x k g
        → callable (back ++ x ∷ []) t g };

    ghost alone: { (back : List I.Item) (s : I) (x : I.Item) (f : F)
        → callable (back ++ x ∷ []) s f → callable (x ∷ []) s f };

    ghost steady: { (x : I.Item) (k : Self.Key) (f g : F)
        (test : I.Item × Self.Key → I.Item × Self.Key → Bool) → how.keys f x k g
        → how.tests f test → how.tests g test };

    ghost divided: { (f g : F) (ps : List (I.Item × Self.Key))
        (runs : List (List (I.Item × Self.Key))) → GivesKeys how f ps g → Divides how f ps runs
        → whole f (items_of ps) (map items_of runs) };
}

/// A source of the runs of the items of a source, into which a closure divides them, as `C` says:
/// see [`NonEmptyIterator::group_by`].
#[derive(Drop)]
pub struct Divided<I, F, C> {
    pub(super) iter: I,
    pub(super) f: F,
    pub(super) alloc: Global,
    pub(super) by: PhantomData<C>,
}

impl<I: IntoIterator, F: Drop, C: Division<F, I::IntoIter>> IntoIterator for Divided<I, F, C>
where
    I::Item: Drop,
{
    ghost use Rattle.std.specs.Prelude.{◌≡◌};
    ghost use Rattle.ne_iter.specs.GroupingRuns.{divided_source, divided_callee};

    type Item = Result<NEVec<I::Item>, AllocError>;

    type IntoIter = DividedIter<I::IntoIter, C::Key, I::Item, F, C>;

    ghost into_iter_gives = { λ s g. I.into_iter_gives (divided_source s) g.source
        × (g.closure ≡ divided_callee s) × IsUnread g
        × YieldsRuns I.IntoIter.next_gives (ReturnsNext I.IntoIter.next_gives C.how)
        (C.whole g.closure) g };

    fn into_iter(self) -> DividedIter<I::IntoIter, C::Key, I::Item, F, C> {
        DividedIter {
            iter: self.iter.into_iter(),
            f: self.f,
            state: State::Unread,
            alloc: self.alloc,
            by: PhantomData,
        }
    }
}

impl<I: NonEmptyIterator, F: Drop, C: Division<F, I::IntoIter>> NonEmptyIterator
    for Divided<I, F, C>
where
    I::Item: Drop,
{
    ghost use Rattle.ne_iter.specs.GroupingRuns.{divided_source};
    ghost use Rattle.ne_iter.specs.GroupingLaws.{HasFirst-grouped};

    ghost not_empty = { λ s g made. HasFirst-grouped I.IntoIter.next_gives C.how g made.2
        (I.not_empty (divided_source s) g.source made.0) };
}

/// The iterator of a [`Divided`]. It returns one run after the other, each as a vector in `Ok`, or
/// an `Err` if a key or an allocation for a run fails; the items taken and not returned are then
/// dropped. After an `Err` it returns `None`, and takes nothing more.
///
/// Between two calls its value in contracts is its source, its closure, and what is ahead: nothing
/// was taken yet, or one item is held with its key, or nothing more comes.
#[derive(Drop)]
pub struct DividedIter<I, K, V, F, C> {
    iter: I,
    f: F,
    state: State<K, V>,
    alloc: Global,
    by: PhantomData<C>,
}

// What is ahead: nothing was taken yet; or one item, with its key, was taken after the runs that
// were returned; or nothing more comes.
#[derive(Drop)]
enum State<K, V> {
    Unread,
    Held(K, V),
    Ended,
}

impl<K, V> State<K, V> {
    ghost use Rattle.std.specs.Prelude.{ℕ, ◌≤◌, IfSome};
    ghost use Rattle.ne_iter.specs.GroupingRuns.{items_ahead};

    // Returns the bounds on how many runs are left, if the source has at most `high` items left.
    fn hint(&self, high: Option<usize>) -> (usize, Option<usize>)
        ensures lower { result.0 ≤ items_ahead self.now 0 }
        ensures upper { (left : ℕ) → IfSome high (λ n. left ≤ n)
            → IfSome result.1 (λ n. items_ahead self.now left ≤ n) }
    {
        match self {
            State::Unread => (0, high),
            State::Held(_, _) => (1, high.and_then(|n| n.checked_add(1))),
            State::Ended => (0, Some(0)),
        }
    }
}

impl<I, K, V, F, C> Model for DividedIter<I, K, V, F, C> {
    ghost use Rattle.ne_iter.specs.Grouping.{Grouping};

    ghost Value = { Grouping I K V F };

    ghost view = { λ g. record { source = g.iter; closure = g.f; state = g.state } };
}

impl<I: Iterator, F: Drop, C: Division<F, I>> Iterator for DividedIter<I, C::Key, I::Item, F, C>
where
    I::Item: Drop,
{
    type Item = Result<NEVec<I::Item>, AllocError>;

    ghost can_next = { CanRead I.can_next I.remaining C.callable };

    ghost next_gives = { ReturnsNext I.next_gives C.how };

    ghost remaining = { runs_left I.remaining };

    fn next(&mut self) -> Option<Result<NEVec<I::Item>, AllocError>> {
        let (first_key, first) = match mem::replace(&mut self.state, State::Ended) {
            State::Held(key, item) => (key, item),
            State::Unread => {
                let item = self.iter.next()?;
                let Ok(key) = C::key(&mut self.f, &item) else {
                    return Some(Err(AllocError));
                };
                (key, item)
            }
            State::Ended => return None,
        };
        let Ok(mut run) = NEVec::new(self.alloc, first) else {
            return Some(Err(AllocError));
        };
        while let Some(item) = self.iter.next() {
            let Ok(item_key) = C::key(&mut self.f, &item) else {
                return Some(Err(AllocError));
            };
            let goes_on = C::goes_on(&self.f, run.first(), &first_key, &item, &item_key);
            if goes_on {
                let Ok(()) = run.push(item) else {
                    return Some(Err(AllocError));
                };
            } else {
                self.state = State::Held(item_key, item);
                return Some(Ok(run));
            }
        }
        Some(Ok(run))
    }

    fn size_hint(&self) -> (usize, Option<usize>) {
        self.state.hint(self.iter.size_hint().1)
    }
}
