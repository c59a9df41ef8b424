//! Chains of adapters over sources of sources, and over a state.
ghost use Rattle.std.specs.Prelude.{◌≡◌, ◌^◌, ◌<◌, ◌+◌, ◌%◌, IfOk};
ghost use Rattle.std.specs.Iterator.{IsFinite, IsFiniteIterable, size};
ghost use Rattle.std.specs.List.{scan};
ghost use Rattle.user_generic.specs.Nested.{IsScanOfAll};

use ne_iter::IntoNonEmptyIterator;
use ne_iter::iter::{Flatten, FromNonEmptyIterator, ItemSource, NonEmptyIterator};
use ne_iter::laws::always_callable_is_callable_in_scan;
use ne_vec::NEVec;
use std::alloc::{AllocError, Global};

/// Collects what `f` returns for the items of the items of `source`; `f` takes a mutable reference
/// to a state.
pub fn scan_of_all<
    St: Drop,
    A: Drop,
    D: Drop,
    U: IntoNonEmptyIterator<Item = A>,
    S: NonEmptyIterator<Item = U>,
    F: FnMut(&mut St, A) -> D,
    B: FromNonEmptyIterator<D>,
>(alloc: Global, source: S, init: St, f: F) -> Result<B, AllocError>
    requires ends { IsFiniteIterable S.into_iter_gives S.IntoIter.can_next
        S.IntoIter.remaining source }
    requires inner_ends { (inner : U) (it : U.IntoIter) → U.into_iter_gives inner it
        → U.IntoIter.can_next it × IsFinite (U.IntoIter.remaining it)
        × (size (U.IntoIter.remaining it) < 2 ^ 64) }
    requires callable { F.IsAlwaysCallable f }
    ensures { IfOk result (IsScanOfAll (⟦<S as ItemSource>⟧.reads) (⟦<U as ItemSource>⟧.reads)
        F.FnMut B.is_complete B.collected source init f) }
{
    always_callable_is_callable_in_scan::<St, <Flatten<S> as IntoIterator>::IntoIter, D, F>();
    source.flatten().scan(init, f).collect(alloc)
}

/// Returns the totals of the first item, of the first two, and so on, each modulo 2^32, as an
/// explicit list.
pub fn running_totals(alloc: Global, items: NEVec<u32>) -> Result<NEVec<u32>, AllocError>
    ensures { IfOk result (λ v.
        v ≡ scan (λ total x. (total + x) % 2 ^ 32) (λ total x. (total + x) % 2 ^ 32) 0 items) }
{
    let add = |total: &mut u32, x: u32| {
        *total = total.wrapping_add(x);
        *total
    };
    items.into_nonempty_iter().scan(0, add).collect(alloc)
}
