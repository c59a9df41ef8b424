//! The adapter whose closure has a state.
ghost use Rattle.ne_iter.specs.Scan.{scan_source, scan_init, scan_callee, CallableInScan};

use super::{ItemSource, NonEmptyIterator};

/// A source of what a closure with a state returns for the items of a source: see
/// [`NonEmptyIterator::scan`].
#[derive(Drop)]
pub struct Scan<I, St, F> {
    pub(super) iter: I,
    pub(super) init: St,
    pub(super) f: F,
}

impl<St: Drop, B, I: IntoIterator, F: FnMut(&mut St, I::Item) -> B> IntoIterator
    for Scan<I, St, F> {
    ghost use Rattle.std.specs.Prelude.{◌≡◌};
    ghost use Rattle.ne_iter.specs.Scan.{scan_source, scan_init, scan_callee, scanned_from};
    ghost use Rattle.ne_iter.specs.Scan.{state_of, callee_of};

    type Item = B;

    type IntoIter = ScanIter<I::IntoIter, St, F>;

    ghost into_iter_gives = { λ s it. I.into_iter_gives (scan_source s) (scanned_from it)
        × (state_of it ≡ scan_init s) × (callee_of it ≡ scan_callee s) };

    fn into_iter(self) -> ScanIter<I::IntoIter, St, F> {
        ScanIter {
            iter: self.iter.into_iter(),
            state: self.init,
            f: self.f,
        }
    }
}

impl<St: Drop, B, I: NonEmptyIterator, F: FnMut(&mut St, I::Item) -> B> NonEmptyIterator
    for Scan<I, St, F> {
    ghost use Rattle.ne_iter.specs.Scan.{scan_source, scanned_from};

    ghost not_empty = { λ s it made t ended.
        I.not_empty (scan_source s) (scanned_from it) made.0 (scanned_from t) ended.0 };
}

/// The iterator of a [`Scan`]. For each item of its source it returns what the closure returns; the
/// closure takes a mutable reference to the state. It ends when its source does.
///
/// The Rust crate has no such type. Std's iterator of this kind also ends when the closure returns
/// `None`.
#[derive(Drop)]
pub struct ScanIter<I, St, F> {
    iter: I,
    state: St,
    f: F,
}

impl<St: Drop, B, I: Iterator, F: FnMut(&mut St, I::Item) -> B> Iterator for ScanIter<I, St, F> {
    ghost use Rattle.ne_iter.specs.Scan.{scanned_from, state_of, callee_of, ScansNext};
    ghost use Rattle.ne_iter.specs.Scan.{CallableInScan};

    type Item = B;

    ghost can_next = { λ s. I.can_next (scanned_from s)
        × CallableInScan I.next_gives F.FnMut (scanned_from s) (callee_of s) (state_of s) };

    ghost next_gives = { ScansNext I.next_gives F.FnMut };

    ghost remaining = { λ s. I.remaining (scanned_from s) };

    fn next(&mut self) -> Option<B> {
        let item = self.iter.next()?;
        Some((self.f)(&mut self.state, item))
    }

    fn size_hint(&self) -> (usize, Option<usize>) {
        self.iter.size_hint()
    }
}

/// `scan` ends if its source does and its closure can be called with each item that comes.
pub fn scan_ends<St: Drop, S: IntoIterator, B, F: FnMut(&mut St, S::Item) -> B>()
    ensures { (scanned : _) → ⟦<S as ItemSource>⟧.ends (scan_source scanned)
        → ((it : S.IntoIter) → S.into_iter_gives (scan_source scanned) it
        → CallableInScan S.IntoIter.next_gives F.FnMut it (scan_callee scanned)
        (scan_init scanned))
        → ⟦<Scan<S, St, F> as ItemSource>⟧.ends scanned }
{}
