//! Sets of half-open intervals. There is always an interval.
ghost use Rattle.std.specs.Prelude.{◌≡◌, ◌<◌, ◌≤◌, ◌^◌, ◌⊎◌, ◌↔◌, [], ◌∷◌, ℕ, List, length};
ghost use Rattle.std.specs.Prelude.{None, Some, IfOk, IfSome, IsTrue, MatchOption, OnErr, OnOk};
ghost use Rattle.std.specs.BTreeMap.{IsUnchanged};
ghost use Rattle.std.specs.Ordering.{nat_cmp};
ghost use Rattle.nonempty_collections.specs.Taken.{TakesFoundUnlessLast};
ghost use Rattle.nonempty_collections.specs.ValidTreeMap.{IsValid};
ghost use Rattle.user_programs.specs.Points.{end_of, total_of, without, ArePoints, Covers};
ghost use Rattle.user_programs.specs.Points.{IsIntervalSet, IsJoinedEnd, IsJoinedStart, IsWithin};

use nonempty_collections::{NEBTreeMap, NonEmptyIterator};
use std::alloc::{AllocError, Global};
use std::marker::Model;
use std::ops::Bound;

/// A set of half-open intervals of numbers, none of which is empty. They do not touch each other:
/// where one ends, none starts.
///
/// In contracts it is the list of the starts with their ends, in ascending order.
#[derive(Drop)]
pub struct Intervals {
    map: NEBTreeMap<u64, u64>,
}

impl Model for Intervals {
    ghost use Rattle.std.specs.Prelude.{List, ℕ};
    ghost use Rattle.user_programs.specs.Points.{IsIntervalSet};

    ghost Value = { List (ℕ × ℕ) };

    ghost view = { λ s. s.map.entries };

    ghost invariant = { λ s. IsIntervalSet s.map.entries };
}

impl Intervals {
    /// Returns a set of one interval, which must not be empty.
    pub fn new(alloc: Global, start: u64, end: u64) -> Result<Intervals, AllocError>
        requires { start < end }
        ensures { IfOk result (λ s. s ≡ (start, end) ∷ []) }
    {
        let map = NEBTreeMap::new(alloc, start, end)?;
        Ok(Intervals { map })
    }

    /// Returns whether an interval of the set has the point.
    pub fn covers(&self, point: u64) -> bool
        ensures { IsTrue result ↔ Covers self.now point }
    {
        match at_or_before(&self.map, point) {
            Some((_, end)) => point < end,
            None => false,
        }
    }

    /// Adds the points from `start` to before `end`. Intervals that touch or overlap become one.
    ///
    /// Returns `AllocError` if the allocation fails; the set is then unchanged.
    pub fn insert(&mut self, start: u64, end: u64) -> Result<(), AllocError>
        ensures points { OnOk result ((x : ℕ)
            → Covers self.new x ↔ (Covers self.old x ⊎ IsWithin start end x)) }
        ensures only { OnOk result ((s : List (ℕ × ℕ)) → IsIntervalSet s → ((x : ℕ)
            → Covers s x ↔ (Covers self.old x ⊎ IsWithin start end x)) → self.new ≡ s) }
        ensures unchanged { OnErr result (self.new ≡ self.old) }
    {
        join(&mut self.map, start, end)?;
        Ok(())
    }

    /// Removes the interval of this start, and returns its end. Returns `None` if there is none, or
    /// if it is the only one, which then stays.
    pub fn remove(&mut self, start: u64) -> Option<u64>
        ensures intervals { TakesFoundUnlessLast (end_of self.old start ≡ None) self.old self.new
            result (λ end. (end_of self.old start ≡ Some end)
            × (self.new ≡ without start self.old)) }
        ensures points { IfSome result (λ end. (x : ℕ)
            → Covers self.new x ↔ (Covers self.old x × (IsWithin start end x → ⊥))) }
    {
        self.map.remove(&start)
    }

    /// Returns how many points are covered, which is the sum of the lengths of the intervals.
    pub fn total(&self) -> u64
        ensures sum { result ≡ total_of self.now }
        ensures count { (points : List ℕ) × ArePoints self.now points × (result ≡ length points) }
    {
        sum_of_lengths(&self.map)
    }
}

// Returns the sum of the lengths, which must fit in a `u64`.
fn sum_of_lengths(map: &NEBTreeMap<u64, u64>) -> u64
    requires { total_of map.now.entries < 2 ^ 64 }
    ensures { result ≡ total_of map.now.entries }
{
    map.nonempty_iter()
        .map(|(start, end)| end.saturating_sub(*start))
        .sum()
}

// Returns the last interval that starts at the point or before it.
fn at_or_before(map: &NEBTreeMap<u64, u64>, point: u64) -> Option<(u64, u64)>
    ensures { MatchOption result ((start : ℕ) → start ≤ point → end_of map.now.entries start ≡ None)
        (λ p. (end_of map.now.entries p.0 ≡ Some p.1) × (p.0 ≤ point)
        × ((start : ℕ) → p.0 < start → start ≤ point → end_of map.now.entries start ≡ None)) }
{
    match map.range(..=point).next_back() {
        Some((start, end)) => Some((*start, *end)),
        None => None,
    }
}

// Adds the points from `start` to before `end`.
fn join(map: &mut NEBTreeMap<u64, u64>, start: u64, end: u64) -> Result<(), AllocError>
    requires { IsIntervalSet map.old.entries }
    ensures set { IsIntervalSet map.new.entries }
    ensures points { OnOk result ((x : ℕ) → Covers map.new.entries x
        ↔ (Covers map.old.entries x ⊎ IsWithin start end x)) }
    ensures unchanged { OnErr result (IsUnchanged map.old map.new) }
{
    if end <= start {
        return Ok(());
    }
    let low = joined_start(map, start);
    let high = joined_end(map, end);
    replace(map, low, high)?;
    Ok(())
}

// Returns where an interval from `start` on starts once it is joined to the one that it touches.
fn joined_start(map: &NEBTreeMap<u64, u64>, start: u64) -> u64
    requires { IsIntervalSet map.now.entries }
    ensures { IsJoinedStart map.now.entries start result }
{
    match at_or_before(map, start) {
        Some((before, end)) if start <= end => before,
        _ => start,
    }
}

// Returns where an interval up to `end` ends once it is joined to those that it touches.
fn joined_end(map: &NEBTreeMap<u64, u64>, end: u64) -> u64
    requires { IsIntervalSet map.now.entries }
    ensures { IsJoinedEnd map.now.entries end result }
{
    match at_or_before(map, end) {
        Some((_, after)) if end < after => after,
        _ => end,
    }
}

// Returns the first start after `low` up to `high`.
fn first_within(map: &NEBTreeMap<u64, u64>, low: u64, high: u64) -> Option<u64>
    requires { low < high }
    ensures none { result ≡ None → (start : ℕ) → low < start → start ≤ high
        → end_of map.now.entries start ≡ None }
    ensures some { IfSome result (λ start. (low < start) × (start ≤ high)
        × ((end : ℕ) × (end_of map.now.entries start ≡ Some end))) }
{
    match map
        .range((Bound::Excluded(low), Bound::Included(high)))
        .next()
    {
        Some((start, _)) => Some(*start),
        None => None,
    }
}

// Puts an interval in place of all that start in it or where it ends.
fn replace(map: &mut NEBTreeMap<u64, u64>, low: u64, high: u64) -> Result<(), AllocError>
    requires { low < high }
    ensures at { OnOk result (end_of map.new.entries low ≡ Some high) }
    ensures within { OnOk result ((start : ℕ) → low < start → start ≤ high
        → end_of map.new.entries start ≡ None) }
    ensures below { OnOk result ((start : ℕ) → start < low
        → end_of map.new.entries start ≡ end_of map.old.entries start) }
    ensures above { OnOk result ((start : ℕ) → high < start
        → end_of map.new.entries start ≡ end_of map.old.entries start) }
    ensures valid { IsValid nat_cmp map.new }
    ensures unchanged { OnErr result (IsUnchanged map.old map.new) }
{
    map.insert(low, high)?;
    while let Some(start) = first_within(map, low, high) {
        map.remove(&start);
    }
    Ok(())
}
