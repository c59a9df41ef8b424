//! Calls on a vector that drop items, and searches.
ghost use Rattle.std.specs.Prelude.{◌≡◌, ◌≢◌, ◌/◌, [], All, Contains, IfOk, IfSome, MatchOption};
ghost use Rattle.std.specs.Prelude.{MatchResult, Some, filter, ltb, map, nat_eq, slice_get};
ghost use Rattle.std.specs.Prelude.{◌<◌, ℕ, length};
ghost use Rattle.std.specs.List.Sorted.{IsBinarySearchResult, IsPermutation, IsSorted};
ghost use Rattle.std.specs.Ordering.{nat_cmp};
ghost use Rattle.ne_vec.specs.Divisions.{by_first, heads, runs_of};
ghost use Rattle.ne_vec.specs.KeyOrder.{KeysAscend};

use ne_vec::NEVec;
use std::alloc::AllocError;

/// A part of an order.
#[derive(Drop)]
pub struct Line {
    pub article: u32,
    pub amount: u32,
}

/// Returns the items in ascending order.
pub fn sorted(items: NEVec<u32>) -> Result<NEVec<u32>, AllocError>
    ensures { IfOk result (λ v. IsPermutation items v × IsSorted nat_cmp v) }
{
    let mut items = items;
    items.sort()?;
    Ok(items)
}

/// The same in place, without an allocation.
pub fn sort_in_place(items: &mut NEVec<u32>)
    ensures same { IsPermutation items.old items.new }
    ensures ascending { IsSorted nat_cmp items.new }
{
    items.sort_unstable();
}

/// Searches an item in a vector that ascends: returns its index, or where it would stand.
pub fn place_of(items: &NEVec<u32>, x: u32) -> Result<usize, usize>
    ensures { IsBinarySearchResult (λ y. nat_cmp y x) items.now result }
{
    items.binary_search(&x)
}

/// Returns the items below 10, or `None` if there is none.
pub fn small(items: NEVec<u32>) -> Option<NEVec<u32>>
    ensures { MatchOption result (filter (λ x. ltb x 10) items ≡ [])
        (λ v. v ≡ filter (λ x. ltb x 10) items) }
{
    items.retain(|x| *x < 10).ok()
}

/// Returns the lines of fewer pieces than this.
pub fn small_lines(lines: NEVec<Line>, limit: u32) -> Option<NEVec<Line>>
    ensures { IfSome result (λ v. v ≡ filter (λ l. ltb l.amount limit) lines) }
{
    lines.retain(|l| l.amount < limit).ok()
}

/// Returns the lines of less than 10 pieces, with half of them.
pub fn small_lines_halved(lines: NEVec<Line>) -> Option<NEVec<Line>>
    ensures { IfSome result (λ v. v
        ≡ map (λ l. record { article = l.article; amount = l.amount / 2 })
        (filter (λ l. ltb l.amount 10) lines)) }
{
    let kept = lines.retain_mut(|l| {
        let is_small = l.amount < 10;
        l.amount /= 2;
        is_small
    });
    kept.ok()
}

/// Returns the lines with half of their pieces, in the memory of the lines.
pub fn halved(lines: NEVec<Line>) -> NEVec<Line>
    ensures { result ≡ map (λ l. record { article = l.article; amount = l.amount / 2 }) lines }
{
    lines.map_in_place(|l| Line {
        article: l.article,
        amount: l.amount / 2,
    })
}

/// Returns each item's share of 100, if no item is 0.
pub fn shares(items: NEVec<u32>) -> NEVec<u32>
    requires { All (λ x. x ≢ 0) items }
    ensures { result ≡ map (λ x. 100 / x) items }
{
    items.map_in_place(
        |x|
            requires { x ≢ 0 }
        { 100 / x },
    )
}

/// Keeps the first line of each run of lines of the same article, and so the first of all.
pub fn first_lines(lines: &mut NEVec<Line>)
    ensures firsts { lines.new
        ≡ heads (runs_of by_first (λ x y. nat_eq x.article y.article) lines.old) }
    ensures head { slice_get
        (heads (runs_of by_first (λ x y. nat_eq x.article y.article) lines.old)) 0
        ≡ slice_get lines.old 0 }
{
    lines.dedup_by_key(|l| l.article);
}

/// Keeps the items that are not less than the last one kept.
pub fn ascending(items: &mut NEVec<u32>)
    ensures { items.new ≡ heads (runs_of by_first (λ kept later. ltb later kept) items.old) }
{
    items.dedup_by(|later, kept| *later < *kept);
}

/// Keeps the first item of each run of equal items, and so the first of all.
pub fn distinct(items: &mut NEVec<u32>)
    ensures firsts { items.new ≡ heads (runs_of by_first nat_eq items.old) }
    ensures first { slice_get items.new 0 ≡ slice_get items.old 0 }
    ensures head { slice_get (heads (runs_of by_first nat_eq items.old)) 0
        ≡ slice_get items.old 0 }
{
    items.dedup();
}

/// Returns the amount of a line of the article, or `None` if there is none. The lines ascend by
/// their articles.
pub fn amount_of(lines: &NEVec<Line>, article: u32) -> Option<u32>
    requires { KeysAscend (λ l. l.article) nat_cmp lines.now }
    ensures { MatchOption result (All (λ l. l.article ≢ article) lines.now)
        (λ n. Contains lines.now (record { article = article; amount = n })) }
{
    match lines.binary_search_by_key(&article, |l| l.article) {
        Ok(place) => Some(lines[place].amount),
        Err(_) => None,
    }
}

/// Sorts the lines by their articles, and returns the index of one of the article.
pub fn sort_and_search(
    lines: &mut NEVec<Line>,
    article: u32,
) -> Result<Result<usize, usize>, AllocError>
    ensures { IfOk result (λ place. MatchResult place
        (λ i. slice_get (map (λ l. l.article) lines.new) i ≡ Some article)
        (λ _. All (λ a. a ≢ article) (map (λ l. l.article) lines.new))) }
{
    lines.sort_by_key(|l| l.article)?;
    Ok(lines.binary_search_by_key(&article, |l| l.article))
}

/// Swaps the first item and the item at an index.
pub fn swap_with_first(items: &mut NEVec<u32>, place: usize)
    requires { place < length items.old }
    ensures first { slice_get items.new 0 ≡ slice_get items.old place }
    ensures other { slice_get items.new place ≡ slice_get items.old 0 }
    ensures rest { (i : ℕ) → 0 < i → i ≢ place → slice_get items.new i ≡ slice_get items.old i }
{
    items.swap(0, place);
}
