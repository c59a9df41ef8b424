//! Runs of items by a key or by a test of two items, and of a slice by a test.
ghost use Rattle.std.specs.Prelude.{◌≡◌, ◌<◌, ◌-◌, ◌/◌, length, ltb, map, nat_eq, true, All, IfOk};
ghost use Rattle.std.specs.Prelude.{◌≤◌, Contains, slice_index_or, string_bytes, IsPermutation};
ghost use Rattle.std.specs.Prelude.{List, filter};
ghost use Rattle.std.specs.Int.NonZero.{non_zero_usize_get};
ghost use Rattle.std.specs.String.{string_eq};
ghost use Rattle.ne_vec.specs.Divisions.{IsDivision, by_first, by_previous, heads, runs_of};
ghost use Rattle.ne_iter.specs.Keys.{IsDividedBy};
ghost use Rattle.ne_vec.specs.Orders.{ItemsAscend, KeepsTiesOf, by_text};
ghost use Rattle.ne_iter.specs.RunsBy.{AreRuns};

use crate::nested::Order;
use ne_iter::laws::runs_by_keys_are_the_division;
use ne_iter::{IntoNonEmptyIterator, NonEmptyIterator};
use ne_vec::laws::computed_runs_are_the_division;
use ne_vec::{NESlice, NEVec};
use std::alloc::{AllocError, Global};
use std::num::NonZeroUsize;

/// What was sold of one article.
pub struct Sale {
    pub article: u32,
    pub amount: u32,
}

/// Returns the runs of items with the same half.
pub fn by_halves(
    alloc: Global,
    items: NEVec<u32>,
) -> Result<Result<NEVec<NEVec<u32>>, AllocError>, AllocError>
    ensures { IfOk result (λ r. IfOk r (λ rs. IsDividedBy (λ x. x / 2) nat_eq items rs)) }
{
    items
        .into_nonempty_iter()
        .group_by(alloc, |x| *x / 2)
        .collect(alloc)
}

/// Returns references to the runs of orders of the same day.
pub fn by_day<'a>(
    alloc: Global,
    orders: &'a NEVec<Order>,
) -> Result<NEVec<NEVec<&'a Order>>, AllocError>
    ensures { IfOk result (λ rs. IsDividedBy (λ o. o.day) nat_eq
        orders.now (map (λ r. map (λ o. o.now) r) rs)) }
{
    orders
        .nonempty_iter()
        .group_by(alloc, |o| o.day)
        .collect::<Result<NEVec<NEVec<&'a Order>>, AllocError>>(alloc)?
}

/// Returns the runs of `by_halves`, and says by a law that they are the division of the items.
pub fn division_by_halves(
    alloc: Global,
    items: NEVec<u32>,
) -> Result<Result<NEVec<NEVec<u32>>, AllocError>, AllocError>
    ensures { IfOk result (λ r. IfOk r (λ rs.
        IsDivision (by_first (λ x y. nat_eq (x / 2) (y / 2))) items rs)) }
{
    runs_by_keys_are_the_division::<u32, u32>();
    by_halves(alloc, items)
}

/// Returns the runs in which each further item is greater than the run's first one.
pub fn above_first(alloc: Global, items: NEVec<u32>) -> Result<NEVec<NEVec<u32>>, AllocError>
    ensures { IfOk result (λ runs. runs ≡ runs_of by_first (λ x y. ltb x y) items) }
{
    items
        .into_nonempty_iter()
        .runs_by(alloc, |x, y| *x < *y)
        .collect::<Result<NEVec<NEVec<u32>>, AllocError>>(alloc)?
}

/// What happened at a service.
#[derive(Drop)]
pub struct Event {
    pub service: String,
    pub at: u32,
}

/// Returns the runs of events at the same service. The names are compared where they are: with
/// clones of them as keys, a clone that fails would be a key of its own.
pub fn by_service(alloc: Global, events: NEVec<Event>) -> Result<NEVec<NEVec<Event>>, AllocError>
    ensures { IfOk result (λ runs. runs
        ≡ runs_of by_first (λ a b. string_eq a.service b.service) events) }
{
    events
        .into_nonempty_iter()
        .runs_by(alloc, |a, b| a.service == b.service)
        .collect::<Result<NEVec<NEVec<Event>>, AllocError>>(alloc)?
}

/// Returns the runs of references to events at the same service.
pub fn same_services<'a>(
    alloc: Global,
    events: &'a NEVec<Event>,
) -> Result<NEVec<NEVec<&'a Event>>, AllocError>
    ensures { IfOk result (λ runs. AreRuns (λ a b. string_eq a.service b.service) events.now
        (map (λ r. map (λ e. e.now) r) runs)) }
{
    events
        .nonempty_iter()
        .runs_by(alloc, |a, b| a.service == b.service)
        .collect::<Result<NEVec<NEVec<&'a Event>>, AllocError>>(alloc)?
}

/// Returns the runs of orders of the same customer. The keys are clones of the names; if one fails,
/// there are no runs.
pub fn by_customer(alloc: Global, orders: NEVec<Order>) -> Result<NEVec<NEVec<Order>>, AllocError>
    ensures { IfOk result (λ runs. runs
        ≡ runs_of by_first (λ a b. string_eq a.customer b.customer) orders) }
{
    orders
        .into_nonempty_iter()
        .try_group_by(alloc, |o| o.customer.clone())
        .collect::<Result<NEVec<NEVec<Order>>, AllocError>>(alloc)?
}

/// Sorts the orders by their customers, and returns those of each customer, in their order.
pub fn of_each_customer(
    alloc: Global,
    mut orders: NEVec<Order>,
) -> Result<NEVec<NEVec<Order>>, AllocError>
    ensures { IfOk result (λ runs. (sorted : List Order) × IsPermutation orders sorted
        × ItemsAscend (by_text (λ o. string_bytes o.customer)) sorted
        × KeepsTiesOf (by_text (λ o. string_bytes o.customer)) orders sorted
        × (runs ≡ runs_of by_first (λ a b. string_eq a.customer b.customer) sorted)) }
{
    orders.sort_by(|a, b| a.customer.cmp(&b.customer))?;
    orders
        .into_nonempty_iter()
        .try_group_by(alloc, |o| o.customer.clone())
        .collect::<Result<NEVec<NEVec<Order>>, AllocError>>(alloc)?
}

/// Returns the runs of references to orders of the same customer.
pub fn same_customers<'a>(
    alloc: Global,
    orders: &'a NEVec<Order>,
) -> Result<NEVec<NEVec<&'a Order>>, AllocError>
    ensures { IfOk result (λ runs. AreRuns (λ a b. string_eq a.customer b.customer) orders.now
        (map (λ r. map (λ o. o.now) r) runs)) }
{
    orders
        .nonempty_iter()
        .try_group_by(alloc, |o| o.customer.clone())
        .collect::<Result<NEVec<NEVec<&'a Order>>, AllocError>>(alloc)?
}

/// Returns the lengths of the runs in which each further item is greater than the run's first one.
pub fn lengths_above_first(
    alloc: Global,
    items: NESlice<'_, u32>,
) -> Result<NEVec<usize>, AllocError>
    ensures { IfOk result (λ v. v ≡ map (λ run. length run)
        (runs_of by_first (λ x y. ltb x y) items.entry)) }
{
    items
        .runs_by(|x, y| *x < *y)
        .map(|run| run.len().get())
        .collect(alloc)
}

/// Returns how many of these runs have more than two items.
pub fn how_many_long(items: NESlice<'_, u32>) -> usize
    ensures { result ≡ length (filter (λ run. ltb 2 (length run))
        (runs_of by_first (λ x y. ltb x y) items.entry)) }
{
    items
        .runs_by(|x, y| *x < *y)
        .filter(|run| run.len().get() > 2)
        .count()
}

/// Returns the lengths of the runs in which each further item is greater than the run's first one,
/// where the runs are made into a source although they are one.
pub fn lengths_of_a_source(
    alloc: Global,
    items: NESlice<'_, u32>,
) -> Result<NEVec<usize>, AllocError>
    ensures { IfOk result (λ v. v ≡ map (λ run. length run)
        (runs_of by_first (λ x y. ltb x y) items.entry)) }
{
    items
        .runs_by(|x, y| *x < *y)
        .into_nonempty_iter()
        .map(|run| run.len().get())
        .collect(alloc)
}

/// Returns the lengths of the runs in which each further item has the quotient of the run's first
/// one. The closure, which divides by the items, may be called only with these.
pub fn lengths_of_quotients(
    alloc: Global,
    items: NESlice<'_, u32>,
) -> Result<NEVec<usize>, AllocError>
    requires { All (λ x. 0 < x) items }
    ensures { IfOk result (λ v. v ≡ map (λ run. length run)
        (runs_of by_first (λ x y. nat_eq (1000 / x) (1000 / y)) items.entry)) }
{
    items
        .runs_by(|x, y| 1000 / *x == 1000 / *y)
        .map(|run| run.len().get())
        .collect(alloc)
}

/// Returns the lengths of the runs in which each further item is greater than the one before it.
pub fn lengths_ascending(alloc: Global, items: NESlice<'_, u32>) -> Result<NEVec<usize>, AllocError>
    ensures { IfOk result (λ v. v ≡ map (λ run. length run)
        (runs_of by_previous (λ x y. ltb x y) items.entry)) }
{
    items
        .adjacent_runs(|x, y| *x < *y)
        .map(|run| run.len().get())
        .collect(alloc)
}

/// Returns the length of the longest run of ascending items.
pub fn longest_ascending(alloc: Global, items: NESlice<'_, u32>) -> Result<usize, AllocError>
    ensures among { IfOk result (λ n. Contains
        (map (λ run. length run) (runs_of by_previous (λ x y. ltb x y) items.entry)) n) }
    ensures bound { IfOk result (λ n. All (λ m. m ≤ n)
        (map (λ run. length run) (runs_of by_previous (λ x y. ltb x y) items.entry))) }
{
    let lengths = lengths_ascending(alloc, items)?;
    Ok(*lengths.nonempty_iter().max())
}

/// Returns the runs of the items that are in the same ten as the run's first one. They are parts of
/// the vector, and outlive the slice that is made here.
pub fn runs_of_tens<'a>(
    alloc: Global,
    items: &'a NEVec<u32>,
) -> Result<NEVec<NESlice<'a, u32>>, AllocError>
    ensures { IfOk result (λ v.
        v ≡ runs_of by_first (λ x y. nat_eq (x / 10) (y / 10)) items.now) }
{
    items
        .as_nonempty_slice()
        .runs_by(|x, y| *x / 10 == *y / 10)
        .collect(alloc)
}

/// Returns the runs of `runs_of_tens`, and says by a law that they are the division of the items.
pub fn division_of_tens<'a>(
    alloc: Global,
    items: &'a NEVec<u32>,
) -> Result<NEVec<NESlice<'a, u32>>, AllocError>
    ensures { IfOk result (λ v.
        IsDivision (by_first (λ x y. nat_eq (x / 10) (y / 10))) items.now v) }
{
    computed_runs_are_the_division::<u32>();
    runs_of_tens(alloc, items)
}

/// Returns how many runs of sales of the same article there are.
pub fn how_many_articles(sales: &NEVec<Sale>) -> NonZeroUsize
    ensures { non_zero_usize_get result
        ≡ length (runs_of by_first (λ x y. nat_eq x.article y.article) sales.now) }
{
    sales.runs_by(|x, y| x.article == y.article).count()
}

/// Returns the first item of each run of items in the same ten.
pub fn first_of_each_run(alloc: Global, items: &NEVec<u32>) -> Result<NEVec<u32>, AllocError>
    ensures { IfOk result (λ v.
        v ≡ heads (runs_of by_first (λ x y. nat_eq (x / 10) (y / 10)) items.now)) }
{
    items
        .runs_by(|x, y| *x / 10 == *y / 10)
        .map(|run| *run.first())
        .collect(alloc)
}

/// Returns the last item of each run of ascending items.
pub fn last_of_each_run(alloc: Global, items: &NEVec<u32>) -> Result<NEVec<u32>, AllocError>
    ensures { IfOk result (λ v. v ≡ map (λ run. slice_index_or run (length run - 1) 0)
        (runs_of by_previous (λ x y. ltb x y) items.now)) }
{
    items
        .adjacent_runs(|x, y| *x < *y)
        .map(|run| *run.last())
        .collect(alloc)
}

/// Returns the article of each run of sales of the same article.
pub fn articles(alloc: Global, sales: &NEVec<Sale>) -> Result<NEVec<u32>, AllocError>
    ensures { IfOk result (λ v. v ≡ map (λ s. s.article)
        (heads (runs_of by_first (λ x y. nat_eq x.article y.article) sales.now))) }
{
    sales
        .runs_by(|x, y| x.article == y.article)
        .map(|run| run.first().article)
        .collect(alloc)
}

/// Returns whether `None` follows the first run if allocating that run failed; otherwise `true`.
pub fn ends_at_refusal(alloc: Global, items: NEVec<u32>) -> bool
    ensures { result ≡ true }
{
    let mut runs = items
        .into_nonempty_iter()
        .group_by(alloc, |x| *x / 2)
        .into_iter();
    match runs.next() {
        Some(Err(_)) => runs.next().is_none(),
        _ => true,
    }
}
