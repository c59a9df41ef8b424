//! Laws about sources, adapters, closures, groupings, collecting and numbers. Each law is the
//! contract of a function that does nothing: a caller calls it, and then knows what it ensures.
//!
//! Most chains need no law. One is called in generic code, and where a proof has to follow a
//! closure with a state, a source of the caller's own type, runs, or the sum or extremes of
//! numbers.

mod closures;
mod collected;
mod extremes;
mod firsts;
mod groupings;
mod sources;

pub use crate::iter::chain::chain_ends;
pub use crate::iter::cloned::cloned_ends;
pub use crate::iter::copied::copied_ends;
pub use crate::iter::enumerate::enumerate_ends;
pub use crate::iter::flat_map::flat_map_ends;
pub use crate::iter::flatten::flatten_ends;
pub use crate::iter::group_by::group_by_ends;
pub use crate::iter::map::map_ends;
pub use crate::iter::one_item::once_ends;
pub use crate::iter::peekable::peekable_ends;
pub use crate::iter::runs_by::runs_by_ends;
pub use crate::iter::scan::scan_ends;
pub use crate::iter::take::take_ends;
pub use crate::iter::try_group_by::try_group_by_ends;
pub use crate::iter::zip::zip_ends;
pub use closures::{
    always_callable_is_callable_in_scan, always_callable_is_callable_on_all_items,
    calls_of_a_function,
};
pub use collected::{
    interspersed_lists_have_their_places, results_are_read_whole, results_make_a_vector,
    vectors_one_by_one_are_collected,
};
pub use extremes::{numbers_have_one_greatest, numbers_have_one_least, sums_are_bounded};
pub use firsts::first_items_stay_first;
pub use groupings::{
    groupings_stand_at_any_moment, runs_by_a_function, runs_by_keys_are_the_division,
    runs_make_the_whole, stopped_grouping_has_the_first_runs, whole_reading_gives_the_division,
};
pub use sources::{
    arrays_give_their_items, lists_are_read_whole, lists_follow_one_another, no_list_is_empty,
    slice_runs_are_the_division, sources_give_what_is_left, std_vectors_give_their_items,
    vectors_give_their_items,
};
