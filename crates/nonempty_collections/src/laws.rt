//! The laws of the port, so that a user's crate imports them from one library: those about sources,
//! adapters, closures, collecting, extremes, ends and groupings; about divisions, chunks and
//! comparisons; about tree, hashed and index maps and sets; and about products and sources that are
//! one of two. That each collection ends is stated here, since it concerns all of them.
//!
//! Each law is the contract of a function that does nothing. A caller calls it, and then knows what
//! it ensures. The Rust crate has no such module.

mod ends;

pub use ends::{
    arrays_end, hashed_maps_end, hashed_sets_end, index_maps_end, index_sets_end, intersperse_ends,
    peeked_sources_end, slice_runs_end, slices_end, tree_maps_end, tree_sets_end, vectors_end,
};
pub use ne_hash::laws::{
    hashed_map_equality_is_reflexive, hashed_map_equality_is_symmetric_and_transitive,
    hashed_maps_come_back, hashed_maps_one_by_one_are_collected,
    hashed_set_equality_is_an_equivalence, hashed_sets_come_back,
    hashed_sets_one_by_one_are_collected,
};
pub use ne_index::laws::{
    index_map_equality_is_reflexive, index_map_equality_is_symmetric_and_transitive,
    index_maps_come_back, index_maps_one_by_one_are_collected,
    index_set_equality_is_an_equivalence, index_sets_come_back,
    index_sets_one_by_one_are_collected, key_lists_are_sets_in_order,
};
pub use ne_iter::laws::{
    always_callable_is_callable_in_scan, always_callable_is_callable_on_all_items,
    arrays_give_their_items, calls_of_a_function, chain_ends, cloned_ends, copied_ends,
    enumerate_ends, first_items_stay_first, flat_map_ends, flatten_ends, group_by_ends,
    groupings_stand_at_any_moment, interspersed_lists_have_their_places, lists_are_read_whole,
    lists_follow_one_another, map_ends, no_list_is_empty, numbers_have_one_greatest,
    numbers_have_one_least, once_ends, peekable_ends, results_are_read_whole,
    results_make_a_vector, runs_by_a_function, runs_by_ends, runs_by_keys_are_the_division,
    runs_make_the_whole, scan_ends, slice_runs_are_the_division, sources_give_what_is_left,
    std_vectors_give_their_items, stopped_grouping_has_the_first_runs, sums_are_bounded, take_ends,
    try_group_by_ends, vectors_give_their_items, vectors_one_by_one_are_collected,
    whole_reading_gives_the_division, zip_ends,
};
pub use ne_products::laws::{
    cartesian_product_ends, either_ends, either_gives_its_side, list_of_cartesian_product,
    products_have_their_places,
};
pub use ne_tree::laws::{
    tree_map_equality_is_reflexive, tree_map_equality_is_symmetric_and_transitive,
    tree_maps_come_back, tree_maps_one_by_one_are_collected, tree_set_equality_is_an_equivalence,
    tree_sets_come_back, tree_sets_one_by_one_are_collected,
};
pub use ne_vec::laws::{
    always_callable_is_callable_at_items, always_callable_test_is_callable_at_items,
    always_callable_test_is_callable_at_items_mut, chunks_make_the_whole,
    computed_runs_are_the_division, converse_has_the_same_division,
    dedup_by_key_keeps_the_first_items, equal_slices_have_equal_hashes,
    equal_vectors_have_equal_hashes, first_and_previous_agree, has_one_division,
    lists_are_in_lexicographic_order, longer_list_keeps_runs, mapped_list_has_the_mapped_runs,
    one_item_more, partial_ties_are_passed_over, runs_taken_are_the_first_runs,
    slices_compare_as_lists, ties_are_passed_over, vectors_come_back, vectors_compare_as_lists,
};
