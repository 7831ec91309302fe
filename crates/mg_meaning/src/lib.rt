//! What clauses and forms mean: truth, refutation, satisfaction and the search, as definitions with their laws,
//! and a plain program that computes them.
#![tactic(auto)]

mod instances;
mod laws;
mod least;
mod lits;
mod matching;
mod minimal;
mod satisfying;

pub use instances::violated_instances;
pub use laws::{
    bound_is_enough, covering_none_refutes, folded_pair_applies, folded_pair_excludes,
    function_free_is_enough, heavy_has_no_plain_tree, instances_are_ordered, instances_cover,
    instances_exclude, leaf_pair_applies, leaf_pair_excludes, least_violated_is_unique,
    matches_are_exact, matches_grow, minimal_list_is_unique, minimal_sets_are_minimal_models,
    new_matches_are_counted, plain_tree_covers, plain_tree_goes_by_its_table,
    plain_tree_includes_saturated, plain_tree_is_unique, rising_list_is_unique,
    satisfying_includes_minimal, satisfying_is_decided, satisfying_is_herbrand_model,
    satisfying_is_saturated, sets_are_ordered,
};
pub use least::{heaviest, least_violated};
pub use lits::{copy_lits, holds_lit, is_part_of};
pub use matching::{PartialSubst, form_matches};
pub use minimal::is_minimal;
pub use satisfying::{clashes, is_satisfying};
