//! Sets of links as mathematics: names, the order of the connected part and how links come into it, ancestry, settlement by
//! rank, and least sets closed under arrows. No Rust type is declared here, and no word of acts: links are any values with a
//! name and the names of their parents. Each function below has an empty body, and its contract is a law that the crate proves
//! about its definitions. The crates that order, settle and judge cite these definitions.
#![tactic(auto)]

mod laws;

pub use laws::{
    ancestors_are_parents_and_theirs, ancestry_is_transitive, arrived_extends, arrived_is_ordered,
    ascending_is_of_set, ascending_is_one, ascending_sorts, chosen_is_order, closure_is_reach,
    connected_is_of_order, connects_next, distinct_names, graph_is_of_set, height_is_of_parents,
    insertion_in_turn, insertion_is_order, least_is_by_name, names_sort, next_after,
    order_is_connected, order_is_least, order_is_of_set, order_of_part, order_of_past,
    part_stands_alone, past_is_shorter, past_of_past, past_stays, settlement_is_of_ranks,
    standing_is_one_pass, stands_as_decided, stays_connected, waiting_changes_nothing,
    worked_insertion, worked_order, worked_past, worked_settlement,
};
