//! What a fetch finds by the registry's parts: the best method by the store, and the keys that are recent.
//! Promises that a store which was offered the active instances' rows answers the best method of the registry's state.
//! Source: property(7), provider(7); the rules of recent keys are this project's own.
#![tactic(auto)]

mod best;

pub use best::best_of_active;
