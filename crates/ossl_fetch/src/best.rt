//! The best method by a store.

ghost use Rattle.std.specs.Prelude.{◌≤◌, ◌+◌, ◌*◌, length};
ghost use Rattle.ossl_store.specs.Best.{candidates};
ghost use Rattle.ossl_fetch.specs.Offered.{AnswersBest, RisingStand};

use ossl_codes::{Code, Operation};
use ossl_names::Number;
use ossl_property::{Query, Steps};
use ossl_store::Store;
use std::sync::ledger::Ledger;

/// The best method under an operation and the number of a name, by a store that was offered the rows of the active
/// instances, and under a query that is merged with the default one: its instance, row and code.
pub fn best_of_active<L: Ledger>(
    store: &Store,
    op: Operation,
    number: Number,
    query: &Query,
    steps: &mut Steps<L>,
) -> Option<(u64, u64, Code)>
    // A store that was offered them with rising ranks has them in that order.
    ensures in_turn { RisingStand }
    ensures best { AnswersBest store.now op number query.now result }
    ensures steps { steps.new ≤ steps.old + length query.now * length (candidates op number store.now) }
{
    store.best(op, number, query, steps)
}
