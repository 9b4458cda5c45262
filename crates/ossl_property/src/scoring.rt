//! How well a definition serves a query.

ghost use Rattle.std.specs.Prelude.{◌≡◌, ◌+◌, Bool, length};
ghost use Rattle.ossl_property.specs.Choosing.{holds, is_same, is_met_by, is_met, score_of, value_of};

use crate::clause::{Clause, Property, Relation, Value};
use crate::definition::Definition;
use crate::query::Query;
use crate::steps::Steps;
use std::sync::ledger::Ledger;

/// The number of optional clauses that the definition meets, or none where it does not meet a
/// mandatory one (property(7)). Removals are passed over. An absent property counts as `no` where
/// the clause has a string; a number on it is never met. One step a clause, and no memory.
pub fn score<L: Ledger>(definition: &Definition, query: &Query, steps: &mut Steps<L>) -> Option<u64>
    ensures score { result ≡ score_of definition.now query.now }
    ensures steps { steps.new ≡ steps.old + length query.now }
{
    let mut met = 0u64;
    let mut is_refused = false;
    for clause in &query.clauses {
        steps.tick();
        let is_met = is_met(definition.properties.as_slice(), clause);
        if clause.relation != Relation::Remove {
            if clause.optional {
                if is_met {
                    met += 1;
                }
            } else if !is_met {
                is_refused = true;
            }
        }
    }
    if is_refused { None } else { Some(met) }
}

/// Whether the properties meet a clause.
fn is_met(properties: &[Property], clause: &Clause) -> bool
    ensures { result ≡ is_met properties.now clause.now }
{
    for property in properties {
        if property.name.as_slice() == clause.name.as_slice() {
            return holds(clause.relation, is_same(&property.value, &clause.value));
        }
    }
    match &clause.value {
        Value::Text(wanted) => holds(clause.relation, b"no".as_slice() == wanted.as_slice()),
        Value::Number(_) => false,
    }
}

fn holds(relation: Relation, is_equal: bool) -> bool
    ensures { result ≡ holds relation is_equal }
{
    match relation {
        Relation::Equal => is_equal,
        Relation::Differ => !is_equal,
        Relation::Remove => false,
    }
}

/// Whether two values are equal; a number and a string never are.
pub fn is_same(value: &Value, wanted: &Value) -> bool
    ensures { result ≡ is_same value.now wanted.now }
{
    match (value, wanted) {
        (Value::Number(m), Value::Number(n)) => *m == *n,
        (Value::Text(s), Value::Text(t)) => s.as_slice() == t.as_slice(),
        _ => false,
    }
}
