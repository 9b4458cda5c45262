//! The mark of a key: a number by which nearly all keys that differ are told apart at a glance.

ghost use Rattle.std.specs.Prelude.{◌≡◌};
ghost use Rattle.ossl_cache.specs.Marks.{mark_of, with_clause, with_value, sign_of};

use crate::key::Key;
use ossl_property::{Clause, Relation, Value};
use std::hash::{FoldHasher, Hasher};

/// The mark of a key. No memory.
#[tactic(auto, unfolding(crate::specs::Marks::mark))]
pub fn mark_of(key: &Key) -> u64
    ensures { result ≡ mark_of key.now }
{
    let mut hasher = FoldHasher::default();
    hasher.write_u64(key.number);
    for clause in key.query.clauses() {
        put_clause(&mut hasher, clause);
    }
    hasher.finish()
}

fn put_clause(hasher: &mut FoldHasher, clause: &Clause)
    ensures { hasher.new ≡ with_clause hasher.old clause.now }
{
    hasher.write(clause.name.as_slice());
    put_value(hasher, &clause.value);
    hasher.write_u8(sign_of(clause));
}

fn put_value(hasher: &mut FoldHasher, value: &Value)
    ensures { hasher.new ≡ with_value hasher.old value.now }
{
    match value {
        Value::Number(number) => hasher.write_i64(*number),
        Value::Text(text) => hasher.write(text.as_slice()),
    }
}

fn sign_of(clause: &Clause) -> u8
    ensures { result ≡ sign_of clause.now }
{
    let relation = match clause.relation {
        Relation::Equal => 0,
        Relation::Differ => 1,
        Relation::Remove => 2,
    };
    if clause.optional {
        relation + 3
    } else {
        relation
    }
}
