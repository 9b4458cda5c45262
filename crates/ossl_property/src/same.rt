//! Which queries are equal.

ghost use Rattle.std.specs.Prelude.{◌≡◌, ◌↔◌, IsTrue};
ghost use Rattle.std.specs.List.{list_all, zip};
ghost use Rattle.ossl_property.specs.Same.{same_clause, same_query, same_relation, same_need};

use crate::clause::{Clause, Relation};
use crate::query::Query;
use crate::scoring::is_same;

impl Query {
    /// Whether two queries have equal clauses, in the same order. No memory.
    pub fn is_same(&self, other: &Query) -> bool
        ensures test { result ≡ same_query self.now other.now }
        ensures equal { IsTrue result ↔ (self.now ≡ other.now) }
    {
        are_same(self.clauses.as_slice(), other.clauses.as_slice())
    }
}

fn are_same(clauses: &[Clause], others: &[Clause]) -> bool
    ensures { result ≡ same_query clauses.now others.now }
{
    clauses.len() == others.len() && are_same_so_far(clauses, others)
}

fn are_same_so_far(clauses: &[Clause], others: &[Clause]) -> bool
    ensures { result ≡ list_all (λ p. same_clause p.0 p.1) (zip clauses.now others.now) }
{
    clauses
        .iter()
        .zip(others)
        .all(|(a, b)| is_same_clause(a, b))
}

fn is_same_clause(a: &Clause, b: &Clause) -> bool
    ensures { result ≡ same_clause a.now b.now }
{
    a.name.as_slice() == b.name.as_slice()
        && is_same_relation(a.relation, b.relation)
        && is_same(&a.value, &b.value)
        && is_same_need(a.optional, b.optional)
}

fn is_same_relation(a: Relation, b: Relation) -> bool
    ensures { result ≡ same_relation a b }
{
    a == b
}

fn is_same_need(a: bool, b: bool) -> bool
    ensures { result ≡ same_need a b }
{
    a == b
}
