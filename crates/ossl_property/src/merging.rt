//! A given query together with a default one.

ghost use Rattle.std.specs.Prelude.{◌≡◌, ℕ, ◌++◌, ◌&&◌, Bool, false, not, List, filter, OnOk, IfOk};
ghost use Rattle.ossl_property.specs.Choosing.{asks, merged, KeepsGiven};
ghost use Rattle.ossl_property.specs.Grammar.{mentions};
ghost use Rattle.ossl_property.specs.Names.{has};

use crate::clause::{Clause, Relation};
use crate::names::Names;
use crate::query::Query;
use std::alloc::{AllocError, Global};

/// The given clauses that are not removals, and then the default ones whose name the given query
/// does not mention, in a clause or a removal (property(7)).
pub fn merge(alloc: Global, given: &Query, default: &Query) -> Result<Query, AllocError>
    ensures merged { IfOk result (λ query. query ≡ merged given.now default.now) }
    // No given clause is lost, and no default one comes through whose name is mentioned.
    ensures keeps { IfOk result (λ query. KeepsGiven given.now query) }
{
    let clauses = merged(alloc, given.clauses.as_slice(), default.clauses.as_slice())?;
    Ok(Query { clauses })
}

fn merged(alloc: Global, given: &[Clause], default: &[Clause]) -> Result<Vec<Clause>, AllocError>
    ensures { IfOk result (λ clauses. clauses.items ≡ merged given.now default.now) }
{
    let mut names = Names::new(alloc);
    let mut clauses = Vec::new(alloc);
    put_asking(alloc, &mut clauses, given, &names)?;
    put_names(alloc, &mut names, given)?;
    put_asking(alloc, &mut clauses, default, &names)?;
    Ok(clauses)
}

/// Appends the clauses that are no removals and whose name is not among those.
fn put_asking(
    alloc: Global,
    out: &mut Vec<Clause>,
    clauses: &[Clause],
    without: &Names,
) -> Result<(), AllocError>
    ensures { OnOk result (out.new.items ≡ out.old.items
        ++ filter (λ clause. asks clause && not (has without.now clause.name)) clauses.now) }
{
    for clause in clauses {
        if clause.relation != Relation::Remove && !without.contains(clause.name.as_slice()) {
            out.push(clause.copy(alloc)?)?;
        }
    }
    Ok(())
}

/// Adds the names of the clauses.
fn put_names(alloc: Global, names: &mut Names, clauses: &[Clause]) -> Result<(), AllocError>
    requires { (name : List ℕ) → has names.old name ≡ false }
    ensures { OnOk result (has names.new ≡ mentions clauses.now) }
{
    for clause in clauses {
        names.insert(alloc, clause.name.as_slice())?;
    }
    Ok(())
}
