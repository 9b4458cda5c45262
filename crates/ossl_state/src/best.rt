ghost use Rattle.std.specs.Prelude.{◌≡◌, None, Some, filter, map, find, nat_eq, IfOk};
ghost use Rattle.std.specs.Option.{option_copied, option_map};
ghost use Rattle.ossl_state.specs.Best.{rows_of, better, best_from, best_method, candidates_among};
ghost use Rattle.ossl_state.specs.Rows.{is_operation, is_wanted};

use crate::state::{Active, Born, Choice, Offered, Scored, State};
use ossl_codes::Operation;
use ossl_property::{Query, Steps, merge, score};
use std::alloc::{AllocError, Global};
use std::sync::ledger::Ledger;

fn is_same_operation(a: Operation, b: Operation) -> bool
    ensures { result ≡ is_operation a b }
{
    a == b
}

fn is_wanted_row(op: Operation, number: u64, row: &Offered) -> bool
    ensures { result ≡ is_wanted op number row.now }
{
    is_same_operation(row.op, op) && row.number == number
}

/// The better of the best row so far and a later one, which wins only with a greater score.
fn better_of(best: Option<Scored>, score: Option<u64>, choice: Choice) -> Option<Scored>
    ensures { result ≡ better best (option_map (λ n. record { score = n; choice = choice }) score) }
{
    match (best, score) {
        (best, None) => best,
        (None, Some(score)) => Some(Scored { score, choice }),
        (Some(best), Some(score)) => {
            if best.score < score {
                Some(Scored { score, choice })
            } else {
                Some(best)
            }
        }
    }
}

/// The instance of a number.
fn find_born(born: &[Born], instance: u64) -> Option<&Born>
    ensures { option_copied result ≡ find (λ b. nat_eq b.number instance) born.now }
{
    born.iter().find(|b| b.number == instance)
}

/// The rows that an instance offers.
fn offered_rows(born: &[Born], instance: u64) -> &[Offered]
    ensures { result.now ≡ rows_of instance born.now }
{
    match find_born(born, instance) {
        Some(b) => b.rows.as_slice(),
        None => &[],
    }
}

/// The best of the row so far and the wanted rows of one active provider.
fn best_of_rows<L: Ledger>(
    best: Option<Scored>,
    a: Active,
    rows: &[Offered],
    op: Operation,
    number: u64,
    query: &Query,
    steps: &mut Steps<L>,
) -> Option<Scored>
    ensures { result ≡ best_from best query.now
        (map (λ row. record { active = a; row = row }) (filter (is_wanted op number) rows.now)) }
{
    let mut best = best;
    for row in rows {
        if is_wanted_row(op, number, row) {
            let choice = Choice {
                place: a.place,
                instance: a.instance,
                row: row.index,
                code: row.code,
            };
            best = better_of(best, score(&row.definition, query, steps), choice);
        }
    }
    best
}

/// The best of the wanted rows of active providers.
fn best_among<L: Ledger>(
    born: &[Born],
    order: &[Active],
    op: Operation,
    number: u64,
    query: &Query,
    steps: &mut Steps<L>,
) -> Option<Choice>
    ensures { result ≡ option_map (λ b. b.choice)
        (best_from None query.now (candidates_among born.now order.now op (Some number))) }
{
    let mut best = None;
    for a in order {
        let rows = offered_rows(born, a.instance);
        best = best_of_rows(best, *a, rows, op, number, query, steps);
    }
    best.map(|best| best.choice)
}

/// The best method of a name in a library context: of the rows of its active providers by the score under the query and
/// the default query, then by the order in which the providers became active, then by row.
pub fn best<L: Ledger>(
    alloc: Global,
    state: &State,
    lib: u64,
    op: Operation,
    name: &[u8],
    query: &Query,
    steps: &mut Steps<L>,
) -> Result<Option<Choice>, AllocError>
    ensures { IfOk result (λ chosen. chosen ≡ best_method state.now lib op name.now query.now) }
{
    let Some(lib) = state.libs.as_slice().get(lib as usize) else {
        return Ok(None);
    };
    let Some(number) = lib.groups.number(name) else {
        return Ok(None);
    };
    let query = merge(alloc, query, &lib.default)?;
    let born = state.born.as_slice();
    let order = lib.order.as_slice();
    Ok(best_among(born, order, op, number, &query, steps))
}
