//! The best of offered rows under a query.

ghost use Rattle.std.specs.Prelude.{◌≡◌, ◌+◌, ◌*◌, length, map, slice_get, option_map};
ghost use Rattle.std.specs.BTreeMap.{IsOrdered};
ghost use Rattle.std.specs.Option.{option_copied};
ghost use Rattle.std.specs.Ordering.{nat_cmp};
ghost use Rattle.std.specs.List.{flat_map};
ghost use Rattle.ossl_property.specs.Choosing.{score_of};
ghost use Rattle.ossl_store.specs.Best.{better, best_from, scored, candidate};
ghost use Rattle.ossl_store.specs.Choice.{picked, run_candidates};

use crate::offered::Offered;
use crate::shelves::Runs;
use ossl_codes::Code;
use ossl_property::{Query, Steps, score};
use std::collections::BTreeMap;
use std::sync::ledger::Ledger;

/// What an instance offers.
#[derive(Drop)]
pub struct Offer {
    pub instance: u64,
    pub rows: Vec<Offered>,
}

/// By rank, what an instance offers.
pub type Offers = BTreeMap<u64, Offer>;

/// A row with its score, which is how many optional clauses of the query it meets: its instance, index and code.
#[derive(Clone, Copy)]
pub struct Scored {
    pub score: u64,
    pub choice: (u64, u64, Code),
}

/// The best of the rows that stand in these runs.
pub fn best_of_runs<L: Ledger>(
    offers: &Offers,
    runs: &Runs,
    query: &Query,
    steps: &mut Steps<L>,
) -> Option<Scored>
    ensures best { result ≡ best_from None query.now (flat_map (run_candidates offers.now) runs.now.entries) }
    ensures steps { steps.new ≡ steps.old
        + length query.now * length (flat_map (run_candidates offers.now) runs.now.entries) }
    ensures ordered { IsOrdered nat_cmp runs.now }
{
    let mut best = None;
    for (rank, places) in runs.iter() {
        if let Some(offer) = offers.get(rank) {
            best = best_of_run(best, offer, places, query, steps);
        }
    }
    best
}

/// What a fetch learns of the best row.
pub fn chosen(best: Option<Scored>) -> Option<(u64, u64, Code)>
    ensures { result ≡ option_map (λ b. b.choice) best }
{
    best.map(|best| best.choice)
}

/// The better of the best row so far and the rows of one offering that stand at these places.
fn best_of_run<L: Ledger>(
    best: Option<Scored>,
    offer: &Offer,
    places: &[usize],
    query: &Query,
    steps: &mut Steps<L>,
) -> Option<Scored>
    ensures best { result ≡ best_from best query.now
        (map (candidate offer.now.instance) (picked offer.now.rows.items places.now)) }
    ensures steps { steps.new ≡ steps.old + length query.now * length (picked offer.now.rows.items places.now) }
{
    let mut best = best;
    for place in places {
        if let Some(row) = row_at(offer.rows.as_slice(), *place) {
            best = better_of(best, score_row(offer.instance, row, query, steps));
        }
    }
    best
}

fn row_at(rows: &[Offered], place: usize) -> Option<&Offered>
    ensures { option_copied result ≡ slice_get rows.now place }
{
    rows.get(place)
}

/// A row with its score, where it has one.
fn score_row<L: Ledger>(
    instance: u64,
    row: &Offered,
    query: &Query,
    steps: &mut Steps<L>,
) -> Option<Scored>
    ensures value { result ≡ scored query.now (candidate instance row.now) }
    ensures steps { steps.new ≡ steps.old + length query.now }
{
    let choice = (instance, row.row, row.code);
    match score(&row.definition, query, steps) {
        Some(score) => Some(Scored { score, choice }),
        None => None,
    }
}

/// The better of the best row so far and a later one, which wins only with a greater score.
fn better_of(best: Option<Scored>, later: Option<Scored>) -> Option<Scored>
    ensures { result ≡ better best later }
{
    match (best, later) {
        (best, None) => best,
        (None, later) => later,
        (Some(best), Some(later)) => {
            if best.score < later.score {
                Some(later)
            } else {
                Some(best)
            }
        }
    }
}
