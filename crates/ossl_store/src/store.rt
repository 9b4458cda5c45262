//! The store. A clause sees it as the list of its offerings, by rank.

ghost use Rattle.std.specs.Prelude.{◌≡◌, ◌≤◌, ◌+◌, ◌*◌, [], Some, false, length, OnOk, OnErr};
ghost use Rattle.std.specs.BTreeMap.{Updates, IsOrdered, IsUnchanged, insert_entry};
ghost use Rattle.std.specs.Ordering.{nat_cmp};
ghost use Rattle.ossl_store.specs.Offering.{placed, without, has_instance, has_rank};
ghost use Rattle.ossl_store.specs.Best.{best_offered, candidates};
ghost use Rattle.ossl_store.specs.Greatest.{IsBest};
ghost use Rattle.ossl_store.specs.Shelves.{IsClear, AreShelved, AreSame};

use crate::choice::{Offer, Offers, best_of_runs, chosen};
use crate::offered::Offered;
use crate::shelves::{Shelves, empty_shelves, runs_at, shelve_rows, unshelve_rows};
use ossl_codes::{Code, Operation};
use ossl_names::Number;
use ossl_property::{Query, Steps};
use std::alloc::{AllocError, Global};
use std::collections::BTreeMap;
use std::marker::Model;
use std::sync::ledger::Ledger;

/// The methods that the active instances of one library context offer.
#[derive(Drop)]
pub struct Store {
    /// The rank of each instance.
    ranks: BTreeMap<u64, u64>,
    offers: Offers,
    shelves: Shelves,
    alloc: Global,
}

impl Model for Store {
    ghost use Rattle.std.specs.Prelude.{List};
    ghost use Rattle.ossl_store.specs.Offering.{Offering};
    ghost use Rattle.ossl_store.specs.Stored.{offerings, IsStored};

    ghost Value = { List Offering };

    ghost view = { λ s. offerings s.offers };

    ghost invariant = { λ s. IsStored s.ranks s.offers s.shelves };
}

impl Store {
    /// A store that was offered nothing. It takes no memory, and keeps the allocator.
    pub fn new(alloc: Global) -> Store
        ensures empty { result ≡ [] }
    {
        Store {
            ranks: BTreeMap::new(alloc),
            offers: BTreeMap::new(alloc),
            shelves: empty_shelves(alloc),
            alloc,
        }
    }

    /// Adds the rows of an active instance, in its provider's order. Its rank stands for the provider's place in the
    /// order of activation: of equal scores the least rank wins. Without memory the store is as it was.
    pub fn offer(&mut self, instance: u64, rank: u64, rows: Vec<Offered>) -> Result<(), AllocError>
        requires new_instance { has_instance instance self.old ≡ false }
        requires new_rank { has_rank rank self.old ≡ false }
        ensures ok { OnOk result
            (self.new ≡ placed (record { instance = instance; rank = rank; rows = rows.items }) self.old) }
        ensures err { OnErr result (self.new ≡ self.old) }
    {
        self.ranks.insert(instance, rank)?;
        let offer = Offer { instance, rows };
        let entered = enter(self.alloc, &mut self.offers, &mut self.shelves, rank, offer);
        if entered.is_err() {
            self.ranks.remove(&instance);
        }
        entered
    }

    /// Takes out the rows of an instance, where it has any. It takes no memory.
    pub fn withdraw(&mut self, instance: u64)
        ensures rest { self.new ≡ without instance self.old }
    {
        let Some(rank) = self.ranks.remove(&instance) else {
            return;
        };
        let Some(offer) = self.offers.remove(&rank) else {
            return;
        };
        unshelve_rows(&mut self.shelves, rank, offer.rows.as_slice());
    }

    /// The best row under an operation and a number: its instance, its index in the provider, and its code. It has the
    /// greatest score under the query; of these it is of the least rank, and of its instance's the first. None where no
    /// row has a score. It takes no memory, and one step a clause for each row under the operation and the number.
    pub fn best<L: Ledger>(
        &self,
        op: Operation,
        number: Number,
        query: &Query,
        steps: &mut Steps<L>,
    ) -> Option<(u64, u64, Code)>
        ensures best { result ≡ best_offered op number query.now self.now }
        ensures law { IsBest query.now (candidates op number self.now) result }
        ensures steps { steps.new ≤ steps.old + length query.now * length (candidates op number self.now) }
    {
        let runs = runs_at(&self.shelves, op, number)?;
        chosen(best_of_runs(&self.offers, runs, query, steps))
    }
}

/// Enters what an instance offers, and shelves its rows: all of it, or nothing.
fn enter(
    alloc: Global,
    offers: &mut Offers,
    shelves: &mut Shelves,
    rank: u64,
    offer: Offer,
) -> Result<(), AllocError>
    requires { IsClear shelves.old rank }
    ensures offers { OnOk result (Updates nat_cmp offers.old offers.new rank (Some offer)) }
    ensures entries { OnOk result (offers.new.entries ≡ insert_entry nat_cmp offers.old.entries rank offer) }
    ensures ordered { OnOk result (IsOrdered nat_cmp offers.new) }
    ensures shelved { OnOk result (AreShelved shelves.old shelves.new rank offer.rows.items) }
    ensures err { OnErr result (IsUnchanged offers.old offers.new × AreSame shelves.old shelves.new) }
{
    shelve_rows(alloc, shelves, rank, offer.rows.as_slice())?;
    match offers.insert(rank, offer) {
        Ok(_) => Ok(()),
        Err(refused) => {
            let (rank, offer) = refused.value;
            unshelve_rows(shelves, rank, offer.rows.as_slice());
            Err(AllocError)
        }
    }
}
