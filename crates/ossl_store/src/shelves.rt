//! The index: for each operation and number, where the rows stand that have them, by the rank of their offering.

ghost use Rattle.std.specs.Prelude.{◌≡◌, ◌++◌, ◌∷◌, [], None, Some, OnOk, OnErr};
ghost use Rattle.std.specs.BTreeMap.{get};
ghost use Rattle.std.specs.Option.{option_copied};
ghost use Rattle.std.specs.Ordering.{nat_cmp};
ghost use Rattle.ossl_store.specs.Shelves.{run_at, places_on, places_at, shelf_of};
ghost use Rattle.ossl_store.specs.Shelves.{RunsChange, ShelfChanges, ShelvesChange, IsSameRuns, IsSameShelf, AreSame};
ghost use Rattle.ossl_store.specs.Shelves.{AreEmpty, IsClear, AreShelved, AreGone, KeepsOthers};

use crate::offered::Offered;
use ossl_codes::Operation;
use ossl_names::Number;
use std::alloc::{AllocError, Global};
use std::collections::BTreeMap;

/// By rank, the places of rows in their offering.
pub type Runs = BTreeMap<u64, Vec<usize>>;

/// The runs of one operation, by number.
pub type Shelf = BTreeMap<Number, Runs>;

/// The shelves of all operations.
#[derive(Drop)]
pub struct Shelves {
    digests: Shelf,
    ciphers: Shelf,
    macs: Shelf,
    kdfs: Shelf,
}

/// Shelves with nothing on them. They take no memory.
pub fn empty_shelves(alloc: Global) -> Shelves
    ensures { AreEmpty result }
{
    Shelves {
        digests: BTreeMap::new(alloc),
        ciphers: BTreeMap::new(alloc),
        macs: BTreeMap::new(alloc),
        kdfs: BTreeMap::new(alloc),
    }
}

/// The runs of an operation and a number.
pub fn runs_at(shelves: &Shelves, op: Operation, number: Number) -> Option<&Runs>
    ensures { option_copied result ≡ get nat_cmp (shelf_of shelves.now op) number }
{
    shelf_at(shelves, op).get(&number)
}

fn shelf_at(shelves: &Shelves, op: Operation) -> &Shelf
    ensures { result.now ≡ shelf_of shelves.now op }
{
    match op {
        Operation::Digest => &shelves.digests,
        Operation::Cipher => &shelves.ciphers,
        Operation::Mac => &shelves.macs,
        Operation::Kdf => &shelves.kdfs,
    }
}

/// Shelves the rows of an offering, at whose rank nothing stands: all of them, or none.
pub fn shelve_rows(
    alloc: Global,
    shelves: &mut Shelves,
    rank: u64,
    rows: &[Offered],
) -> Result<(), AllocError>
    requires { IsClear shelves.old rank }
    ensures ok { OnOk result (AreShelved shelves.old shelves.new rank rows.now) }
    ensures err { OnErr result (AreSame shelves.old shelves.new) }
{
    let shelved = shelve_each(alloc, shelves, rank, rows);
    if shelved.is_err() {
        unshelve_rows(shelves, rank, rows);
    }
    shelved
}

fn shelve_each(
    alloc: Global,
    shelves: &mut Shelves,
    rank: u64,
    rows: &[Offered],
) -> Result<(), AllocError>
    requires { IsClear shelves.old rank }
    ensures ok { OnOk result (AreShelved shelves.old shelves.new rank rows.now) }
    ensures others { KeepsOthers shelves.old shelves.new rank rows.now }
{
    for (place, row) in rows.iter().enumerate() {
        shelve(alloc, shelves, row.op, row.number, rank, place)?;
    }
    Ok(())
}

/// Takes the rows of an offering off the shelves.
pub fn unshelve_rows(shelves: &mut Shelves, rank: u64, rows: &[Offered])
    ensures { AreGone shelves.old shelves.new rank rows.now }
{
    for row in rows {
        unshelve(shelves, row.op, row.number, rank);
    }
}

fn shelve(
    alloc: Global,
    shelves: &mut Shelves,
    op: Operation,
    number: Number,
    rank: u64,
    place: usize,
) -> Result<(), AllocError>
    ensures ok { OnOk result
        (ShelvesChange shelves.old shelves.new op number rank (places_at shelves.old op number rank ++ place ∷ [])) }
    ensures err { OnErr result (AreSame shelves.old shelves.new) }
{
    match op {
        Operation::Digest => put_on_shelf(alloc, &mut shelves.digests, number, rank, place),
        Operation::Cipher => put_on_shelf(alloc, &mut shelves.ciphers, number, rank, place),
        Operation::Mac => put_on_shelf(alloc, &mut shelves.macs, number, rank, place),
        Operation::Kdf => put_on_shelf(alloc, &mut shelves.kdfs, number, rank, place),
    }
}

fn unshelve(shelves: &mut Shelves, op: Operation, number: Number, rank: u64)
    ensures { ShelvesChange shelves.old shelves.new op number rank [] }
{
    match op {
        Operation::Digest => take_off_shelf(&mut shelves.digests, number, rank),
        Operation::Cipher => take_off_shelf(&mut shelves.ciphers, number, rank),
        Operation::Mac => take_off_shelf(&mut shelves.macs, number, rank),
        Operation::Kdf => take_off_shelf(&mut shelves.kdfs, number, rank),
    }
}

fn put_on_shelf(
    alloc: Global,
    shelf: &mut Shelf,
    number: Number,
    rank: u64,
    place: usize,
) -> Result<(), AllocError>
    ensures ok { OnOk result
        (ShelfChanges shelf.old shelf.new number rank (places_on shelf.old number rank ++ place ∷ [])) }
    ensures err { OnErr result (IsSameShelf shelf.old shelf.new) }
{
    match shelf.get_mut(&number) {
        Some(runs) => put_in_run(alloc, runs, rank, place)?,
        None => {
            let mut runs = BTreeMap::new(alloc);
            put_in_run(alloc, &mut runs, rank, place)?;
            shelf.insert(number, runs)?;
        }
    }
    Ok(())
}

fn put_in_run(alloc: Global, runs: &mut Runs, rank: u64, place: usize) -> Result<(), AllocError>
    ensures ok { OnOk result (RunsChange runs.old runs.new rank (run_at runs.old rank ++ place ∷ [])) }
    ensures err { OnErr result (IsSameRuns runs.old runs.new) }
{
    match runs.get_mut(&rank) {
        Some(places) => places.push(place)?,
        None => {
            let mut places = Vec::new(alloc);
            places.push(place)?;
            runs.insert(rank, places)?;
        }
    }
    Ok(())
}

fn take_off_shelf(shelf: &mut Shelf, number: Number, rank: u64)
    ensures { ShelfChanges shelf.old shelf.new number rank [] }
{
    if let Some(runs) = shelf.get_mut(&number) {
        runs.remove(&rank);
    }
}
