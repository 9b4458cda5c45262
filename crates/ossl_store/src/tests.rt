ghost use Rattle.std.specs.Prelude.{◌≡◌, ◌<◌, []};

use super::*;
use ossl_codes::{Code, Operation};
use ossl_property::{Definition, Query, Steps};
use std::alloc::{AllocError, Global};
use std::marker::Brand;
use std::process::Abort;
use std::sync::ledger::{Blank, Ledger};
use std::test::Fail;

const INSTANCES: u64 = 32;

const ROWS: u64 = 256;

/// Rows of 64 numbers, four of each, with the instance as a property.
fn rows(alloc: Global, instance: u64) -> Result<Vec<Offered>, AllocError> {
    let text = format!(in alloc; "i={instance}")?;
    let mut rows = Vec::with_capacity(alloc, ROWS as usize)?;
    for row in 0..ROWS {
        let Ok(definition) = Definition::parse(alloc, text.as_bytes()) else {
            return Err(AllocError);
        };
        rows.push(Offered {
            op: Operation::Digest,
            number: row % 64 + 1,
            row,
            code: Code::Md5,
            definition,
        })?;
    }
    Ok(rows)
}

/// Offers the rows of all instances, each with its number as its rank.
fn offer_all(alloc: Global, store: &mut Store) -> Result<(), AllocError>
    requires { store.old ≡ [] }
{
    for instance in 0..INSTANCES {
        store.offer(instance, instance, rows(alloc, instance)?)?;
    }
    Ok(())
}

/// The instance that is withdrawn at a step, in three orders.
fn withdrawn_at(order: u8, step: u64) -> u64
    requires { step < 32 }
{
    match order {
        0 => step,
        1 => 31 - step,
        _ => step * 13 % INSTANCES,
    }
}

/// Withdraws the instances in an order. At each step the best row is that of the least rank that is left, and a query for one
/// instance finds that one until it goes.
fn withdraw_all<L: Ledger>(
    alloc: Global,
    rt: &impl Abort,
    store: &mut Store,
    order: u8,
    steps: &mut Steps<L>,
) -> Result<(), AllocError> {
    let mut left = [true; INSTANCES as usize];
    let any = Query::empty(alloc);
    let Ok(last) = Query::parse(alloc, b"?i=31") else {
        return Err(AllocError);
    };
    for step in 0..INSTANCES {
        let least = left.iter().position(|is_left| *is_left).map(|i| i as u64);
        let wanted = least.map(|instance| (instance, 7, Code::Md5));
        assert_eq!(rt; store.best(Operation::Digest, 8, &any, steps), wanted);
        let wanted = if left[31] {
            Some((31, 7, Code::Md5))
        } else {
            wanted
        };
        assert_eq!(rt; store.best(Operation::Digest, 8, &last, steps), wanted);
        assert_eq!(rt; store.best(Operation::Mac, 8, &any, steps), None);
        assert_eq!(rt; store.best(Operation::Digest, 65, &any, steps), None);
        let instance = withdrawn_at(order, step);
        store.withdraw(instance);
        if instance < INSTANCES {
            left[instance as usize] = false;
        }
    }
    assert_eq!(rt; store.best(Operation::Digest, 8, &any, steps), None);
    Ok(())
}

fn in_three_orders<L: Ledger>(
    alloc: Global,
    rt: &impl Abort,
    blank: Blank,
) -> Result<(), AllocError>
    requires name { blank.name ≡ L.name }
    requires parts { blank.parts ≡ L.parts }
    requires some { 0 < L.parts }
{
    let mut steps = Steps::<L>::new(blank);
    for order in 0..3u8 {
        let mut store = Store::new(alloc);
        offer_all(alloc, &mut store)?;
        withdraw_all(alloc, rt, &mut store, order, &mut steps)?;
    }
    Ok(())
}

#[test]
fn instances_are_withdrawn_in_three_orders(rt: HostRuntime) -> Result<(), Fail> {
    in_three_orders::<Brand>(rt.alloc(), &rt, Blank::new(1))?;
    Ok(())
}
