//! The same calls of one caller on the plain registry: no turn, no tokens.
ghost use Rattle.std.specs.Prelude.{◌≡◌, ◌<◌, map};
ghost use Rattle.ossl_calls.specs.Registry.{IsCatalogue};

use ossl_base::text::Text;
use ossl_calls::{Call, PlainRegistry, Reply};
use ossl_codes::Operation;
use ossl_property::{Query, Steps};
use ossl_provider::provider::Provider;
use std::alloc::{AllocError, Global};
use std::sync::ledger::{Blank, Ledger};

/// Fetches SHA2-256, and gives it back.
fn fetch<L: Ledger, P: Provider>(
    alloc: Global,
    registry: &mut PlainRegistry<P>,
    steps: &mut Steps<L>,
) -> Result<(), AllocError>
    requires contexts { registry.old.contexts ≡ 2 }
    ensures contexts { registry.new.contexts ≡ 2 }
{
    let fetch = Call::Fetch {
        lib: 0,
        op: Operation::Digest,
        name: Text::of(Vec::from_slice(alloc, b"SHA2-256")?),
        query: Query::empty(alloc),
    };
    let Reply::Fetched { number, .. } = registry.apply(1, &fetch, steps)? else {
        return Err(AllocError);
    };
    registry.apply(1, &Call::Free { handle: number }, steps)?;
    Ok(())
}

/// Loads `default`, fetches so often, and gives the number of entries.
pub fn run<L: Ledger, P: Provider>(
    alloc: Global,
    blank: Blank,
    boxes: Vec<P>,
    times: u64,
) -> Result<usize, AllocError>
    requires boxes { IsCatalogue (map P.facts boxes.items) (map P.sheet boxes.items) }
    requires name { blank.name ≡ L.name }
    requires parts { blank.parts ≡ L.parts }
    requires some { 0 < L.parts }
{
    let mut steps = Steps::<L>::new(blank);
    let Ok(mut registry) = PlainRegistry::open(alloc, boxes, 2) else {
        return Err(AllocError);
    };
    let load = Call::Load {
        lib: 0,
        name: Text::of(Vec::from_slice(alloc, b"default")?),
        retain: false,
    };
    registry.apply(0, &load, &mut steps)?;
    for _ in 0..times {
        fetch(alloc, &mut registry, &mut steps)?;
    }
    Ok(registry.history().len())
}
