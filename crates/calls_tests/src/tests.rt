ghost use Rattle.std.specs.Prelude.{◌≡◌, ◌<◌, [], codes, length, IfOk};
ghost use Rattle.ossl_provider.specs.Table.{table_facts, table_sheet};

use ossl_base::Text;
use ossl_calls::{Call, Entry, PlainRegistry, Reply, put_entry};
use ossl_codes::{Code, Operation};
use ossl_property::{Definition, Query, Steps};
use ossl_provider::{TableProvider, TableRow};
use ossl_state::best::best;
use ossl_state::items::Items;
use ossl_state::opening::fresh_lib;
use ossl_state::state::{Active, Born, LibCtx, Offered, State};
use std::alloc::{AllocError, Global};
use std::marker::Brand;
use std::process::Abort;
use std::sync::ledger::{Blank, Ledger};
use std::test::Fail;

fn text(alloc: Global, bytes: &[u8]) -> Result<Text, AllocError>
    ensures { IfOk result (λ text. text ≡ bytes.now) }
{
    Ok(Text::of(Vec::from_slice(alloc, bytes)?))
}

/// The provider `default` with one row, with no instance up.
fn default_box(alloc: Global) -> Result<TableProvider, AllocError>
    ensures rows { IfOk result (λ table. length (table_facts table).rows ≡ 1) }
    ensures idle { IfOk result (λ table. table_sheet table ≡ record { up = []; starts = 0; faults = 0 }) }
{
    let row = TableRow {
        names: text(alloc, b"SHA2-256")?,
        definition: text(alloc, b"provider=default")?,
        code: Code::Sha256,
    };
    let rows = Vec::from_array(alloc, [row])?;
    TableProvider::new(alloc, text(alloc, b"default")?, rows, 0)
}

/// A fetch of SHA2-256.
fn fetch(alloc: Global, lib: u64) -> Result<Call, AllocError>
    ensures { IfOk result (λ call. call ≡ Call.Fetch lib Operation.Digest (codes "SHA2-256") []) }
{
    Ok(Call::Fetch {
        lib,
        op: Operation::Digest,
        name: text(alloc, b"SHA2-256")?,
        query: Query::empty(alloc),
    })
}

/// The text of a whole history.
fn printed(alloc: Global, history: &[Entry]) -> Result<Vec<u8>, AllocError> {
    let mut out = Vec::new(alloc);
    for entry in history {
        put_entry(alloc, &mut out, entry)?;
        out.extend_from_slice(b"\n")?;
    }
    Ok(out)
}

/// A fetch and two closings over an empty catalogue.
fn fetch_from_nothing<L: Ledger>(alloc: Global, blank: Blank) -> Result<Vec<u8>, AllocError>
    requires name { blank.name ≡ L.name }
    requires parts { blank.parts ≡ L.parts }
    requires some { 0 < L.parts }
{
    let mut steps = Steps::<L>::new(blank);
    let catalogue: Vec<TableProvider> = Vec::new(alloc);
    let Ok(mut registry) = PlainRegistry::open(alloc, catalogue, 1) else {
        return Err(AllocError);
    };
    registry.apply(1, &fetch(alloc, 0)?, &mut steps)?;
    registry.apply(0, &Call::CloseLib { lib: 0 }, &mut steps)?;
    registry.apply(0, &Call::CloseLib { lib: 0 }, &mut steps)?;
    let (history, _) = registry.close();
    printed(alloc, history.as_slice())
}

#[test]
fn an_empty_catalogue_supports_nothing(rt: HostRuntime) -> Result<(), Fail> {
    let alloc = rt.alloc();
    assert_eq!(rt;
        fetch_from_nothing::<Brand>(alloc, Blank::new(1))?.as_slice(),
        b"fetch 0 digest SHA2-256 []: unsupported\ncloselib 0: ok\ncloselib 0: no context\n".as_slice()
    );
    Ok(())
}

/// A default query and a fetch in each of two library contexts, of which one is closed.
fn fetch_in_two<L: Ledger>(
    alloc: Global,
    rt: &impl Abort,
    blank: Blank,
) -> Result<Vec<u8>, AllocError>
    requires name { blank.name ≡ L.name }
    requires parts { blank.parts ≡ L.parts }
    requires some { 0 < L.parts }
{
    let mut steps = Steps::<L>::new(blank);
    let catalogue = Vec::from_array(alloc, [default_box(alloc)?])?;
    let Ok(mut registry) = PlainRegistry::open(alloc, catalogue, 2) else {
        return Err(AllocError);
    };
    let Ok(query) = Query::parse(alloc, b"?provider=default") else {
        return Err(AllocError);
    };
    registry.apply(1, &fetch(alloc, 0)?, &mut steps)?;
    registry.apply(2, &Call::SetDefault { lib: 1, query }, &mut steps)?;
    registry.apply(2, &fetch(alloc, 1)?, &mut steps)?;
    registry.apply(3, &Call::CloseLib { lib: 0 }, &mut steps)?;
    let up = registry.up()?;
    assert_eq!(rt; up.len(), 2);
    assert_eq!(rt; registry.provider_name(0), b"default".as_slice());
    printed(alloc, registry.history())
}

#[test]
fn a_box_is_started_twice_in_its_life(rt: HostRuntime) -> Result<(), Fail> {
    let alloc = rt.alloc();
    assert_eq!(rt;
        fetch_in_two::<Brand>(alloc, &rt, Blank::new(1))?.as_slice(),
        b"fetch 0 digest SHA2-256 []: ok default 1 0\ndefault 1 [?provider=default]: ok\n\
        fetch 1 digest SHA2-256 []: ok default 3 0\ncloselib 0: ok\n"
            .as_slice()
    );
    Ok(())
}

/// A provider that is loaded and unloaded.
fn load_and_unload<L: Ledger>(alloc: Global, blank: Blank) -> Result<Vec<u8>, AllocError>
    requires name { blank.name ≡ L.name }
    requires parts { blank.parts ≡ L.parts }
    requires some { 0 < L.parts }
{
    let mut steps = Steps::<L>::new(blank);
    let catalogue = Vec::from_array(alloc, [default_box(alloc)?])?;
    let Ok(mut registry) = PlainRegistry::open(alloc, catalogue, 1) else {
        return Err(AllocError);
    };
    let load = Call::Load {
        lib: 0,
        name: text(alloc, b"default")?,
        retain: true,
    };
    let Reply::Loaded { number, .. } = registry.apply(1, &load, &mut steps)? else {
        return Err(AllocError);
    };
    registry.apply(1, &Call::Unload { token: number }, &mut steps)?;
    printed(alloc, registry.history())
}

#[test]
fn what_is_loaded_can_be_unloaded(rt: HostRuntime) -> Result<(), Fail> {
    let alloc = rt.alloc();
    assert_eq!(rt;
        load_and_unload::<Brand>(alloc, Blank::new(1))?.as_slice(),
        b"load 0 default retain: ok 1 skipped 0\nunload 1: ok\n".as_slice()
    );
    Ok(())
}

/// A method, and a second one of it.
fn fetch_and_up_ref<L: Ledger>(alloc: Global, blank: Blank) -> Result<Vec<u8>, AllocError>
    requires name { blank.name ≡ L.name }
    requires parts { blank.parts ≡ L.parts }
    requires some { 0 < L.parts }
{
    let mut steps = Steps::<L>::new(blank);
    let catalogue = Vec::from_array(alloc, [default_box(alloc)?])?;
    let Ok(mut registry) = PlainRegistry::open(alloc, catalogue, 1) else {
        return Err(AllocError);
    };
    let Reply::Fetched { number, .. } = registry.apply(1, &fetch(alloc, 0)?, &mut steps)? else {
        return Err(AllocError);
    };
    registry.apply(1, &Call::UpRef { handle: number }, &mut steps)?;
    printed(alloc, registry.history())
}

#[test]
fn a_method_has_a_second_one(rt: HostRuntime) -> Result<(), Fail> {
    let alloc = rt.alloc();
    assert_eq!(rt;
        fetch_and_up_ref::<Brand>(alloc, Blank::new(1))?.as_slice(),
        b"fetch 0 digest SHA2-256 []: ok default 1 0\nupref 1: ok\n".as_slice()
    );
    Ok(())
}

fn row(alloc: Global, index: u64, definition: &[u8]) -> Result<Offered, AllocError> {
    let Ok(definition) = Definition::parse(alloc, definition) else {
        return Err(AllocError);
    };
    Ok(Offered {
        index,
        op: Operation::Digest,
        number: 1,
        code: Code::Sha256,
        definition,
    })
}

/// An instance that offers two rows, the second of which is fast.
fn instance(
    alloc: Global,
    number: u64,
    place: usize,
    definition: &[u8],
    fast: &[u8],
) -> Result<Born, AllocError> {
    let mut rows = Items::new(alloc);
    rows.push(row(alloc, 0, definition)?)?;
    rows.push(row(alloc, 1, fast)?)?;
    Ok(Born {
        number,
        lib: 0,
        place,
        rows,
        skipped: 0,
    })
}

/// A library context with this default query, in which two providers are active that offer the name `A`: the one at
/// place 1 became active first.
fn two_active(alloc: Global, default: &[u8]) -> Result<State, AllocError> {
    let Ok(default) = Query::parse(alloc, default) else {
        return Err(AllocError);
    };
    let mut lib = fresh_lib(alloc);
    let Ok(_) = lib.groups.add(b"A") else {
        return Err(AllocError);
    };
    lib.default = default;
    for (place, instance) in [(1, 3), (0, 5)] {
        lib.order.push(Active { place, instance })?;
    }
    let mut libs: Items<LibCtx> = Items::new(alloc);
    libs.push(lib)?;
    let mut born = Items::new(alloc);
    born.push(instance(alloc, 3, 1, b"provider=a", b"provider=a,fast")?)?;
    born.push(instance(alloc, 5, 0, b"provider=b,fips", b"provider=b,fips,fast")?)?;
    Ok(State {
        next: 6,
        libs,
        born,
        live: Items::new(alloc),
    })
}

/// The instance and the row that a query chooses.
fn chosen<L: Ledger>(
    alloc: Global,
    blank: Blank,
    default: &[u8],
    query: &[u8],
) -> Result<Option<(u64, u64)>, AllocError>
    requires name { blank.name ≡ L.name }
    requires parts { blank.parts ≡ L.parts }
    requires some { 0 < L.parts }
{
    let mut steps = Steps::<L>::new(blank);
    let state = two_active(alloc, default)?;
    let Ok(query) = Query::parse(alloc, query) else {
        return Err(AllocError);
    };
    let chosen = best(
        alloc,
        &state,
        0,
        Operation::Digest,
        b"a",
        &query,
        &mut steps,
    )?;
    Ok(chosen.map(|chosen| (chosen.instance, chosen.row)))
}

// By score, then by the order in which the providers became active, then by row; under a default query and without it.
#[test]
fn the_best_row_is_chosen(rt: HostRuntime) -> Result<(), Fail> {
    let rows: [(&[u8], &[u8], Option<(u64, u64)>); 12] = [
        (b"", b"", Some((3, 0))),
        (b"", b"?fast", Some((3, 1))),
        (b"", b"?fips", Some((5, 0))),
        (b"", b"?fips,?fast", Some((5, 1))),
        (b"", b"fips=no", Some((3, 0))),
        (b"", b"provider=b", Some((5, 0))),
        (b"", b"provider=c", None),
        (b"fips=yes", b"", Some((5, 0))),
        (b"fips=yes", b"?fast", Some((5, 1))),
        (b"fips=yes", b"-fips", Some((3, 0))),
        (b"fips=yes", b"fips=no", Some((3, 0))),
        (b"fips=yes", b"provider=a", None),
    ];
    for (default, query, want) in rows {
        let found = chosen::<Brand>(rt.alloc(), Blank::new(1), default, query)?;
        assert!(rt; found == want);
    }
    Ok(())
}
