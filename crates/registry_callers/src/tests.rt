ghost use Rattle.std.specs.Prelude.{◌≡◌, [], length, map, IfOk};
ghost use Rattle.ossl_calls.specs.Registry.{IsCatalogue};
ghost use Rattle.ossl_core.specs.Answered.{IsStillOf};
ghost use Rattle.ossl_core.specs.Owned.{HasGained, IsFresh, OwnsNothing};
ghost use Rattle.ossl_provider.specs.Table.{table_facts, table_sheet};
ghost use Rattle.ossl_state.specs.Tokens.{activation_token};
ghost use Rattle.ossl_turn.specs.Passes.{CameFrom};

use super::rounds::{Work, fetch};
use super::run::run;
use counting::{Counting, Counts};
use ossl_base::Text;
use ossl_calls::{Entry, put_entry};
use ossl_codes::{Code, Operation};
use ossl_core::{Activation, Caller};
use ossl_property::Query;
use ossl_provider::{TableProvider, TableRow};
use ossl_registry::Registry;
use ossl_turn::{Pass, ShareRefused, Shared};
use std::alloc::{AllocError, Global};
use std::process::Abort;
use std::sync::{Arc, Barrier, Wait};
use std::test::Fail;
use std::thread::join_mut;

mod counting;

/// A provider of this name with one row, with no instance up, and its counts.
fn provider(
    alloc: Global,
    name: &[u8],
    counts: &Arc<Counts, Global>,
) -> Result<Counting, AllocError>
    ensures name { IfOk result (λ c. (table_facts c.table).name ≡ name.now) }
    ensures rows { IfOk result (λ c. length (table_facts c.table).rows ≡ 1) }
    ensures idle { IfOk result (λ c. table_sheet c.table ≡ record { up = []; starts = 0; faults = 0 }) }
{
    let row = TableRow {
        names: Text::of(Vec::from_slice(alloc, b"SHA2-256:MD5")?),
        definition: Text::of(Vec::new(alloc)),
        code: Code::Sha256,
    };
    let rows = Vec::from_array(alloc, [row])?;
    let name = Text::of(Vec::from_slice(alloc, name)?);
    Ok(Counting {
        table: TableProvider::new(alloc, name, rows, 0)?,
        counts: Arc::try_clone(counts)?,
    })
}

/// The registry of one library context over these boxes, shared, or the end of the test.
fn opened<R: Abort>(
    alloc: Global,
    rt: &R,
    boxes: Vec<Counting>,
) -> (Shared<Registry<Counting>>, Pass<Registry<Counting>>)
    requires { IsCatalogue (map (λ c. table_facts c.table) boxes.items) (map (λ c. table_sheet c.table) boxes.items) }
    ensures first { CameFrom result.0 result.1 × (result.1.number ≡ 0) × (result.1.made ≡ 0) × (result.1.own ≡ []) }
    ensures contexts { result.0.origin.contexts ≡ 1 }
{
    let Ok(registry) = Registry::open(alloc, boxes, 1) else {
        panic!(rt; "no memory")
    };
    match Shared::open(alloc, registry) {
        Ok(opened) => opened,
        Err(ShareRefused { object: _ }) => panic!(rt; "no memory"),
    }
}

/// The text of a whole history, each entry with its caller's number.
fn printed(alloc: Global, history: &[Entry]) -> Result<Vec<u8>, AllocError> {
    let mut out = Vec::new(alloc);
    for entry in history {
        let caller = entry.caller;
        let number = format!(in alloc; "{caller} ")?;
        out.extend_from_slice(number.as_bytes())?;
        put_entry(alloc, &mut out, entry)?;
        out.extend_from_slice(b"\n")?;
    }
    Ok(out)
}

/// Fetches, and goes on with what it fetched once another caller has closed the library context.
fn outlive<R: Wait + Abort>(
    rt: &R,
    alloc: Global,
    shared: &Shared<Registry<Counting>>,
    caller: &mut Caller<Counting>,
    fetched: &Barrier,
    closed: &Barrier,
    counts: &Counts,
)
    requires from { CameFrom shared.now caller.old }
    requires contexts { shared.now.origin.contexts ≡ 1 }
    requires nothing { OwnsNothing caller.old.own }
    ensures from { IsStillOf shared.now caller.old caller.new }
    ensures nothing { OwnsNothing caller.new.own }
{
    let Ok(name) = Vec::from_slice(alloc, b"MD5") else {
        panic!(rt; "no memory")
    };
    let (name, query) = (Text::of(name), Query::empty(alloc));
    let Ok(method) = caller.fetch(rt, shared, 0, Operation::Digest, name, query) else {
        panic!(rt; "not fetched")
    };
    fetched.wait(rt);
    closed.wait(rt);
    let Ok(second) = caller.up_ref(rt, alloc, shared, &method) else {
        panic!(rt; "no second method")
    };
    let Ok(context) = caller.new_ctx(rt, shared, &method, None, 0) else {
        panic!(rt; "no context")
    };
    let _done = caller.free(rt, shared, method);
    let _done = caller.free_ctx(rt, shared, context);
    assert_eq!(rt; counts.read(), (1, 0));
    let _done = caller.free(rt, shared, second);
    assert_eq!(rt; counts.read(), (1, 1));
}

/// Closes the library context once another caller has fetched.
fn close<R: Wait + Abort>(
    rt: &R,
    shared: &Shared<Registry<Counting>>,
    caller: &mut Caller<Counting>,
    fetched: &Barrier,
    closed: &Barrier,
)
    requires from { CameFrom shared.now caller.old }
    requires contexts { shared.now.origin.contexts ≡ 1 }
    requires nothing { OwnsNothing caller.old.own }
    ensures from { IsStillOf shared.now caller.old caller.new }
    ensures nothing { OwnsNothing caller.new.own }
{
    fetched.wait(rt);
    assert!(rt; caller.close_lib(rt, shared, 0).is_ok());
    closed.wait(rt);
}

#[test]
fn a_method_outlives_its_library_context(rt: HostRuntime) -> Result<(), Fail> {
    let alloc = rt.alloc();
    let counts = Counts::none(alloc)?;
    let boxes = Vec::from_array(alloc, [provider(alloc, b"default", &counts)?])?;
    let mut passes = Vec::with_capacity(alloc, 3).expect(&rt, "no memory");
    let (shared, mut first) = opened(alloc, &rt, boxes);
    let Ok(one) = shared.split(&mut first) else {
        unreachable!()
    };
    let Ok(two) = shared.split(&mut first) else {
        unreachable!()
    };
    let (mut one, mut two) = (Caller::new(one), Caller::new(two));
    let (fetched, closed) = (Barrier::new(2), Barrier::new(2));
    join_mut(
        &rt,
        &mut ||
            requires { CameFrom shared one × (shared.origin.contexts ≡ 1) × OwnsNothing one.own }
            ensures from { IsStillOf shared one.entry one.exit }
            ensures nothing { OwnsNothing one.exit.own }
        { outlive(&rt, alloc, &shared, &mut one, &fetched, &closed, &counts) },
        &mut || close(&rt, &shared, &mut two, &fetched, &closed),
    );
    passes.push_reserved(one.into_pass());
    passes.push_reserved(two.into_pass());
    let (history, _) = shared.close_all(first, passes).close();
    assert_eq!(rt;
        printed(alloc, history.as_slice())?.as_slice(),
        b"1 fetch 0 digest MD5 []: ok default 1 0\n2 closelib 0: ok\n1 upref 1: ok\n1 newctx 1 - 0: ok\n\
        1 free 1: ok\n1 freectx 4: ok\n1 free 3: ok\n"
            .as_slice()
    );
    Ok(())
}

/// Loads a provider, or ends the test.
fn loaded<R: Wait + Abort>(
    rt: &R,
    alloc: Global,
    shared: &Shared<Registry<Counting>>,
    caller: &mut Caller<Counting>,
    name: &[u8],
) -> Activation
    requires from { CameFrom shared.now caller.old }
    requires contexts { shared.now.origin.contexts ≡ 1 }
    ensures from { IsStillOf shared.now caller.old caller.new }
    ensures fresh { IsFresh caller.old.own result }
    ensures gained { HasGained caller.old.own result activation_token caller.new.own }
{
    let Ok(name) = Vec::from_slice(alloc, name) else {
        panic!(rt; "no memory")
    };
    let Ok(activation) = caller.load(rt, shared, 0, Text::of(name), false) else {
        panic!(rt; "not loaded")
    };
    activation
}

/// Two callers load one provider: it stays up after the first has unloaded it, and serves the first.
fn outlast<R: Wait + Abort>(
    rt: &R,
    alloc: Global,
    shared: &Shared<Registry<Counting>>,
    one: &mut Caller<Counting>,
    two: &mut Caller<Counting>,
    counts: &Counts,
)
    requires from { CameFrom shared.now one.old × CameFrom shared.now two.old }
    requires contexts { shared.now.origin.contexts ≡ 1 }
    requires nothing { OwnsNothing one.old.own × OwnsNothing two.old.own }
    ensures one { IsStillOf shared.now one.old one.new }
    ensures two { IsStillOf shared.now two.old two.new }
    ensures nothing { OwnsNothing one.new.own × OwnsNothing two.new.own }
{
    let first = loaded(rt, alloc, shared, one, b"A");
    let other = loaded(rt, alloc, shared, two, b"B");
    let again = loaded(rt, alloc, shared, two, b"A");
    let _done = one.unload(rt, shared, first);
    let fetched = fetch(rt, alloc, shared, one, 0, Work::Use);
    assert!(rt; fetched.is_ok());
    assert_eq!(rt; counts.read(), (1, 0));
    let _done = two.unload(rt, shared, again);
    assert_eq!(rt; counts.read(), (1, 1));
    let _done = two.unload(rt, shared, other);
}

#[test]
fn a_provider_outlasts_its_first_holder(rt: HostRuntime) -> Result<(), Fail> {
    let alloc = rt.alloc();
    let counts = Counts::none(alloc)?;
    let others = Counts::none(alloc)?;
    let boxes = Vec::from_array(
        alloc,
        [
            provider(alloc, b"A", &counts)?,
            provider(alloc, b"B", &others)?,
        ],
    )?;
    let mut passes = Vec::with_capacity(alloc, 3).expect(&rt, "no memory");
    let (shared, mut first) = opened(alloc, &rt, boxes);
    let Ok(one) = shared.split(&mut first) else {
        unreachable!()
    };
    let Ok(two) = shared.split(&mut first) else {
        unreachable!()
    };
    let (mut one, mut two) = (Caller::new(one), Caller::new(two));
    outlast(&rt, alloc, &shared, &mut one, &mut two, &counts);
    passes.push_reserved(one.into_pass());
    passes.push_reserved(two.into_pass());
    let mut first = Caller::new(first);
    assert!(rt; first.close_lib(&rt, &shared, 0).is_ok());
    assert_eq!(rt; others.read(), (1, 1));
    let (history, _) = shared.close_all(first.into_pass(), passes).close();
    assert_eq!(rt;
        printed(alloc, history.as_slice())?.as_slice(),
        b"1 load 0 A: ok 1 skipped 0\n2 load 0 B: ok 2 skipped 0\n2 load 0 A: ok 1 skipped 0\n1 unload 1: ok\n\
        1 fetch 0 digest SHA2-256 []: ok A 1 0\n1 newctx 5 - 0: ok\n1 freectx 6: ok\n1 free 5: ok\n\
        2 unload 3: ok\n2 unload 2: ok\n0 closelib 0: ok\n"
            .as_slice()
    );
    Ok(())
}

#[test]
fn all_is_given_back_by_sixteen(rt: HostRuntime) -> Result<(), Fail> {
    let alloc = rt.alloc();
    let counts = Counts::none(alloc)?;
    let boxes = Vec::from_array(alloc, [provider(alloc, b"default", &counts)?])?;
    let (history, _) = run(&rt, alloc, boxes, Work::Use, 16, 1000)?;
    assert_eq!(rt; history.len(), 96_002);
    let (starts, stops) = counts.read();
    assert!(rt; starts > 0);
    assert_eq!(rt; starts, stops);
    Ok(())
}
