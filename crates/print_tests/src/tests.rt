ghost use Rattle.std.specs.Prelude.{◌≡◌, IfOk, map};
ghost use Rattle.ossl_provider.specs.Table.{table_facts};
ghost use Rattle.ossl_watch.specs.Changes.{IsHistory};
ghost use Rattle.print_tests.specs.Worked.{box, entry, fetches, loads, outlived, shared};

use ossl_base::Text;
use ossl_codes::{Code, Operation};
use ossl_print::put_order;
use ossl_property::Query;
use ossl_provider::{TableProvider, TableRow};
use ossl_state::{Call, Entry, Reply};
use std::alloc::{AllocError, Global};
use std::test::Fail;

fn text(alloc: Global, bytes: &[u8]) -> Result<Text, AllocError>
    ensures { IfOk result (λ text. text ≡ bytes.now) }
{
    Ok(Text::of(Vec::from_slice(alloc, bytes)?))
}

/// A box with one row.
fn provider(alloc: Global, name: &[u8]) -> Result<TableProvider, AllocError>
    ensures { IfOk result (λ table. table_facts table ≡ box name.now) }
{
    let names = text(alloc, b"SHA2-256")?;
    let definition = text(alloc, b"")?;
    let row = TableRow {
        names,
        definition,
        code: Code::Sha256,
    };
    let rows = Vec::from_array(alloc, [row])?;
    let name = text(alloc, name)?;
    let table = TableProvider::new(alloc, name, rows, 0)?;
    Ok(table)
}

fn entry(caller: u64, call: Call, reply: Reply) -> Entry
    ensures { result ≡ entry caller call reply }
{
    Entry {
        caller,
        call,
        reply,
    }
}

fn loads(
    alloc: Global,
    caller: u64,
    name: &[u8],
    number: u64,
    instance: u64,
) -> Result<Entry, AllocError>
    ensures { IfOk result (λ e. e ≡ loads caller name.now number instance) }
{
    let call = Call::Load {
        lib: 0,
        name: text(alloc, name)?,
        retain: false,
    };
    let reply = Reply::Loaded {
        number,
        instance,
        skipped: 0,
    };
    Ok(entry(caller, call, reply))
}

fn fetches(alloc: Global, name: &[u8], number: u64, instance: u64) -> Result<Entry, AllocError>
    ensures { IfOk result (λ e. e ≡ fetches name.now number instance) }
{
    let call = Call::Fetch {
        lib: 0,
        op: Operation::Digest,
        name: text(alloc, b"SHA2-256")?,
        query: Query::empty(alloc),
    };
    let reply = Reply::Fetched {
        number,
        provider: text(alloc, name)?,
        instance,
        row: 0,
        code: Code::Sha256,
    };
    Ok(entry(1, call, reply))
}

fn new_context(handle: u64, number: u64) -> Entry
    ensures { result ≡ entry 1 (Call.NewCtx handle None 0) (Reply.Made number) }
{
    let call = Call::NewCtx {
        handle,
        inner: None,
        key_len: 0,
    };
    entry(1, call, Reply::Made { number })
}

fn unload(caller: u64, token: u64) -> Entry
    ensures { result ≡ entry caller (Call.Unload token) Reply.Done }
{
    entry(caller, Call::Unload { token }, Reply::Done)
}

/// Two boxes with equal rows, of which the first is loaded by two callers.
fn shared(alloc: Global) -> Result<Vec<Entry>, AllocError>
    ensures { IfOk result (λ history. history.items ≡ shared) }
{
    let entries = [
        loads(alloc, 1, b"A", 1, 1)?,
        loads(alloc, 2, b"B", 2, 2)?,
        loads(alloc, 2, b"A", 3, 1)?,
        unload(1, 1),
        fetches(alloc, b"A", 5, 1)?,
        new_context(5, 6),
        entry(1, Call::FreeCtx { handle: 6 }, Reply::Done),
        entry(1, Call::Free { handle: 5 }, Reply::Done),
        unload(2, 3),
        unload(2, 2),
        entry(0, Call::CloseLib { lib: 0 }, Reply::Done),
    ];
    Ok(Vec::from_array(alloc, entries)?)
}

/// A box that an operation context outlives, and that is loaded again before it stopped.
fn outlived(alloc: Global) -> Result<Vec<Entry>, AllocError>
    ensures { IfOk result (λ history. history.items ≡ outlived) }
{
    let entries = [
        loads(alloc, 1, b"default", 1, 1)?,
        fetches(alloc, b"default", 2, 1)?,
        new_context(2, 3),
        entry(1, Call::Free { handle: 2 }, Reply::Done),
        unload(1, 1),
        loads(alloc, 1, b"default", 6, 1)?,
        entry(1, Call::FreeCtx { handle: 3 }, Reply::Done),
        unload(1, 6),
        entry(0, Call::CloseLib { lib: 0 }, Reply::Done),
    ];
    Ok(Vec::from_array(alloc, entries)?)
}

/// The printed order of a history of callers 1 and 2 over these boxes.
fn printed(alloc: Global, boxes: &[TableProvider], history: &[Entry]) -> Result<Vec<u8>, AllocError>
    requires legal { IsHistory (map table_facts boxes.now) 1 history.now }
{
    let mut out = Vec::new(alloc);
    put_order(alloc, &mut out, boxes, 1, history, &[1, 2], None)?;
    Ok(out)
}

/// The printed order of the history that two callers share.
fn shared_printed(alloc: Global) -> Result<Vec<u8>, AllocError> {
    let first = provider(alloc, b"A")?;
    let second = provider(alloc, b"B")?;
    let boxes = Vec::from_array(alloc, [first, second])?;
    let history = shared(alloc)?;
    printed(alloc, boxes.as_slice(), history.as_slice())
}

/// The printed order of the history in which a box is outlived.
fn outlived_printed(alloc: Global) -> Result<Vec<u8>, AllocError> {
    let first = provider(alloc, b"default")?;
    let boxes = Vec::from_array(alloc, [first])?;
    let history = outlived(alloc)?;
    printed(alloc, boxes.as_slice(), history.as_slice())
}

#[test]
fn the_printed_order_is_that_of_the_manual(rt: HostRuntime) -> Result<(), Fail> {
    let alloc = rt.alloc();
    assert_eq!(rt;
        shared_printed(alloc)?.as_slice(),
        b"order 11\n1 1 load 0 A: ok 1 skipped 0; start A 1\n2 2 load 0 B: ok 2 skipped 0; start B 2\n\
        3 2 load 0 A: ok 1 skipped 0\n4 1 unload 1: ok\n5 1 fetch 0 digest SHA2-256 []: ok A 1 0\n\
        6 1 newctx 5 - 0: ok\n7 1 freectx 6: ok\n8 1 free 5: ok\n9 2 unload 3: ok; stop A 1\n\
        10 2 unload 2: ok; stop B 2\n11 0 closelib 0: ok\n"
            .as_slice()
    );
    assert_eq!(rt;
        outlived_printed(alloc)?.as_slice(),
        b"order 9\n1 1 load 0 default: ok 1 skipped 0; start default 1\n\
        2 1 fetch 0 digest SHA2-256 []: ok default 1 0\n3 1 newctx 2 - 0: ok\n4 1 free 2: ok\n5 1 unload 1: ok\n\
        6 1 load 0 default: ok 1 skipped 0\n7 1 freectx 3: ok\n8 1 unload 6: ok; stop default 1\n\
        9 0 closelib 0: ok\n"
            .as_slice()
    );
    Ok(())
}
