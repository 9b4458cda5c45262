ghost use Rattle.std.specs.Prelude.{◌≡◌, [], length, IfOk};
ghost use Rattle.ossl_provider.specs.Table.{table_facts, table_sheet};

use crate::{Boxed, Code, Provider, TableProvider, TableRow};
use ossl_base::Text;
use std::alloc::{AllocError, Global};
use std::test::Fail;

fn text(alloc: Global, bytes: &[u8]) -> Result<Text, AllocError> {
    Ok(Text::of(Vec::from_slice(alloc, bytes)?))
}

/// A provider of one row, with no instance up.
fn one_row(alloc: Global) -> Result<TableProvider, AllocError>
    ensures rows { IfOk result (λ table. length (table_facts table).rows ≡ 1) }
    ensures idle { IfOk result (λ table. table_sheet table ≡ record { up = []; starts = 0; faults = 0 }) }
{
    let row = TableRow {
        names: text(alloc, b"SHA2-256:SHA-256")?,
        definition: text(alloc, b"provider=default")?,
        code: Code::Sha256,
    };
    let rows = Vec::from_array(alloc, [row])?;
    TableProvider::new(alloc, text(alloc, b"default")?, rows, 14)
}

#[test]
fn a_table_tells_its_rows(rt: HostRuntime) -> Result<(), Fail> {
    let provider = one_row(rt.alloc())?;
    assert_eq!(rt; provider.name(), b"default".as_slice());
    assert_eq!(rt; provider.row_count(), 1);
    assert_eq!(rt; provider.row_names(0), b"SHA2-256:SHA-256".as_slice());
    assert_eq!(rt; provider.row_definition(0), b"provider=default".as_slice());
    assert_eq!(rt; provider.row_code(0), Code::Sha256);
    assert!(rt; provider.admits(Code::Sha256, 0));
    Ok(())
}

#[test]
fn hmac_and_hkdf_want_the_least_key(rt: HostRuntime) -> Result<(), Fail> {
    let provider = one_row(rt.alloc())?;
    for (code, at_13) in [(Code::Hmac, false), (Code::Hkdf, false), (Code::Cmac, true)] {
        assert_eq!(rt; provider.admits(code, 13), at_13);
        assert!(rt; provider.admits(code, 14));
    }
    Ok(())
}

#[test]
fn a_table_starts_and_stops(rt: HostRuntime) -> Result<(), Fail> {
    let mut provider = one_row(rt.alloc())?;
    provider.start(1)?;
    provider.start(2)?;
    provider.stop(1);
    provider.start(3)?;
    provider.stop(3);
    provider.start(1)?;
    assert_eq!(rt; provider.faults(), 0);
    Ok(())
}

#[test]
fn a_box_passes_every_call_on(rt: HostRuntime) -> Result<(), Fail> {
    let mut provider: Boxed = Box::new(rt.alloc(), one_row(rt.alloc())?)?;
    assert_eq!(rt; provider.name(), b"default".as_slice());
    assert_eq!(rt; provider.row_count(), 1);
    assert_eq!(rt; provider.row_names(0), b"SHA2-256:SHA-256".as_slice());
    assert_eq!(rt; provider.row_definition(0), b"provider=default".as_slice());
    assert_eq!(rt; provider.row_code(0), Code::Sha256);
    assert!(rt; provider.admits(Code::Sha256, 0));
    provider.start(1)?;
    provider.start(2)?;
    provider.stop(1);
    provider.start(1)?;
    assert_eq!(rt; provider.faults(), 0);
    Ok(())
}
