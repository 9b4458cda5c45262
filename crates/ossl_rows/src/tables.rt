ghost use Rattle.std.specs.Prelude.{◌≡◌, [], ◌++◌, IfOk, OnOk};
ghost use Rattle.ossl_provider.specs.Table.{table_sheet};
ghost use Rattle.ossl_rows.specs.Tables.{rows_of, unstarted, table_of};
ghost use Rattle.ossl_rows.specs.Cases.{named_by, named_by_all};

use crate::cases::{AES, CHACHA, Case, KEYED, MD5, OUTDATED, SHA};
use crate::kind::Builtin;
use ossl_base::Text;
use ossl_provider::{TableProvider, TableRow};
use std::alloc::{AllocError, Global};

/// A built-in provider, with nothing up. It takes memory for its rows and for the places of the instances
/// that may be up at once; want of memory is the only error.
pub fn builtin(alloc: Global, kind: Builtin) -> Result<TableProvider, AllocError>
    ensures made { IfOk result (λ provider. provider ≡ table_of kind) }
    ensures idle { IfOk result
        (λ provider. table_sheet provider ≡ record { up = []; starts = 0; faults = 0 }) }
{
    match kind {
        Builtin::Default => {
            let parts: [&[Case]; 5] = [&SHA, &MD5, &AES, &CHACHA, &KEYED];
            provider(alloc, b"default", b"provider=default", 0, &parts)
        }
        Builtin::Legacy => provider(alloc, b"legacy", b"provider=legacy", 0, &[&OUTDATED]),
        Builtin::Fips => {
            let parts: [&[Case]; 3] = [&SHA, &AES, &KEYED];
            provider(alloc, b"fips", b"provider=fips,fips=yes", 14, &parts)
        }
        Builtin::Null => provider(alloc, b"null", b"", 0, &[]),
        Builtin::Base => provider(alloc, b"base", b"", 0, &[]),
    }
}

// A provider of the cases of these parts, in their order, all with one definition.
fn provider(
    alloc: Global,
    name: &[u8],
    definition: &[u8],
    least_key: u64,
    parts: &[&[Case]],
) -> Result<TableProvider, AllocError>
    ensures { IfOk result (λ provider.
        provider ≡ unstarted name.now definition.now least_key (named_by_all parts.now)) }
{
    let mut rows = Vec::new(alloc);
    for part in parts {
        put_rows(alloc, &mut rows, definition, part)?;
    }
    TableProvider::new(alloc, text(alloc, name)?, rows, least_key)
}

// Appends the rows of some cases.
fn put_rows(
    alloc: Global,
    rows: &mut Vec<TableRow>,
    definition: &[u8],
    cases: &[Case],
) -> Result<(), AllocError>
    ensures { OnOk result
        (rows.new.items ≡ rows.old.items ++ rows_of definition.now (named_by cases.now)) }
{
    for case in cases {
        rows.push(TableRow {
            names: text(alloc, case.names)?,
            definition: text(alloc, definition)?,
            code: case.code,
        })?;
    }
    Ok(())
}

// A text of its own with these bytes.
fn text(alloc: Global, bytes: &[u8]) -> Result<Text, AllocError>
    ensures { IfOk result (λ text. text ≡ bytes.now) }
{
    Ok(Text::of(Vec::from_slice(alloc, bytes)?))
}
