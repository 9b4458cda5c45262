ghost use Rattle.std.specs.Prelude.{◌≡◌, [], ◌∷◌, IfOk};

use crate::Faulty;
use ossl_base::Text;
use ossl_provider::{Provider, TableProvider};
use std::alloc::{AllocError, Global};
use std::test::Fail;

/// A provider without rows that refuses its first and third start.
fn first_and_third(alloc: Global) -> Result<Faulty, AllocError>
    ensures up { IfOk result (λ provider. provider.table.up ≡ []) }
    ensures starts { IfOk result (λ provider. provider.table.starts ≡ 0) }
    ensures refused { IfOk result (λ provider. provider.refused ≡ 1 ∷ 3 ∷ []) }
    ensures asked { IfOk result (λ provider. provider.asked ≡ 0) }
{
    let name = Text::of(Vec::from_slice(alloc, b"A")?);
    let table = TableProvider::new(alloc, name, Vec::new(alloc), 0)?;
    Ok(Faulty::new(table, Vec::from_slice(alloc, &[1, 3])?))
}

#[test]
fn the_listed_starts_are_refused(rt: HostRuntime) -> Result<(), Fail> {
    let mut provider = first_and_third(rt.alloc())?;
    assert!(rt; provider.start(1).is_err());
    assert!(rt; provider.start(2).is_ok());
    assert!(rt; provider.start(3).is_err());
    assert!(rt; provider.start(4).is_ok());
    assert_eq!(rt; provider.faults(), 2);
    Ok(())
}
