//! What a caller's names are bound to.

ghost use Rattle.std.specs.Prelude.{◌≡◌, None, Some, OnOk};
ghost use Rattle.ossl_script.specs.Names.{Rebinds, bound_at};

use ossl_codes::Code;
use ossl_op::OpCtx;
use std::alloc::{AllocError, Global};
use std::collections::BTreeMap;

/// A method that a caller holds: its token, and the code that was fetched.
#[derive(Clone, Copy, Debug, PartialEq, Eq)]
pub struct Method {
    pub token: u64,
    pub code: Code,
}

/// An operation context that runs: its token, the work behind it, and what that gave so far.
#[derive(Drop)]
pub struct Running {
    pub token: u64,
    pub context: OpCtx,
    pub given: Vec<u8>,
}

/// What a name is bound to.
#[derive(Drop)]
pub enum Bound {
    Activation(u64),
    Method(Method),
    Running(Running),
    Finished(u64),
}

/// The names that are bound.
pub type Names = BTreeMap<Vec<u8>, Bound>;

/// Binds a name, whatever it was bound to.
pub fn bind(alloc: Global, names: &mut Names, name: &[u8], bound: Bound) -> Result<(), AllocError>
    ensures { OnOk result (Rebinds names.old names.new name.now (Some bound)) }
{
    let key = Vec::from_slice(alloc, name)?;
    names.insert(key, bound)?;
    Ok(())
}

/// Frees a name, and gives what it was bound to.
pub fn unbind(names: &mut Names, name: &[u8]) -> Option<Bound>
    ensures bound { result ≡ bound_at names.old name.now }
    ensures free { Rebinds names.old names.new name.now None }
{
    names.remove(name)
}
