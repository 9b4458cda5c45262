//! The program's opening.

ghost use Rattle.std.specs.Prelude.{◌≡◌, ◌<◌, [], true, IfErr, OnOk};
ghost use Rattle.std.specs.Option.{option_copied};
ghost use Rattle.ossl_ordered.specs.Opening.{IsOpened, activation_in};
ghost use Rattle.ossl_ordered.specs.Opened.{AddsDefault, AddsLoad, AreLoaded, EndsLoad, EndsLoads, EndsOpening};
ghost use Rattle.ossl_ordered.specs.Opened.{IsLoading};

use crate::program::Program;
use ossl_base::Text;
use ossl_conf::Settings;
use ossl_property::Query;
use ossl_state::call::{Call, Reply};
use std::alloc::{AllocError, Global};

/// Why an opening is not finished.
#[derive(Drop)]
pub enum OpeningRefused {
    /// The load of this provider was not answered with an activation.
    Provider(Text),
    /// Memory was refused.
    NoMemory,
}

impl From<AllocError> for OpeningRefused {
    ghost use Rattle.std.specs.Prelude.{◌≡◌};
    ghost use Rattle.ossl_ordered.specs.declared.opening.OpeningRefused.TheVariants.{NoMemory};

    ghost from_gives = { λ _ e. e ≡ NoMemory };

    fn from(_e: AllocError) -> OpeningRefused {
        OpeningRefused::NoMemory
    }
}

/// The activation that a load is answered with.
fn activation_in(reply: &Reply) -> Option<u64>
    ensures { result ≡ activation_in reply.now }
{
    match reply {
        Reply::Loaded { number, .. } => Some(*number),
        _ => None,
    }
}

/// Loads a provider, and keeps the activation that it is answered with.
fn load<C: Program>(
    alloc: Global,
    program: &mut C,
    name: &Text,
    tokens: &mut Vec<u64>,
) -> Result<(), OpeningRefused>
    requires contexts { 0 < (C.fixed program.old).contexts }
    requires loading { IsLoading (C.fixed program.old) (C.entries program.old) tokens.old.items }
    ensures loading { IsLoading (C.fixed program.new) (C.entries program.new) tokens.new.items }
    ensures ok { OnOk result (AddsLoad name.now true (C.entries program.old) (C.entries program.new)) }
    ensures err { IfErr result (EndsLoad name.now (C.entries program.old) (C.entries program.new)) }
    ensures fixed { C.fixed program.new ≡ C.fixed program.old }
{
    let call = Call::Load {
        lib: 0,
        name: name.copy(alloc)?,
        retain: false,
    };
    tokens.reserve(1)?;
    let reply = program.call(&call)?;
    match activation_in(&reply) {
        Some(number) => {
            tokens.push_reserved(number);
            Ok(())
        }
        None => Err(OpeningRefused::Provider(name.copy(alloc)?)),
    }
}

/// Loads these providers in their order, up to the first that is not answered with an activation.
fn load_all<C: Program>(
    alloc: Global,
    program: &mut C,
    names: &[Text],
    tokens: &mut Vec<u64>,
) -> Result<(), OpeningRefused>
    requires contexts { 0 < (C.fixed program.old).contexts }
    requires fresh { C.entries program.old ≡ [] }
    requires loading { IsLoading (C.fixed program.old) (C.entries program.old) tokens.old.items }
    ensures loading { IsLoading (C.fixed program.new) (C.entries program.new) tokens.new.items }
    ensures ok { OnOk result (AreLoaded names.now (C.entries program.new)) }
    ensures err { IfErr result (EndsLoads names.now (C.entries program.new)) }
    ensures fixed { C.fixed program.new ≡ C.fixed program.old }
{
    for name in names {
        load(alloc, program, name, tokens)?;
    }
    Ok(())
}

/// Sets the default query, where there is one.
fn set_default<C: Program>(
    alloc: Global,
    program: &mut C,
    query: Option<&Query>,
    tokens: &[u64],
) -> Result<(), AllocError>
    requires contexts { 0 < (C.fixed program.old).contexts }
    requires loading { IsLoading (C.fixed program.old) (C.entries program.old) tokens.now }
    ensures loading { IsLoading (C.fixed program.new) (C.entries program.new) tokens.now }
    ensures ok { OnOk result (AddsDefault (option_copied query.entry) (C.entries program.old) (C.entries program.new)) }
    ensures fixed { C.fixed program.new ≡ C.fixed program.old }
{
    let _ = tokens.len();
    if let Some(query) = query {
        let call = Call::SetDefault {
            lib: 0,
            query: query.copy(alloc)?,
        };
        program.call(&call)?;
    }
    Ok(())
}

/// Makes the calls with which the program begins: a load of each provider that the configuration activates, in their
/// order, up to the first that is not answered with an activation, and then its default query, where it has one
/// (config(5)). `tokens` are the activations that are to be given back, whatever the result.
pub fn open<C: Program>(
    alloc: Global,
    program: &mut C,
    settings: &Settings,
    tokens: &mut Vec<u64>,
) -> Result<(), OpeningRefused>
    requires contexts { 0 < (C.fixed program.old).contexts }
    requires fresh { C.entries program.old ≡ [] }
    requires none { tokens.old.items ≡ [] }
    ensures loading { IsLoading (C.fixed program.new) (C.entries program.new) tokens.new.items }
    ensures opened { OnOk result (IsOpened settings.now (C.entries program.new)) }
    ensures ended { IfErr result (EndsOpening settings.now (C.entries program.new)) }
    ensures fixed { C.fixed program.new ≡ C.fixed program.old }
{
    load_all(alloc, program, settings.activations(), tokens)?;
    set_default(alloc, program, settings.default_query(), tokens.as_slice())?;
    Ok(())
}
