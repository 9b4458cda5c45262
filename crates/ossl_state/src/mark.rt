ghost use Rattle.std.specs.Prelude.{◌≡◌, ◌<◌, length};
ghost use Rattle.ossl_state.specs.Mark.{marked, taken_back};

use crate::state::{Fallback, State};
use ossl_names::NameMap;

/// What a state was before an entry was put into it: how long its lists were, and what stood in the library context of
/// the entry. Groups that are not replaced are none here.
#[derive(Drop)]
pub struct Mark {
    pub lib: usize,
    pub order: usize,
    pub given: usize,
    pub fallback: Fallback,
    pub groups: Option<NameMap>,
    pub born: usize,
    pub live: usize,
}

/// The mark of a state, and of one of its library contexts.
pub fn mark_of(state: &State, lib: usize) -> Mark
    requires { lib < length state.now.libs }
    ensures { result ≡ marked state.now lib }
{
    let context = &state.libs.as_slice()[lib];
    Mark {
        lib,
        order: context.order.len(),
        given: context.given.len(),
        fallback: context.fallback,
        groups: None,
        born: state.born.len(),
        live: state.live.len(),
    }
}

/// Takes out of a state what was put in after its mark.
pub fn take_back(state: &mut State, mark: Mark)
    requires { mark.lib < length state.old.libs }
    ensures { state.new ≡ taken_back state.old mark }
{
    state.born.truncate(mark.born);
    state.live.truncate(mark.live);
    let context = state.libs.at_mut(mark.lib);
    context.order.truncate(mark.order);
    context.given.truncate(mark.given);
    context.fallback = mark.fallback;
    if let Some(groups) = mark.groups {
        context.groups = groups;
    }
}
