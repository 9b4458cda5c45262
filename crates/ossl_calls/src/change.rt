ghost use Rattle.std.specs.Prelude.{◌≡◌, OnOk, OnErr};
ghost use Rattle.ossl_calls.specs.Change.{IsChangeable, changed};

use ossl_property::Query;
use ossl_state::defaults::set_default;
use ossl_state::state::{Live, State};
use std::alloc::AllocError;

/// What an entry changes that starts and stops nothing.
#[derive(Drop)]
pub enum Change {
    /// Nothing.
    Same,
    /// The default query of a library context.
    Queried { lib: usize, query: Query },
    /// A live element is made.
    Added(Live),
}

/// Changes a state.
pub fn apply_change(state: &mut State, change: Change) -> Result<(), AllocError>
    requires { IsChangeable state.old change }
    ensures ok { OnOk result (state.new ≡ changed state.old change) }
    ensures err { OnErr result (state.new ≡ state.old) }
{
    match change {
        Change::Same => Ok(()),
        Change::Queried { lib, query } => {
            set_default(&mut state.libs, lib, query);
            Ok(())
        }
        Change::Added(made) => state.live.push(made),
    }
}
