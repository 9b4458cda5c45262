ghost use Rattle.std.specs.Prelude.{◌≡◌, ◌<◌, length, slice_index_or, slice_set};
ghost use Rattle.ossl_state.specs.State.{no_lib};
ghost use Rattle.ossl_state.specs.Step.{defaulted_of};

use crate::items::Items;
use crate::state::LibCtx;
use ossl_property::Query;

/// Sets the default query of a library context.
pub fn set_default(libs: &mut Items<LibCtx>, lib: usize, default: Query)
    requires { lib < length libs.old }
    ensures { libs.new ≡ slice_set libs.old lib (defaulted_of (slice_index_or libs.old lib no_lib) default) }
{
    libs.at_mut(lib).default = default;
}
