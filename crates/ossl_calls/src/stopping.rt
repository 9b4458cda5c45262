ghost use Rattle.std.specs.Prelude.{◌≡◌, ◌<◌, ℕ, nat_lt, map, IsTrue, vec_len};
ghost use Rattle.std.specs.List.{list_all};
ghost use Rattle.ossl_provider.specs.Members.{is_distinct};
ghost use Rattle.ossl_state.specs.Boxes.{sheet_of, with_up};
ghost use Rattle.ossl_state.specs.Going.{without_going, IsThere};
ghost use Rattle.ossl_state.specs.Sound.{number_of_born};
ghost use Rattle.ossl_state.specs.State.{up_at};

use crate::boxes::stop_at;
use ossl_provider::provider::Provider;
use ossl_state::going::is_up_without;
use ossl_state::lookup::is_up_instance;
use ossl_state::state::{Going, State};

/// Stops each instance that is up and will not be, once something has gone.
pub fn stop_going<P: Provider>(boxes: &mut Vec<P>, state: &State, going: &Going)
    requires there { IsThere state.now.libs going.now }
    requires distinct { IsTrue (is_distinct (map number_of_born state.now.born)) }
    requires places { IsTrue (list_all (λ b. nat_lt b.place (vec_len boxes.old)) state.now.born) }
    requires up { (k : ℕ) → k < vec_len boxes.old → (sheet_of (map P.sheet boxes.old.items) k).up ≡ up_at state.now k }
    ensures facts { map P.facts boxes.new.items ≡ map P.facts boxes.old.items }
    ensures sheets { (k : ℕ) → k < vec_len boxes.old →
        sheet_of (map P.sheet boxes.new.items) k
        ≡ with_up (sheet_of (map P.sheet boxes.old.items) k) (up_at (without_going state.now going.now) k) }
{
    for b in state.born.as_slice() {
        if is_up_instance(state, b) && !is_up_without(state, going, b) {
            stop_at(boxes, b.place, b.number);
        }
    }
}
