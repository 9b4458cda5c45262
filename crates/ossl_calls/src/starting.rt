ghost use Rattle.std.specs.Prelude.{◌≡◌, ◌<◌, ◌^◌, ◌-◌, length, map, slice_set, IsTrue, IsFalse, OnOk, OnErr, vec_len};
ghost use Rattle.ossl_provider.specs.Members.{is_in};
ghost use Rattle.ossl_provider.specs.Sheet.{after_refusal};
ghost use Rattle.ossl_calls.specs.Started.{sheets_started};
ghost use Rattle.ossl_state.specs.Boxes.{sheet_of};
ghost use Rattle.ossl_state.specs.Mark.{taken_back};

use crate::boxes::start_at;
use ossl_provider::provider::{Provider, Refused};
use ossl_state::mark::{Mark, take_back};
use ossl_state::state::State;

/// Starts the provider at a place, where it has to be started. Where it refuses, what its entry has put into the state
/// is taken back.
pub fn start_or_take_back<P: Provider>(
    boxes: &mut Vec<P>,
    state: &mut State,
    place: usize,
    number: u64,
    starts: bool,
    mark: Mark,
) -> Result<(), Refused>
    requires place { place < vec_len boxes.old }
    requires lib { mark.lib < length state.old.libs }
    requires fresh { IsTrue starts → IsFalse (is_in number (sheet_of (map P.sheet boxes.old.items) place).up) }
    requires room { IsTrue starts → length (sheet_of (map P.sheet boxes.old.items) place).up < 65536 }
    requires few { IsTrue starts → (sheet_of (map P.sheet boxes.old.items) place).starts < 2 ^ 64 - 1 }
    ensures facts { map P.facts boxes.new.items ≡ map P.facts boxes.old.items }
    ensures started { OnOk result (
        map P.sheet boxes.new.items ≡ sheets_started starts (map P.sheet boxes.old.items) place number) }
    ensures stays { OnOk result (state.new ≡ state.old) }
    ensures refused { OnErr result (let sheets = map P.sheet boxes.old.items in
        map P.sheet boxes.new.items ≡ slice_set sheets place (after_refusal (sheet_of sheets place))) }
    ensures back { OnErr result (state.new ≡ taken_back state.old mark) }
    ensures asked { OnErr result (IsTrue starts) }
{
    if starts {
        if let Err(refused) = start_at(boxes, place, number) {
            take_back(state, mark);
            return Err(refused);
        }
    }
    Ok(())
}
