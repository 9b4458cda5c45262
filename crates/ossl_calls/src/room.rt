ghost use Rattle.std.specs.Prelude.{◌≡◌, ◌≤◌, ◌<◌, ◌+◌, ◌-◌, ◌^◌, ◌++◌, ◌∷◌, [], OnOk, vec_len, vec_capacity};
ghost use Rattle.ossl_state.specs.Sound.{open_count, giving_back, lent_with};
ghost use Rattle.ossl_state.specs.Step.{with_next};

use ossl_state::call::{Call, Entry, Reply};
use ossl_state::state::{LibCtx, State};
use std::alloc::AllocError;

/// The places that one more entry takes at most: its own, and one to give back each thing that it may hand out, an
/// element and an activation.
pub const ONE_MORE: usize = 3;

fn count_open(libs: &[LibCtx]) -> usize
    ensures { result ≡ open_count libs.now }
{
    let mut count = 0;
    for lib in libs {
        if lib.is_open {
            count += 1;
        }
    }
    count
}

/// How many activations a reply hands out.
fn lent_by_reply(reply: &Reply) -> usize
    ensures { result ≡ lent_with reply.now }
{
    match reply {
        Reply::Loaded { .. } => 1,
        _ => 0,
    }
}

/// Records an answered call in a history that has room: counts the activation that it may hand out, and the entry.
pub fn record(
    history: &mut Vec<Entry>,
    lent: &mut usize,
    state: &mut State,
    caller: u64,
    call: Call,
    reply: Reply,
)
    requires room { vec_len history.old < vec_capacity history.old }
    requires few { lent.old < 2 ^ 64 - 1 }
    requires number { state.old.next < 2 ^ 64 - 1 }
    ensures items { history.new.items ≡ history.old.items
        ++ record { caller = caller; call = call; reply = reply } ∷ [] }
    ensures len { vec_len history.new ≡ vec_len history.old + 1 }
    ensures capacity { vec_capacity history.new ≡ vec_capacity history.old }
    ensures lent { lent.new ≡ lent.old + lent_with reply }
    ensures state { state.new ≡ with_next state.old }
{
    *lent += lent_by_reply(&reply);
    state.next += 1;
    history.push_reserved(Entry {
        caller,
        call,
        reply,
    });
}

/// Makes room in a history for so many entries more, beside those by which all that a state holds is given back.
pub fn reserve_room(history: &mut Vec<Entry>, state: &State, more: usize) -> Result<(), AllocError>
    requires fits { giving_back state.now + more < 2 ^ 64 }
    ensures items { history.new.items ≡ history.old.items }
    ensures len { vec_len history.new ≡ vec_len history.old }
    ensures capacity { vec_capacity history.old ≤ vec_capacity history.new }
    ensures ok { OnOk result (vec_len history.new + giving_back state.now + more ≤ vec_capacity history.new) }
{
    history.reserve(state.live.len() + count_open(state.libs.as_slice()) + more)
}
