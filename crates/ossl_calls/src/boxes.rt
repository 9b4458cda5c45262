ghost use Rattle.std.specs.Prelude.{◌≡◌, ◌<◌, ◌^◌, ◌-◌, ℕ, length, map, slice_index, slice_set, IfOk, IsTrue, IsFalse};
ghost use Rattle.std.specs.Prelude.{OnOk, OnErr, vec_len};
ghost use Rattle.ossl_provider.specs.Members.{is_in};
ghost use Rattle.ossl_provider.specs.Sheet.{after_start, after_refusal, after_stop};
ghost use Rattle.ossl_state.specs.Boxes.{sheet_of};

use ossl_provider::provider::{Provider, Refused};
use std::alloc::{AllocError, Global};

/// The count of faults of each box.
pub fn counts_of<P: Provider>(alloc: Global, boxes: &[P]) -> Result<Vec<u64>, AllocError>
    ensures counts { IfOk result (λ counts. counts.items ≡ map (λ b. (P.sheet b).faults) boxes.now) }
    ensures fit { IfOk result (λ counts. (k : ℕ) → slice_index counts.items k < 2 ^ 64) }
{
    let mut counts = Vec::new(alloc);
    for b in boxes {
        counts.push(b.faults())?;
    }
    Ok(counts)
}

/// Starts the provider at a place. Its sheet alone changes.
pub fn start_at<P: Provider>(boxes: &mut Vec<P>, place: usize, instance: u64) -> Result<(), Refused>
    requires place { place < vec_len boxes.old }
    requires fresh { IsFalse (is_in instance (sheet_of (map P.sheet boxes.old.items) place).up) }
    requires room { length (sheet_of (map P.sheet boxes.old.items) place).up < 65536 }
    requires few { (sheet_of (map P.sheet boxes.old.items) place).starts < 2 ^ 64 - 1 }
    ensures facts { map P.facts boxes.new.items ≡ map P.facts boxes.old.items }
    ensures ok { OnOk result (
        let sheets = map P.sheet boxes.old.items in
        map P.sheet boxes.new.items ≡ slice_set sheets place (after_start (sheet_of sheets place) instance)) }
    ensures err { OnErr result (
        let sheets = map P.sheet boxes.old.items in
        map P.sheet boxes.new.items ≡ slice_set sheets place (after_refusal (sheet_of sheets place))) }
{
    boxes[place].start(instance)
}

/// Stops an instance of the provider at a place. Its sheet alone changes.
pub fn stop_at<P: Provider>(boxes: &mut Vec<P>, place: usize, instance: u64)
    requires place { place < vec_len boxes.old }
    requires up { IsTrue (is_in instance (sheet_of (map P.sheet boxes.old.items) place).up) }
    ensures facts { map P.facts boxes.new.items ≡ map P.facts boxes.old.items }
    ensures sheets { let sheets = map P.sheet boxes.old.items in
        map P.sheet boxes.new.items ≡ slice_set sheets place (after_stop (sheet_of sheets place) instance) }
{
    boxes[place].stop(instance);
}
