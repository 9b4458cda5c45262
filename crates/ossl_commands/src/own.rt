//! Each caller's lines, found by their places.

ghost use Rattle.std.specs.Prelude.{◌≡◌, ◌<◌, ◌-◌, ◌^◌, ℕ, IfOk, IfSome, length, slice_get};
ghost use Rattle.std.specs.Option.{option_copied};
ghost use Rattle.ossl_commands.specs.Counts.{lines_of, own_places};
ghost use Rattle.ossl_commands.specs.View.{places_in};

use crate::command::Line;
use std::alloc::{AllocError, Global};
use std::collections::BTreeMap;
use std::marker::Model;
use std::sync::Arc;

/// The lines of one caller, in the order of the text. All callers share the lines of the batch.
#[derive(Drop)]
pub struct OwnLines {
    caller: u64,
    all: Arc<Vec<Line>, Global>,
    places: Vec<u64>,
}

impl Model for OwnLines {
    ghost use Rattle.std.specs.Prelude.{◌≡◌, List};
    ghost use Rattle.ossl_commands.specs.declared.command.Line.{Line as TheLine};
    ghost use Rattle.ossl_commands.specs.Counts.{lines_of, own_places};

    ghost Value = { List TheLine };

    ghost view = { λ o. lines_of o.caller o.all.value.items };

    ghost invariant = { λ o. o.places.items ≡ own_places o.caller 0 o.all.value.items };
}

impl OwnLines {
    /// The lines of a caller that stand at these places.
    pub(crate) fn of(caller: u64, all: Arc<Vec<Line>, Global>, places: Vec<u64>) -> OwnLines
        requires { places.items ≡ own_places caller 0 all.value.items }
        ensures { result ≡ lines_of caller all.value.items }
    {
        OwnLines {
            caller,
            all,
            places,
        }
    }

    /// The line at this place among the caller's own.
    pub fn get(&self, index: usize) -> Option<&Line>
        ensures line { option_copied result ≡ slice_get self.now index }
        ensures within { IfSome result (λ line. index < length self.now) }
        ensures few { IfSome result (λ line. index < 2 ^ 64 - 1) }
    {
        match place_at(self.places.as_slice(), index) {
            Some(place) => line_at(self.all.as_slice(), place),
            None => None,
        }
    }
}

fn place_at(places: &[u64], index: usize) -> Option<u64>
    ensures place { result ≡ slice_get places.now index }
    ensures few { IfSome result (λ place. index < 2 ^ 64 - 1) }
{
    places.get(index).copied()
}

fn line_at(lines: &[Line], place: u64) -> Option<&Line>
    ensures { option_copied result ≡ slice_get lines.now place }
{
    lines.get(place as usize)
}

/// The places of each caller's lines among these, in their order.
pub fn own_places(alloc: Global, lines: &[Line]) -> Result<BTreeMap<u64, Vec<u64>>, AllocError>
    ensures { IfOk result (λ own. (caller : ℕ) → places_in own caller ≡ own_places caller 0 lines.now) }
{
    let mut places: BTreeMap<u64, Vec<u64>> = BTreeMap::new(alloc);
    for (place, line) in lines.iter().enumerate() {
        let caller = u64::from(line.caller);
        match places.get_mut(&caller) {
            Some(own) => own.push(place as u64)?,
            None => {
                let mut own = Vec::new(alloc);
                own.push(place as u64)?;
                places.insert(caller, own)?;
            }
        }
    }
    Ok(places)
}

/// A copy of a caller's places.
pub fn copy_places(
    alloc: Global,
    own: &BTreeMap<u64, Vec<u64>>,
    caller: u64,
) -> Result<Vec<u64>, AllocError>
    ensures { IfOk result (λ places. places.items ≡ places_in own.now caller) }
{
    let mut places = Vec::new(alloc);
    if let Some(own) = own.get(&caller) {
        places.extend_from_slice(own.as_slice())?;
    }
    Ok(places)
}
