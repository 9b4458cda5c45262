ghost use Rattle.std.specs.Prelude.{◌≡◌, ◌<◌, ◌^◌, ◌-◌, Ok, length, slice_get, OnOk, IfOk};
ghost use Rattle.ossl_codes.specs.Code.{operation_of};
ghost use Rattle.ossl_state.specs.Rows.{offered, row_at, with_defined, with_row};

use crate::items::Items;
use crate::state::Offered;
use ossl_names::{AddRefused, NameMap};
use ossl_property::{Definition, TextRefused};
use ossl_provider::provider::Provider;
use std::alloc::{AllocError, Global};

/// What an instance offers: its rows, how many of the provider's were left out, and the groups of names once those of
/// the rows have joined.
#[derive(Drop)]
pub struct Offer {
    pub rows: Items<Offered>,
    pub skipped: u64,
    pub groups: NameMap,
}

/// Takes in a row with its definition: its names join the groups, and it is offered; names that are none or in conflict
/// leave it out.
fn take_defined<P: Provider>(
    provider: &P,
    index: usize,
    definition: Definition,
    offer: &mut Offer,
) -> Result<(), AllocError>
    requires in_table { index < length (P.facts provider.now).rows }
    requires few { offer.old.skipped < 2 ^ 64 - 1 }
    ensures { OnOk result (offer.new
        ≡ with_defined index (row_at (P.facts provider.now).rows index) (Ok definition) offer.old) }
{
    match offer.groups.add(provider.row_names(index)) {
        Ok(number) => {
            let code = provider.row_code(index);
            offer.rows.push(Offered {
                index: index as u64,
                op: code.operation(),
                number,
                code,
                definition,
            })?;
        }
        Err(AddRefused::NoMemory) => return Err(AllocError),
        Err(_) => offer.skipped += 1,
    }
    Ok(())
}

/// Takes in a row of a provider. One whose definition is none is left out, and its names do not join.
fn take_row<P: Provider>(
    alloc: Global,
    provider: &P,
    index: usize,
    offer: &mut Offer,
) -> Result<(), AllocError>
    requires in_table { index < length (P.facts provider.now).rows }
    requires few { offer.old.skipped < 2 ^ 64 - 1 }
    ensures { OnOk result (offer.new ≡ with_row index (row_at (P.facts provider.now).rows index) offer.old) }
{
    match Definition::parse(alloc, provider.row_definition(index)) {
        Ok(definition) => take_defined(provider, index, definition, offer),
        Err(TextRefused::NotInGrammar { .. }) => {
            offer.skipped += 1;
            Ok(())
        }
        Err(TextRefused::NoMemory) => Err(AllocError),
    }
}

/// What an instance of a provider offers in a library context with these groups of names.
pub fn offer_all<P: Provider>(
    alloc: Global,
    provider: &P,
    groups: NameMap,
) -> Result<Offer, AllocError>
    ensures { IfOk result (λ offer. offer ≡ offered groups (P.facts provider.now).rows) }
{
    let mut offer = Offer {
        rows: Items::new(alloc),
        skipped: 0,
        groups,
    };
    for index in 0..provider.row_count() {
        take_row(alloc, provider, index, &mut offer)?;
    }
    Ok(offer)
}
