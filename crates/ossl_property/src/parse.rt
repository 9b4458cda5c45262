//! A whole text as a list of clauses, or the place of its first fault.

ghost use Rattle.std.specs.Prelude.{◌≡◌, Ok, length, map, IfOk, IfErr};
ghost use Rattle.ossl_property.specs.Bytes.{past, is_space};
ghost use Rattle.ossl_property.specs.Fault.{IsRefusal};
ghost use Rattle.ossl_property.specs.Reading.{Stops, list_at, property_of};

use crate::clause::{Clause, Property, TextRefused};
use crate::reader::{Language, Reader, Refusal};
use std::alloc::{AllocError, Global};

/// The clauses of a text.
pub fn parsed(alloc: Global, text: &[u8], language: Language) -> Result<Vec<Clause>, TextRefused>
    ensures found { IfOk result (λ clauses. list_at language (past is_space text.now) ≡ Ok clauses.items) }
    ensures refused { IfErr result
        (λ refusal. IsRefusal refusal (Stops (length text.now) (list_at language (past is_space text.now)))) }
{
    let mut reader = Reader { rest: text };
    match reader.clauses(alloc, language) {
        Ok(clauses) => Ok(clauses),
        Err(Refusal::Fault) => Err(TextRefused::NotInGrammar {
            place: text.len().saturating_sub(reader.rest.len()) as u64,
        }),
        Err(Refusal::NoMemory) => Err(TextRefused::NoMemory),
    }
}

/// The clauses of a definition as properties.
pub fn properties_of(alloc: Global, clauses: Vec<Clause>) -> Result<Vec<Property>, AllocError>
    ensures { IfOk result (λ properties. properties.items ≡ map property_of clauses.items) }
{
    let mut properties = Vec::new(alloc);
    for clause in clauses {
        properties.push(Property {
            name: clause.name,
            value: clause.value,
        })?;
    }
    Ok(properties)
}
