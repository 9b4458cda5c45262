//! Definitions: what an algorithm's provider says of it.

ghost use Rattle.std.specs.Prelude.{◌≡◌, ◌⊎◌, ℕ, List, IfOk, IfErr};
ghost use Rattle.ossl_property.specs.Fault.{IsRefusal, Reads, Refuses, HasOne, IsDefinitionFault};
ghost use Rattle.ossl_property.specs.Grammar.{IsDefinition};
ghost use Rattle.ossl_property.specs.declared.clause.Property.{Property};
ghost use Rattle.ossl_property.specs.Printed.{printed_definition};
ghost use Rattle.ossl_property.specs.Said.{AnswersSaid, SaysDefinition, definition_said};

use crate::clause::{Property, TextRefused};
use crate::parse::{parsed, properties_of};
use crate::print::printed;
use crate::reader::Language;
use ossl_base::text::Text;
use std::alloc::{AllocError, Global};
use std::marker::Model;

/// A property definition, as property(7) has it: its properties in order.
#[derive(Drop)]
pub struct Definition {
    pub(crate) properties: Vec<Property>,
}

impl Model for Definition {
    ghost use Rattle.std.specs.Prelude.{List};
    ghost use Rattle.ossl_property.specs.declared.clause.Property.{Property};

    ghost Value = { List Property };

    ghost view = { λ definition. definition.properties.items };
}

impl Definition {
    /// Reads a definition. A text outside the grammar is refused with the place of its first fault.
    pub fn parse(alloc: Global, text: &[u8]) -> Result<Definition, TextRefused>
        ensures found { IfOk result (λ definition. IsDefinition text.now definition) }
        ensures only { (definition : List Property) → IsDefinition text.now definition → Reads result definition }
        // What the text says: its list, or the place of its first fault.
        ensures said { AnswersSaid result (definition_said text.now) }
        ensures law { SaysDefinition text.now }
        ensures refused { IfErr result (λ refusal. IsRefusal refusal (IsDefinitionFault text.now)) }
        ensures faulty { (place : ℕ) → IsDefinitionFault text.now place → Refuses result place }
        // Each text has one list or one fault, and none has both.
        ensures one { HasOne (IsDefinition text.now) ⊎ HasOne (IsDefinitionFault text.now) }
        ensures apart { (definition : List Property) (place : ℕ) → IsDefinition text.now definition
            → IsDefinitionFault text.now place → ⊥ }
    {
        let clauses = parsed(alloc, text, Language::Definitions)?;
        let properties = properties_of(alloc, clauses)?;
        Ok(Definition { properties })
    }

    /// The printed form, in which each property has its value. It is a text of this very
    /// definition, where some text is.
    pub fn print(&self, alloc: Global) -> Result<Text, AllocError>
        ensures text { IfOk result (λ text. text ≡ printed_definition self.now) }
        ensures reads { (said : List ℕ) → IsDefinition said self.now
            → IfOk result (λ text. IsDefinition text self.now) }
    {
        let text = self.text(alloc)?;
        Ok(text)
    }

    fn text(&self, alloc: Global) -> Result<Text, AllocError>
        ensures { IfOk result (λ text. text ≡ printed_definition self.now) }
    {
        printed(alloc, self.properties.as_slice())
    }

    /// An equal definition.
    pub fn copy(&self, alloc: Global) -> Result<Definition, AllocError>
        ensures { IfOk result (λ definition. definition ≡ self.now) }
    {
        let mut properties = Vec::new(alloc);
        for property in &self.properties {
            properties.push(property.copy(alloc)?)?;
        }
        Ok(Definition { properties })
    }
}
