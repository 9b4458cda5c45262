//! Queries: what a fetch asks of the algorithms' definitions.

ghost use Rattle.std.specs.Prelude.{◌≡◌, ◌⊎◌, ℕ, List, [], IfOk, IfErr};
ghost use Rattle.ossl_property.specs.Fault.{IsRefusal, Reads, Refuses, HasOne, IsQueryFault};
ghost use Rattle.ossl_property.specs.Grammar.{IsQuery};
ghost use Rattle.ossl_property.specs.declared.clause.Clause.{Clause};
ghost use Rattle.ossl_property.specs.Printed.{printed_query};
ghost use Rattle.ossl_property.specs.Said.{AnswersSaid, SaysQuery, query_said};

use crate::clause::{Clause, TextRefused};
use crate::parse::parsed;
use crate::print::printed;
use crate::reader::Language;
use ossl_base::text::Text;
use std::alloc::{AllocError, Global};
use std::marker::Model;

/// A property query, as property(7) has it: its clauses in order.
#[derive(Drop)]
pub struct Query {
    pub(crate) clauses: Vec<Clause>,
}

impl Model for Query {
    ghost use Rattle.std.specs.Prelude.{List};
    ghost use Rattle.ossl_property.specs.declared.clause.Clause.{Clause};

    ghost Value = { List Clause };

    ghost view = { λ query. query.clauses.items };
}

impl Query {
    /// The query that asks nothing.
    pub fn empty(alloc: Global) -> Query
        ensures { result ≡ [] }
    {
        Query {
            clauses: Vec::new(alloc),
        }
    }

    /// Its clauses, in order.
    pub fn clauses(&self) -> &[Clause]
        ensures clauses { result.now ≡ self.now }
    {
        self.clauses.as_slice()
    }

    /// Reads a query. A text outside the grammar is refused with the place of its first fault.
    pub fn parse(alloc: Global, text: &[u8]) -> Result<Query, TextRefused>
        ensures found { IfOk result (λ query. IsQuery text.now query) }
        ensures only { (query : List Clause) → IsQuery text.now query → Reads result query }
        // What the text says: its list, or the place of its first fault.
        ensures said { AnswersSaid result (query_said text.now) }
        ensures law { SaysQuery text.now }
        ensures refused { IfErr result (λ refusal. IsRefusal refusal (IsQueryFault text.now)) }
        ensures faulty { (place : ℕ) → IsQueryFault text.now place → Refuses result place }
        // Each text has one list or one fault, and none has both.
        ensures one { HasOne (IsQuery text.now) ⊎ HasOne (IsQueryFault text.now) }
        ensures apart { (query : List Clause) (place : ℕ) → IsQuery text.now query → IsQueryFault text.now place → ⊥ }
    {
        let clauses = parsed(alloc, text, Language::Queries)?;
        Ok(Query { clauses })
    }

    /// The printed form, in which each clause has its value. It is a text of this very query,
    /// where some text is.
    pub fn print(&self, alloc: Global) -> Result<Text, AllocError>
        ensures text { IfOk result (λ text. text ≡ printed_query self.now) }
        ensures reads { (said : List ℕ) → IsQuery said self.now → IfOk result (λ text. IsQuery text self.now) }
    {
        let text = self.text(alloc)?;
        Ok(text)
    }

    fn text(&self, alloc: Global) -> Result<Text, AllocError>
        ensures { IfOk result (λ text. text ≡ printed_query self.now) }
    {
        printed(alloc, self.clauses.as_slice())
    }

    /// An equal query.
    pub fn copy(&self, alloc: Global) -> Result<Query, AllocError>
        ensures { IfOk result (λ query. query ≡ self.now) }
    {
        let mut clauses = Vec::new(alloc);
        for clause in &self.clauses {
            clauses.push(clause.copy(alloc)?)?;
        }
        Ok(Query { clauses })
    }
}
