//! One reader over a property text, from left to right: each token is a method.

ghost use Rattle.std.specs.Prelude.{◌≡◌, ℕ, ◌+◌, ◌<◌, ◌≤◌, ◌||◌, List, length, OnOk, IfOk, IfErr};
ghost use Rattle.std.specs.Str.{bytes_eq};
ghost use Rattle.ossl_property.specs.Bytes.{past, is_space};
ghost use Rattle.ossl_property.specs.Grammar.{mentions};
ghost use Rattle.ossl_property.specs.Names.{has};
ghost use Rattle.ossl_property.specs.Reading.{Fails, Gives, is_query, name_at, plain_at, quoted_at, value_at};
ghost use Rattle.ossl_property.specs.Reading.{compared_at, comparison_at, named_at, removal_at, prefix_at, clause_at};
ghost use Rattle.ossl_property.specs.Reading.{more_at, list_at};
ghost use Rattle.ossl_property.specs.declared.reader.Refusal.TheVariants.{NoMemory};

use crate::clause::{Clause, Relation, Value};
use crate::names::Names;
use crate::word::{Class, folded, is_name, is_quotable, plain_value, run_length};
use ossl_base::text::Text;
use std::alloc::{AllocError, AllocFailed, Global};

/// Which tokens may stand.
#[derive(Clone, Copy)]
pub enum Language {
    /// `name` and `name=value` alone.
    Definitions,
    /// `?`, `-` and `!=` too.
    Queries,
}

impl Language {
    fn is_query(self) -> bool
        ensures { result ≡ is_query self }
    {
        match self {
            Language::Queries => true,
            Language::Definitions => false,
        }
    }
}

/// What stands before a clause's name.
#[derive(Clone, Copy)]
pub enum Prefix {
    Bare,
    /// `?`
    Optional,
    /// `-`
    Removal,
}

/// Why a token was not read. After a fault the reader stands at the faulty token.
#[derive(Clone, Copy)]
pub enum Refusal {
    Fault,
    NoMemory,
}

impl From<AllocError> for Refusal {
    ghost from_gives = { λ _ e. e ≡ NoMemory };

    fn from(_e: AllocError) -> Refusal {
        Refusal::NoMemory
    }
}

impl<T: Drop> From<AllocFailed<T>> for Refusal {
    ghost from_gives = { λ _ e. e ≡ NoMemory };

    fn from(_e: AllocFailed<T>) -> Refusal {
        Refusal::NoMemory
    }
}

/// The part of a text that is still to be read.
#[derive(Drop)]
pub struct Reader<'a> {
    pub rest: &'a [u8],
}

impl<'a> Reader<'a> {
    #[tactic(auto, using(crate::proofs::Runs::past_twice, crate::proofs::Runs::length_past))]
    fn skip_spaces(&mut self)
        ensures rest { self.new.rest.now ≡ past is_space self.old.rest.now }
        ensures shorter { length self.new.rest.now ≤ length self.old.rest.now }
        ensures trimmed { past is_space self.new.rest.now ≡ self.new.rest.now }
    {
        let (_, rest) = self.rest.split_at(run_length(Class::Space, self.rest));
        self.rest = rest;
    }

    /// A name that did not stand before.
    #[tactic(auto, unfolding(crate::specs::Reading::name_at))]
    fn name(&mut self, alloc: Global, names: &mut Names) -> Result<Text, Refusal>
        ensures name { Gives (λ name. (name, self.new.rest.now)) result self.new.rest.now
            (name_at (has names.old) self.old.rest.now) }
        ensures names { IfOk result
            (λ name. (other : List ℕ) → has names.new other ≡ (has names.old other || bytes_eq name other)) }
    {
        let (word, rest) = self.rest.split_at(run_length(Class::Name, self.rest));
        if !is_name(word) {
            return Err(Refusal::Fault);
        }
        let name = folded(alloc, word)?;
        if !names.insert(alloc, name.as_slice())? {
            return Err(Refusal::Fault);
        }
        self.rest = rest;
        Ok(Text::of(name))
    }

    /// A number or a string without quotes.
    #[tactic(auto, unfolding(crate::specs::Reading::plain_at))]
    fn plain(&mut self, alloc: Global) -> Result<Value, Refusal>
        ensures { Gives (λ value. (value, self.new.rest.now)) result self.new.rest.now (plain_at self.old.rest.now) }
    {
        let (word, rest) = self.rest.split_at(run_length(Class::Word, self.rest));
        match plain_value(alloc, word)? {
            Some(value) => {
                self.rest = rest;
                Ok(value)
            }
            None => Err(Refusal::Fault),
        }
    }

    /// A string behind its first quote.
    fn quoted(&mut self, alloc: Global, quote: u8, text: &'a [u8]) -> Result<Value, Refusal>
        ensures { Gives (λ value. (value, self.new.rest.now)) result self.new.rest.now
            (quoted_at quote self.old.rest.now text.now) }
    {
        let (inner, behind) = text.split_at(run_length(Class::Within(quote), text));
        match behind {
            [_, rest @ ..] if is_quotable(quote, inner) => {
                let value = Value::Text(Text::of(Vec::from_slice(alloc, inner)?));
                self.rest = rest;
                Ok(value)
            }
            _ => Err(Refusal::Fault),
        }
    }

    #[tactic(auto, unfolding(crate::specs::Reading::value_at))]
    fn value(&mut self, alloc: Global) -> Result<Value, Refusal>
        ensures { Gives (λ value. (value, self.new.rest.now)) result self.new.rest.now (value_at self.old.rest.now) }
    {
        match self.rest {
            [] => Err(Refusal::Fault),
            [quote, text @ ..] if *quote == b'\'' || *quote == b'"' => {
                self.quoted(alloc, *quote, text)
            }
            _ => self.plain(alloc),
        }
    }

    /// The value behind an operator.
    fn compared(&mut self, alloc: Global, relation: Relation) -> Result<(Relation, Value), Refusal>
        ensures { Gives (λ x. (x.0, x.1, self.new.rest.now)) result self.new.rest.now
            (compared_at relation self.old.rest.now) }
    {
        self.skip_spaces();
        let value = self.value(alloc)?;
        Ok((relation, value))
    }

    /// What stands behind a name: an operator and a value, or nothing, which means `=yes`.
    #[tactic(auto, unfolding(crate::specs::Reading::comparison_at))]
    fn comparison(
        &mut self,
        alloc: Global,
        language: Language,
    ) -> Result<(Relation, Value), Refusal>
        ensures { Gives (λ x. (x.0, x.1, self.new.rest.now)) result self.new.rest.now
            (comparison_at language (past is_space self.old.rest.now)) }
    {
        self.skip_spaces();
        match self.rest {
            [b'=', rest @ ..] => {
                self.rest = rest;
                self.compared(alloc, Relation::Equal)
            }
            [b'!', b'=', rest @ ..] if language.is_query() => {
                self.rest = rest;
                self.compared(alloc, Relation::Differ)
            }
            _ => {
                let yes = Text::of(Vec::from_slice(alloc, b"yes")?);
                Ok((Relation::Equal, Value::Text(yes)))
            }
        }
    }

    /// A clause behind its prefix.
    #[tactic(auto, unfolding(crate::specs::Reading::named_at))]
    fn named(
        &mut self,
        alloc: Global,
        language: Language,
        names: &mut Names,
        optional: bool,
    ) -> Result<Clause, Refusal>
        ensures clause { Gives (λ clause. (clause, self.new.rest.now)) result self.new.rest.now
            (named_at language (has names.old) optional self.old.rest.now) }
        ensures names { IfOk result
            (λ clause. (other : List ℕ) → has names.new other ≡ (has names.old other || bytes_eq clause.name other)) }
    {
        let name = self.name(alloc, names)?;
        let (relation, value) = self.comparison(alloc, language)?;
        Ok(Clause {
            name,
            relation,
            value,
            optional,
        })
    }

    #[tactic(auto, unfolding(crate::specs::Reading::removal_at))]
    fn removal(&mut self, alloc: Global, names: &mut Names) -> Result<Clause, Refusal>
        ensures clause { Gives (λ clause. (clause, self.new.rest.now)) result self.new.rest.now
            (removal_at (has names.old) self.old.rest.now) }
        ensures names { IfOk result
            (λ clause. (other : List ℕ) → has names.new other ≡ (has names.old other || bytes_eq clause.name other)) }
    {
        let name = self.name(alloc, names)?;
        Ok(Clause {
            name,
            relation: Relation::Remove,
            value: Value::Number(0),
            optional: false,
        })
    }

    /// `?` or `-`, and the spaces behind it.
    fn prefix(&mut self, language: Language) -> Prefix
        ensures { (result, self.new.rest.now) ≡ prefix_at language self.old.rest.now }
    {
        match self.rest {
            [b'?', rest @ ..] if language.is_query() => {
                self.rest = rest;
                self.skip_spaces();
                Prefix::Optional
            }
            [b'-', rest @ ..] if language.is_query() => {
                self.rest = rest;
                self.skip_spaces();
                Prefix::Removal
            }
            _ => Prefix::Bare,
        }
    }

    #[tactic(auto, unfolding(crate::specs::Reading::clause_at))]
    fn clause(
        &mut self,
        alloc: Global,
        language: Language,
        names: &mut Names,
    ) -> Result<Clause, Refusal>
        ensures clause { Gives (λ clause. (clause, self.new.rest.now)) result self.new.rest.now
            (clause_at language (has names.old) self.old.rest.now) }
        ensures names { IfOk result
            (λ clause. (other : List ℕ) → has names.new other ≡ (has names.old other || bytes_eq clause.name other)) }
    {
        match self.prefix(language) {
            Prefix::Bare => self.named(alloc, language, names, false),
            Prefix::Optional => self.named(alloc, language, names, true),
            Prefix::Removal => self.removal(alloc, names),
        }
    }

    /// Behind a clause: a comma and the next clause.
    #[tactic(auto, unfolding(crate::specs::Reading::more_at))]
    fn next(
        &mut self,
        alloc: Global,
        language: Language,
        names: &mut Names,
        clauses: &mut Vec<Clause>,
    ) -> Result<(), Refusal>
        requires left { 0 < length self.old.rest.now }
        requires names { has names.old ≡ mentions clauses.old.items }
        ensures ok { OnOk result
            ((fuel : ℕ) → more_at (fuel + 1) language clauses.old.items self.old.rest.now
            ≡ more_at fuel language clauses.new.items self.new.rest.now) }
        ensures err { IfErr result
            (λ e. (fuel : ℕ) → Fails e self.new.rest.now
            (more_at (fuel + 1) language clauses.old.items self.old.rest.now)) }
        ensures names { OnOk result (has names.new ≡ mentions clauses.new.items) }
        ensures less { OnOk result (length self.new.rest.now < length self.old.rest.now) }
    {
        match self.rest {
            [b',', rest @ ..] => self.rest = rest,
            _ => return Err(Refusal::Fault),
        }
        self.skip_spaces();
        let clause = self.clause(alloc, language, names)?;
        clauses.push(clause)?;
        self.skip_spaces();
        Ok(())
    }

    /// The clauses of a whole text.
    #[tactic(auto, unfolding(crate::specs::Reading::list_at))]
    pub fn clauses(&mut self, alloc: Global, language: Language) -> Result<Vec<Clause>, Refusal>
        ensures { Gives (λ clauses. clauses.items) result self.new.rest.now
            (list_at language (past is_space self.old.rest.now)) }
    {
        self.skip_spaces();
        let mut clauses = Vec::new(alloc);
        if self.rest.is_empty() {
            return Ok(clauses);
        }
        let mut names = Names::new(alloc);
        let first = self.clause(alloc, language, &mut names)?;
        clauses.push(first)?;
        self.skip_spaces();
        'clauses: while !self.rest.is_empty() {
            self.next(alloc, language, &mut names, &mut clauses)?;
        }
        Ok(clauses)
    }
}
