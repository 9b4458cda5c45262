//! Properties and clauses, and why a text is neither.

ghost use Rattle.std.specs.Prelude.{◌≡◌, IfOk};
ghost use Rattle.ossl_property.specs.declared.clause.TextRefused.TheVariants.{NoMemory};

use ossl_base::text::Text;
use std::alloc::{AllocError, AllocFailed, Global};

/// The value of a property.
#[derive(Drop)]
pub enum Value {
    Number(i64),
    /// Bytes 32 to 126, at most 999 of them.
    Text(Text),
}

/// How a clause's value is compared with a definition's.
#[derive(Clone, Copy, PartialEq, Eq, Debug)]
pub enum Relation {
    /// `=`
    Equal,
    /// `!=`
    Differ,
    /// `-name`: the default query's clauses of this name are left out.
    Remove,
}

/// What a definition says of an algorithm, as `fips=yes`.
#[derive(Drop)]
pub struct Property {
    /// In lower case.
    pub name: Text,
    pub value: Value,
}

/// What a query asks of an algorithm's definition, as `?fips=yes`.
#[derive(Drop)]
pub struct Clause {
    /// In lower case.
    pub name: Text,
    pub relation: Relation,
    /// Of a removal it is the number 0, and nobody looks at it.
    pub value: Value,
    /// A clause that only counts where it is met; any other refuses where it is not.
    pub optional: bool,
}

/// Why a text is no definition or no query.
#[derive(Clone, Copy, PartialEq, Eq, Debug)]
pub enum TextRefused {
    /// It is outside the grammar. The place is the offset of the first token that cannot stand
    /// there, or of a name that stood before; where a token is missing at the end, it is the length.
    NotInGrammar { place: u64 },
    NoMemory,
}

impl From<AllocError> for TextRefused {
    ghost from_gives = { λ _ e. e ≡ NoMemory };

    fn from(_e: AllocError) -> TextRefused {
        TextRefused::NoMemory
    }
}

impl Value {
    /// An equal value.
    pub fn copy(&self, alloc: Global) -> Result<Value, AllocError>
        ensures { IfOk result (λ value. value ≡ self.now) }
    {
        match self {
            Value::Number(number) => Ok(Value::Number(*number)),
            Value::Text(text) => Ok(Value::Text(text.copy(alloc)?)),
        }
    }
}

impl Property {
    /// An equal property.
    pub fn copy(&self, alloc: Global) -> Result<Property, AllocError>
        ensures { IfOk result (λ property. property ≡ self.now) }
    {
        Ok(Property {
            name: self.name.copy(alloc)?,
            value: self.value.copy(alloc)?,
        })
    }
}

impl Clause {
    /// An equal clause.
    pub fn copy(&self, alloc: Global) -> Result<Clause, AllocError>
        ensures { IfOk result (λ clause. clause ≡ self.now) }
    {
        Ok(Clause {
            name: self.name.copy(alloc)?,
            relation: self.relation,
            value: self.value.copy(alloc)?,
            optional: self.optional,
        })
    }
}
