//! What a caller holds. Each has to be given back by the caller's own call: none can be copied or dropped.
use ossl_base::text::Text;
use ossl_codes::Code;
use std::marker::Model;

/// An activation of a provider in a library context (OSSL_PROVIDER_load(3)). A clause sees its token.
pub struct Activation {
    pub(crate) number: u64,
}

impl Model for Activation {
    ghost use Rattle.std.specs.Prelude.{ℕ};

    ghost Value = { ℕ };

    ghost view = { λ a. a.number };
}

/// A method that was fetched (EVP_MD_fetch(3)). A clause sees its token, its provider and its code.
pub struct Method {
    pub(crate) number: u64,
    pub(crate) provider: Text,
    pub(crate) code: Code,
}

impl Model for Method {
    ghost use Rattle.ossl_core.specs.Answered.{MethodFacts};

    ghost Value = { MethodFacts };

    ghost view = { λ m. record { number = m.number; provider = m.provider; code = m.code } };
}

impl Method {
    ghost use Rattle.std.specs.Prelude.{◌≡◌};

    /// The algorithm.
    pub fn code(&self) -> Code
        ensures { result ≡ self.now.code }
    {
        self.code
    }

    /// The name of the provider whose row was chosen.
    pub fn provider(&self) -> &Text
        ensures { result.now ≡ self.now.provider }
    {
        &self.provider
    }
}

/// An operation context of a method (EVP_MD_CTX_new(3)). A clause sees its token.
pub struct Context {
    pub(crate) number: u64,
}

impl Model for Context {
    ghost use Rattle.std.specs.Prelude.{ℕ};

    ghost Value = { ℕ };

    ghost view = { λ c. c.number };
}
