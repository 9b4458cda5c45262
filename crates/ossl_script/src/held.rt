//! The tokens that a caller holds.

ghost use Rattle.std.specs.Prelude.{◌≡◌};
ghost use Rattle.ossl_script.specs.Held.{give_back_call, handed_out};

use ossl_state::{Call, Reply};

/// What a token stands for.
#[derive(Clone, Copy, Debug, PartialEq, Eq)]
pub enum TokenKind {
    Activation,
    Method,
    Context,
}

/// A token that a caller holds.
#[derive(Clone, Copy, Debug, PartialEq, Eq)]
pub struct Held {
    /// The number of the entry that handed it out.
    pub number: u64,
    pub kind: TokenKind,
}

impl Held {
    /// The token that a call with its reply hands out, if it does.
    pub fn handed_out(call: &Call, reply: &Reply) -> Option<Held>
        ensures token { result ≡ handed_out call.now reply.now }
    {
        let (number, kind) = match (call, reply) {
            (Call::Load { .. }, Reply::Loaded { number, .. }) => (*number, TokenKind::Activation),
            (Call::Fetch { .. }, Reply::Fetched { number, .. }) => (*number, TokenKind::Method),
            (Call::UpRef { .. }, Reply::Made { number }) => (*number, TokenKind::Method),
            (Call::NewCtx { .. }, Reply::Made { number }) => (*number, TokenKind::Context),
            _ => return None,
        };
        Some(Held { number, kind })
    }

    /// The call that gives the token back.
    pub fn give_back(self) -> Call
        ensures call { result ≡ give_back_call self }
    {
        match self.kind {
            TokenKind::Activation => Call::Unload { token: self.number },
            TokenKind::Method => Call::Free {
                handle: self.number,
            },
            TokenKind::Context => Call::FreeCtx {
                handle: self.number,
            },
        }
    }
}
