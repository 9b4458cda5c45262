//! What a token that is out stands for, and how an entry changes the uses of instances.

ghost use Rattle.std.specs.Prelude.{◌≡◌};
ghost use Rattle.ossl_provider.specs.Members.{is_in};
ghost use Rattle.ossl_watch.specs.Watched.{ended_by, held_of};

/// What a token stands for.
#[derive(Debug, Clone, Copy)]
pub enum Token {
    /// An activation of the box at a place, in a library context.
    Activation { lib: u64, place: usize },
    /// A method, which holds its provider's instance.
    Method { instance: u64 },
    /// An operation context, which holds the instances of its method and of an inner one.
    Context { instance: u64, inner: Option<u64> },
}

/// How an entry changes what keeps instances up.
#[derive(Debug, Clone, Copy)]
pub enum Use {
    /// The box at a place of a library context has one activation more.
    Activated { lib: u64, place: usize },
    /// It has one less.
    Deactivated { lib: u64, place: usize },
    /// One live element more holds what this token holds.
    Held(Token),
    /// One less does.
    Released(Token),
    /// All activations of a library context are gone.
    Closed { lib: u64 },
}

/// Whether a token's live element holds an instance.
pub fn holds(token: &Token, number: u64) -> bool
    ensures { result ≡ is_in number (held_of token.now) }
{
    match token {
        Token::Activation { .. } => false,
        Token::Method { instance } => *instance == number,
        Token::Context {
            instance,
            inner: None,
        } => *instance == number,
        Token::Context {
            instance,
            inner: Some(inner),
        } => *instance == number || *inner == number,
    }
}

/// What ends where a token is given back.
pub fn use_ended(token: &Token) -> Use
    ensures { result ≡ ended_by token.now }
{
    match token {
        Token::Activation { lib, place } => Use::Deactivated {
            lib: *lib,
            place: *place,
        },
        _ => Use::Released(*token),
    }
}
