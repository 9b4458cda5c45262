//! Where a command stands while a call of it waits for its reply.

ghost use Rattle.std.specs.Prelude.{◌≡◌, IfOk};

use crate::bound::Method;
use crate::options::Options;
use crate::outcome::Outcome;
use ossl_base::text::Text;
use ossl_codes::Code;
use ossl_op::Params;
use ossl_property::Query;
use ossl_state::Call;
use std::alloc::{AllocError, Global};
use std::marker::Model;

/// What a whole operation is given beside its bytes: its options, and the query of its fetches.
#[derive(Drop)]
pub struct Asked {
    pub options: Options,
    pub query: Query,
}

/// The same at a place of its own, so that a stage is small where it is handed on.
#[derive(Drop)]
pub struct Request {
    asked: Box<Asked>,
}

impl Model for Request {
    ghost use Rattle.ossl_script.specs.declared.stage.Asked.{Asked};

    ghost Value = { Asked };

    ghost view = { λ r. r.asked.value };
}

impl Request {
    /// A request for this.
    pub fn of(alloc: Global, asked: Asked) -> Result<Request, AllocError>
        ensures asked { IfOk result (λ request. request ≡ asked) }
    {
        Ok(Request {
            asked: Box::new(alloc, asked)?,
        })
    }

    /// What is asked for.
    pub fn asked(&self) -> &Asked
        ensures asked { result.now ≡ self.now }
    {
        self.asked.as_ref()
    }
}

/// The parameters of an operation that is to be opened, at a place of their own.
#[derive(Drop)]
pub struct KeptParams {
    params: Box<Params>,
}

impl Model for KeptParams {
    ghost use Rattle.ossl_op.specs.declared.params.Params.{Params};

    ghost Value = { Params };

    ghost view = { λ g. g.params.value };
}

impl KeptParams {
    /// These parameters.
    pub fn of(alloc: Global, params: Params) -> Result<KeptParams, AllocError>
        ensures params { IfOk result (λ kept. kept ≡ params) }
    {
        Ok(KeptParams {
            params: Box::new(alloc, params)?,
        })
    }

    /// The parameters.
    pub fn params(&self) -> &Params
        ensures params { result.now ≡ self.now }
    {
        self.params.as_ref()
    }
}

/// The methods that are still to be freed, the first of them first.
#[derive(Clone, Copy)]
pub enum Unfreed {
    Nothing,
    One(u64),
    Two { first: u64, last: u64 },
}

/// Which call of which command waits, with what the work behind its reply needs.
#[derive(Drop)]
pub enum Stage {
    /// `load`: the name to be bound.
    Load {
        name: Text,
    },
    /// `fetch`
    Fetch {
        name: Text,
    },
    /// `upref`, with the code of the first method.
    UpRef {
        name: Text,
        code: Code,
    },
    /// `open`, with what the operation computes.
    Open {
        name: Text,
        code: Code,
        inner: Option<Code>,
        params: KeptParams,
    },
    /// `unload`, `free` or `close`: the name to be freed.
    GiveBack {
        name: Text,
    },
    /// `default` or `closelib`, which bind nothing.
    Unbound,
    /// A whole operation asked for its method.
    Method {
        request: Request,
    },
    /// It asked for its inner method; its method is by this provider.
    Inner {
        request: Request,
        provider: Text,
        used: Method,
    },
    /// It asked for a context on its methods.
    Context {
        request: Request,
        provider: Text,
        used: Method,
        inner: Option<Method>,
    },
    /// It gives back what it had; this came of it.
    Ending {
        unfreed: Unfreed,
        outcome: Outcome,
    },
}

/// A call, and where its command stands until the reply.
#[derive(Drop)]
pub struct Asking {
    pub call: Call,
    pub stage: Stage,
}

/// What is left of a command: a call, or what came of it.
#[derive(Drop)]
pub enum Course {
    Asks(Asking),
    Said(Outcome),
}
