ghost use Rattle.std.specs.Prelude.{◌≡◌, IfOk};

use ossl_base::text::Text;
use ossl_codes::{Code, Operation};
use ossl_property::Query;
use std::alloc::{AllocError, Global};

/// A call of the registry. `lib` is the number of a library context (OSSL_LIB_CTX(3)), from 0; a token is the number
/// of the entry that handed it out.
#[derive(Drop)]
pub enum Call {
    /// Loads a provider, and hands out an activation of it (OSSL_PROVIDER(3)). With `retain` the fallback to the
    /// provider `default` is kept.
    Load {
        lib: u64,
        name: Text,
        retain: bool,
    },
    /// Gives an activation back.
    Unload {
        token: u64,
    },
    /// Sets the default query of a library context (EVP_set_default_properties(3)).
    SetDefault {
        lib: u64,
        query: Query,
    },
    /// Looks for the best method of a name (EVP_MD_fetch(3)). While no fetch and no load went before that settles it,
    /// the provider `default` becomes active first.
    Fetch {
        lib: u64,
        op: Operation,
        name: Text,
        query: Query,
    },
    /// Makes a second method of the same provider and row (EVP_MD_up_ref(3)).
    UpRef {
        handle: u64,
    },
    /// Gives a method back.
    Free {
        handle: u64,
    },
    /// Makes an operation context of a method, with the method of an inner algorithm where there is one. `key_len` is
    /// the length of the key in bytes, 0 without one.
    NewCtx {
        handle: u64,
        inner: Option<u64>,
        key_len: u64,
    },
    /// Gives an operation context back.
    FreeCtx {
        handle: u64,
    },
    /// Closes a library context: its activations go, its methods and operation contexts stay.
    CloseLib {
        lib: u64,
    },
}

impl Call {
    /// An equal call.
    pub fn copy(&self, alloc: Global) -> Result<Call, AllocError>
        ensures { IfOk result (λ call. call ≡ self.now) }
    {
        Ok(match self {
            Call::Load { lib, name, retain } => Call::Load {
                lib: *lib,
                name: name.copy(alloc)?,
                retain: *retain,
            },
            Call::Unload { token } => Call::Unload { token: *token },
            Call::SetDefault { lib, query } => Call::SetDefault {
                lib: *lib,
                query: query.copy(alloc)?,
            },
            Call::Fetch {
                lib,
                op,
                name,
                query,
            } => Call::Fetch {
                lib: *lib,
                op: *op,
                name: name.copy(alloc)?,
                query: query.copy(alloc)?,
            },
            Call::UpRef { handle } => Call::UpRef { handle: *handle },
            Call::Free { handle } => Call::Free { handle: *handle },
            Call::NewCtx {
                handle,
                inner,
                key_len,
            } => Call::NewCtx {
                handle: *handle,
                inner: *inner,
                key_len: *key_len,
            },
            Call::FreeCtx { handle } => Call::FreeCtx { handle: *handle },
            Call::CloseLib { lib } => Call::CloseLib { lib: *lib },
        })
    }
}

/// What the registry answers.
#[derive(Drop)]
pub enum Reply {
    /// An activation, with its token, the instance that it keeps active, and how many rows of that were left out. An
    /// instance has the number of the entry that started it.
    Loaded {
        number: u64,
        instance: u64,
        skipped: u64,
    },
    /// A method, with its token, and the provider, instance, row and code that it stands for. Rows are counted from 0,
    /// those left out too.
    Fetched {
        number: u64,
        provider: Text,
        instance: u64,
        row: u64,
        code: Code,
    },
    /// A token was made.
    Made {
        number: u64,
    },
    /// The call was carried out.
    Done,
    /// The library context is closed.
    NoLib,
    /// The catalogue has no provider of this name.
    NoProvider,
    /// The provider refused to start in this call.
    StartRefused {
        provider: Text,
    },
    /// No active provider has a row that the fetch may take.
    Unsupported,
    /// The provider does not admit the method's code with a key of this length.
    NotAdmitted,
}

impl Reply {
    /// An equal reply.
    pub fn copy(&self, alloc: Global) -> Result<Reply, AllocError>
        ensures { IfOk result (λ reply. reply ≡ self.now) }
    {
        Ok(match self {
            Reply::Loaded {
                number,
                instance,
                skipped,
            } => Reply::Loaded {
                number: *number,
                instance: *instance,
                skipped: *skipped,
            },
            Reply::Fetched {
                number,
                provider,
                instance,
                row,
                code,
            } => Reply::Fetched {
                number: *number,
                provider: provider.copy(alloc)?,
                instance: *instance,
                row: *row,
                code: *code,
            },
            Reply::Made { number } => Reply::Made { number: *number },
            Reply::Done => Reply::Done,
            Reply::NoLib => Reply::NoLib,
            Reply::NoProvider => Reply::NoProvider,
            Reply::StartRefused { provider } => Reply::StartRefused {
                provider: provider.copy(alloc)?,
            },
            Reply::Unsupported => Reply::Unsupported,
            Reply::NotAdmitted => Reply::NotAdmitted,
        })
    }
}

/// One answered call of the registry.
pub type Entry = ossl_base::entry::Entry<Call, Reply>;
