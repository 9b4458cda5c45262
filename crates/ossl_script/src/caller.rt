//! What a caller is to do next, and what is printed of its lines.

ghost use Rattle.std.specs.Prelude.{◌≡◌, option_map};
ghost use Rattle.ossl_script.specs.Caller.{call_in};
ghost use Rattle.ossl_script.specs.View.{is_end};

use ossl_base::text::Text;
use ossl_state::Call;

/// What a caller does next.
#[derive(Drop)]
pub enum Next {
    /// This call, which belongs to the line of this number.
    Call { line: u64, call: Call },
    /// Nothing more: its lines are done.
    End,
}

impl Next {
    /// The call that comes next, if one does.
    pub fn call(&self) -> Option<&Call>
        ensures call { option_map (λ call. call.now) result ≡ call_in self.now }
    {
        match self {
            Next::Call { call, .. } => Some(call),
            Next::End => None,
        }
    }

    /// Nothing more comes.
    pub fn is_end(&self) -> bool
        ensures end { result ≡ is_end self.now }
    {
        match self {
            Next::Call { .. } => false,
            Next::End => true,
        }
    }
}

/// What is printed of a line.
#[derive(Drop)]
pub struct LineResult {
    /// The number of the line.
    pub line: u64,
    pub text: Text,
}
