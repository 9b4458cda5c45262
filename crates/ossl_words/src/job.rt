//! What the words ask for.

ghost use Rattle.std.specs.Prelude.{◌≡◌};

use ossl_base::Text;
use std::marker::Model;

/// The order in which the callers of a batch go on: for each turn the number of a caller, which contracts see as a
/// list.
#[derive(Drop)]
pub struct Order {
    callers: Vec<u64>,
}

impl Model for Order {
    ghost use Rattle.std.specs.Prelude.{ℕ, List};

    ghost Value = { List ℕ };

    ghost view = { λ order. order.callers.items };
}

impl Order {
    /// The order of these callers. It takes no memory.
    pub fn of(callers: Vec<u64>) -> Order
        ensures callers { result ≡ callers.items }
    {
        Order { callers }
    }

    /// Its callers.
    pub fn as_slice(&self) -> &[u64]
        ensures callers { result.now ≡ self.now }
    {
        self.callers.as_slice()
    }
}

/// What the words ask for.
#[derive(Drop)]
pub enum Job {
    /// To run a batch.
    Run {
        /// The name of the file that configures it, if one is named.
        conf: Option<Text>,
        /// Whose turn it is; empty where no order is given.
        order: Order,
        /// Whether each fetch says that it was found in the query cache, or not.
        hits: bool,
    },
    /// To generate a batch, run it and sum it up.
    Gen {
        /// How many lines it has, from 1 to 65,536.
        lines: u64,
        /// From which number its lines are drawn.
        seed: u64,
        /// How many callers make them in turn, from 1 to 16.
        callers: u64,
    },
}

/// Why there is no job.
#[derive(Debug, PartialEq, Eq, Clone, Copy, Drop)]
pub enum WordsRefused {
    /// The words are not in the command set.
    Usage,
    /// No memory to read them.
    NoMemory,
}
