//! Configuration texts, after config(5): what a text says, which settings it makes, and why it is refused.
//! Reading answers exactly the settings of the definition, or its refusal with the line, kind, name or place.
//! config(5) in its form, with rules of this project's own (docs/manual/configuration.md). Work grows with the bytes
//! read and with those that variables stand for.
#![tactic(auto)]

mod counted;
mod kind;
mod lines;
mod part;
mod progress;
mod put;
mod read;
mod refusal;
mod run;
mod said;
mod sections;
mod settings;
mod settling;
mod value;
mod words;

pub use kind::ConfKind;
pub use progress::MOST_BYTES;
pub use put::{put_refusal, put_shown};
pub use read::read_conf;
pub use refusal::ConfRefused;
pub use settings::Settings;
pub use words::is_on;
