//! The salted file of openssl-enc(1): AES in CBC mode with padding, under a key that PBKDF2 makes of a password.
//! Promise: what is written is the file or its text, each refusal is exact, and a text comes back (`enc`).
//! openssl-enc(1), RFC 8018, SP 800-38A. Work grows with the rounds and the input's bytes, memory with nothing.
#![tactic(auto)]

mod call;
mod cipher;
mod end;
mod header;
mod job;
mod key;
mod stream;
mod words;

pub use call::enc;
