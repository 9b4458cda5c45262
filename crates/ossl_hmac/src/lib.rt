//! HMAC over any of the nine hash functions, fed in any pieces, and PBKDF2 over it, which makes keys out of passwords.
//! `finish` gives the standard's code of all bytes fed, `pbkdf2` the standard's key, and no call takes memory.
//! FIPS 198-1, RFC 2104 and RFC 8018. Work grows with the bytes of the key and those fed, and with PBKDF2's rounds.
#![tactic(auto)]

mod hmac;
mod password;
#[cfg(test)]
mod tests;

pub use hmac::Hmac;
pub use password::pbkdf2;
