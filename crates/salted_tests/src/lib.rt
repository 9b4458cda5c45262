//! Tests of the salted file: a file of real OpenSSL, the way there and back in pieces, and faults in mid-stream.
//! What is written is proved in `ossl_salted` to be the definition's; here it is seen to be OpenSSL's, and to come.
//! The expected bytes are those of `openssl enc` (openssl-enc(1)). It offers nothing.
#![tactic(auto)]

#[cfg(test)]
mod tests;
