//! Tests of whole operations: a published example of each algorithm, and texts cut at each place. It offers nothing.
//! FIPS 180-4, RFC 1320 and 1321, SP 800-38A and 38B, RFC 8439, RFC 2202 and others, as named beside the values.
#![tactic(auto)]

#[cfg(test)]
mod tests;
