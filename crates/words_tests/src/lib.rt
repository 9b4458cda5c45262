//! Tests of what stands before a run: words of a command line, and batches drawn from a seed. It offers nothing.
//! Each list of words has its job or is usage; a batch and a summary are those that were computed elsewhere.
//! The words and the form of a batch are this project's own (docs/manual); the digest in a summary is FIPS 180-4's.
#![tactic(auto)]

#[cfg(test)]
mod batches;
#[cfg(test)]
mod rows;
#[cfg(test)]
mod words;
