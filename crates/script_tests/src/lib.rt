//! Tests of one caller at work: its calls by the replies, what it gives back, and its results. It offers nothing.
//! Each caller is shown the replies of a case, and must have its calls, their order at the end and its results.
//! The scripts are those of cases/ and docs/manual/batch.md; the language is this project's own.
#![tactic(auto)]

#[cfg(test)]
mod results;
#[cfg(test)]
mod scripts;
#[cfg(test)]
mod work;
