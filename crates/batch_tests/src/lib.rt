//! Tests of whole runs through `batch`: callers that a gate holds back until others have come as far, and sixteen
//! callers of the same library contexts, each printed run of which is read back. It offers nothing.
//! What is proved of `batch` is its contract; that callers do meet is seen here. Output and results follow docs/manual.
#![tactic(auto)]

#[cfg(test)]
mod crowd;
#[cfg(test)]
mod holders;
#[cfg(test)]
mod left_out;
#[cfg(test)]
mod meeting;
#[cfg(test)]
mod reader;
#[cfg(test)]
mod runs;
#[cfg(test)]
mod script;
#[cfg(test)]
mod worked;
