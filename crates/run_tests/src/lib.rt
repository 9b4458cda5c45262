//! Tests of whole runs through `replay`: providers that refuse starts, and devices that fail. It offers nothing.
//! What each run writes follows docs/manual; where a start is refused, what was started is stopped all the same.
#![tactic(auto)]

#[cfg(test)]
mod boxes;
#[cfg(test)]
mod devices;
#[cfg(test)]
mod orders;
