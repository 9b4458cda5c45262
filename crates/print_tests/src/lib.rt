//! Tests of the printed order: worked histories with the lines that they give. It offers nothing.
//! Each history is proved to be legal over the boxes of its test; what is printed of it is seen to come.
//! The histories follow provider(7) and OSSL_PROVIDER(3); the form of the lines is that of docs/manual/output.md.
#![tactic(auto)]

#[cfg(test)]
mod tests;
