// The C library of a destination: the calls of `engine` and the queries, for programs in C or Rust.
#![tactic(auto)]

mod exported;
mod readings;
