//! A program that completes its words, and parses them with the same tree.

pub use cc_program::{
    ClapParser, Failure, Program, Streams, WordParser, completes, end, run, run_over,
};
pub use cc_replies::{home, variables, words};
