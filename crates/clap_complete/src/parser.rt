//! The parser of a command tree, which is a command of the crate `clap`. So one description serves
//! both to complete a command line and to parse it.

pub use cc_parser::{fits_parser, has_globals, is_parsed_exactly, local_parser, parser};
pub use cc_program::{candidates_and_parser, candidates_and_reached_parser};
