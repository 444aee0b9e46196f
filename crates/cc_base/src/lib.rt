//! Types and functions that every crate of the library uses:
//!
//! - field types that clauses compare by their contents: [`Text`], [`TextRef`] and [`Items`];
//! - the library's [`Error`];
//! - the [`Sink`] to which scripts and replies are written;
//! - the test for plain names, [`is_plain_name`];
//! - the numbers by which a tree refers to completers and lists of candidates;
//! - texts from outside, as messages show them: [`on_one_line`].
//!
//! A sink counts its failures, and [`Collected`] is a sink in memory:
//!
//! ```rattle
//! use cc_base::{Collected, Error, put_all};
//! use std::alloc::Global;
//!
//! fn first_line(alloc: Global) -> Result<Vec<u8>, Error> {
//!     let mut sink = Collected::new(alloc);
//!     put_all(&mut sink, "#compdef app\n".as_bytes())?;
//!     Ok(sink.into_vec())
//! }
//! ```
#![tactic(auto)]

mod collected;
mod counted;
mod error;
mod failures;
mod held;
mod history;
mod items;
mod joined;
mod names;
mod numbers;
mod pieces;
mod shown;
mod sink;
mod sources;
mod text;
mod text_ref;

pub use crate::collected::Collected;
pub use crate::counted::Counted;
pub use crate::error::Error;
pub use crate::failures::Failures;
pub use crate::held::Held;
pub use crate::items::Items;
pub use crate::joined::{put_separator, put_word};
pub use crate::names::is_plain_name;
pub use crate::numbers::{ArgValueCandidates, ArgValueCompleter, SubcommandCandidates};
pub use crate::pieces::{put_around, put_piece, put_pieces, put_text, put_texts};
pub use crate::shown::{on_one_line, visible};
pub use crate::sink::{Sink, put_all};
pub use crate::sources::CandidateSources;
pub use crate::text::Text;
pub use crate::text_ref::TextRef;
