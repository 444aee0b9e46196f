//! Tests of the library: what neither a clause nor a case of `complgen_cases` shows, and that calls
//! succeed which nothing else makes. Their contracts state what they return if they succeed.
//! `tools/rows.txt` lists where everything else is shown. `proofs/` has rows over definitions.
//!
//! A function of its own borrows a command, because proving the drop of a command at each `?` takes
//! seconds.
#![tactic(auto)]

#[cfg(test)]
mod calls;
#[cfg(test)]
mod checks;
#[cfg(test)]
mod completers;
#[cfg(test)]
mod paths;
#[cfg(test)]
mod printed;
#[cfg(test)]
mod programs;
#[cfg(test)]
mod quoting;
#[cfg(test)]
mod trees;
