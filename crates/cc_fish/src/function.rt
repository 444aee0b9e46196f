//! The bin name in the names of fish's functions.

ghost use Rattle.std.specs.Prelude.{◌≡◌, IfOk};
ghost use Rattle.std.specs.String.{string_bytes};
ghost use Rattle.cc_fish.specs.Table.{function_name};

use cc_quote::{Replace, escape_text};
use std::alloc::{AllocError, Global};

/// Returns the bin name with `_` for each `-`.
pub(crate) fn function_name(alloc: Global, bin_name: &str) -> Result<String, AllocError>
    ensures { IfOk result (λ name. string_bytes name ≡ function_name bin_name.now) }
{
    let escape = Replace {
        byte: b'-',
        by: "_",
    };
    escape_text(alloc, &escape, bin_name)
}
