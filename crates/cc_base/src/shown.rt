//! Texts from outside, as messages show them on one line.

ghost use Rattle.std.specs.Prelude.{◌≡◌, IfOk, false};
ghost use Rattle.std.specs.Char.{is_control};
ghost use Rattle.std.specs.String.{string_bytes};
ghost use Rattle.cc_base.specs.Shown.{HoldsNoControl, on_one_line, visible};

use std::alloc::{AllocError, Global};

/// Returns `text` with `?` instead of each control character. A name, a value or a path from a file
/// or from a caller may hold a character that ends the line, or one that a terminal takes as a
/// command.
///
/// # Errors
///
/// `AllocError` if an allocation fails.
pub fn on_one_line(alloc: Global, text: &str) -> Result<String, AllocError>
    ensures shown { IfOk result (λ shown. string_bytes shown ≡ on_one_line text.now) }
    ensures no_control { IfOk result (λ shown. HoldsNoControl (string_bytes shown)) }
{
    text.chars().map(visible).collect(alloc)
}

/// Returns `character`, or `?` if it is a control character.
pub fn visible(character: char) -> char
    ensures shown { result ≡ visible character }
    ensures no_control { is_control result ≡ false }
{
    if character.is_control() {
        '?'
    } else {
        character
    }
}
