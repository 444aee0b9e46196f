//! The arguments of a program that a shell runs.

ghost use Rattle.std.specs.Prelude.{◌≡◌, map, IfOk};
ghost use Rattle.std.specs.Option.{option_copied};
ghost use Rattle.std.specs.String.{string_bytes};
ghost use Rattle.cc_env.specs.Arguments.{after_dashes, has_folder, program_path, words_after};

use cc_base::Text;
use cc_candidates::{copies_of, join, trim_trailing};
use std::alloc::{AllocError, Global};

// Returns the words after the first `--`; none without one.
fn after_dashes(words: &[String]) -> &[String]
    ensures { map string_bytes result.now ≡ after_dashes (map string_bytes words.now) }
{
    let mut left = words;
    while let Some((word, rest)) = left.split_first() {
        if word.as_str() == "--" {
            return rest;
        }
        left = rest;
    }
    left
}

/// Returns the words after the first `--` that follows the program's name, which is the first of
/// `args`; none without one.
pub fn words_after(args: &[String]) -> &[String]
    ensures { map string_bytes result.now ≡ words_after (map string_bytes args.now) }
{
    match args.split_first() {
        Some((_program, rest)) => after_dashes(rest),
        None => args,
    }
}

/// Returns copies of these words.
///
/// # Errors
///
/// `AllocError` if an allocation fails.
pub(crate) fn copies_after(alloc: Global, args: &[String]) -> Result<Vec<String>, AllocError>
    ensures { IfOk result (λ copies.
        map string_bytes copies.items ≡ words_after (map string_bytes args.now)) }
{
    copies_of(alloc, words_after(args))
}

/// Returns the path by which a shell runs the program that was called by this first argument. A
/// path that leads through a directory is joined to the current directory, if there is one.
///
/// # Errors
///
/// `AllocError` if an allocation fails.
pub fn program_path(
    alloc: Global,
    current_dir: Option<&str>,
    program: &str,
) -> Result<Text, AllocError>
    ensures { IfOk result (λ path.
        path ≡ program_path (option_copied current_dir.entry) program.now) }
{
    match current_dir {
        Some(current) if has_folder(program) => Ok(Text::from(join(alloc, current, program)?)),
        _ => Text::copy_of(alloc, program),
    }
}

fn has_folder(path: &str) -> bool
    ensures { result ≡ has_folder path.now }
{
    trim_trailing(path).as_bytes().contains(&b'/')
}
