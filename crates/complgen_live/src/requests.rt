//! A request of a shell, and what its answer depends on.

ghost use Rattle.std.specs.Prelude.{◌≡◌, map, option_map, string_bytes};
ghost use Rattle.complgen_live.specs.Origins.{is_trusted};
ghost use Rattle.complgen_live.specs.Requests.{request_words};

use cc_command::Release;
use cc_replies::EnvValues;

/// Where a tree comes from.
#[derive(Clone, Copy, Drop)]
pub enum Origin<'r> {
    /// The program that is completed has it.
    Program,
    /// A file has it. This is the path by which the file was found.
    File(&'r str),
}

impl Origin<'_> {
    /// Returns whether commands that the tree names may be run: those of the program's own tree,
    /// and those of a file that was found by an absolute path. Another path depends on the current
    /// directory, which may belong to someone else.
    pub fn is_trusted(&self) -> bool
        ensures { result ≡ is_trusted self.now }
    {
        match self {
            Origin::Program => true,
            Origin::File(path) => path.starts_with('/'),
        }
    }
}

/// A request of a shell, and what its answer depends on.
#[derive(Drop)]
pub struct Request<'r, D> {
    /// The values of the environment variables.
    pub env: &'r EnvValues,
    /// All words of this program: its name, a `--` and the words to complete.
    pub words: &'r [String],
    /// Where the tree comes from, which decides whether its commands may be run.
    pub origin: Origin<'r>,
    /// The bytes of the tree file, if there is one.
    pub file: Option<&'r [u8]>,
    /// The directory where relative paths begin, if it is known.
    pub current_dir: Option<&'r str>,
    /// The folder whose paths complete the values of value hints.
    pub folder: &'r D,
    /// When the memory of the command is released.
    pub release: Release,
}

/// Returns the words after the `--` of a request for candidates, or `None` if no `--` follows the
/// program's name. The first of them calls the program that is completed.
pub fn request_words(words: &[String]) -> Option<&[String]>
    ensures { option_map (λ after. map string_bytes after.now) result
        ≡ request_words (map string_bytes words.now) }
{
    let (_program, rest) = words.split_first()?;
    let (word, after) = rest.split_first()?;
    if word.as_str() == "--" {
        Some(after)
    } else {
        None
    }
}
