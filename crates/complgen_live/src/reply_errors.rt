//! The reasons for which there is no reply to a request.

ghost use Rattle.std.specs.Prelude.{◌≡◌};
ghost use Rattle.complgen_live.specs.declared.reply_errors.ReplyError.TheVariants.{Library};

use cc_base::Error;
use complgen_tree_file::TreeError;

/// The reason why there is no reply to a request.
#[derive(Debug, Drop)]
pub enum ReplyError {
    /// The tree file is not JSON, or its JSON describes no command.
    Tree(TreeError),
    /// A call of the library failed, or an allocation.
    Library(Error),
}

impl From<Error> for ReplyError {
    ghost from_gives = { λ error failed. failed ≡ Library error };

    fn from(error: Error) -> ReplyError {
        ReplyError::Library(error)
    }
}
