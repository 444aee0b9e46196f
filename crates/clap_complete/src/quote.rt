//! Writers and readers of words as shells quote them.

pub use cc_quote::{
    bash_double, bash_double_word, elvish_escape, elvish_word, fish_double, fish_escape,
    fish_help_for_eval, fish_quote, fish_quote_for_eval, fish_word, posix_quote, posix_word,
    powershell_escape, powershell_word, zsh_escape_help, zsh_escape_value, zsh_reply_help,
    zsh_reply_value, zsh_unescape,
};
