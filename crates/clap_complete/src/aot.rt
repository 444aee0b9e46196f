//! Completion scripts that are written ahead of time.

pub use cc_arg::ValueHint;
pub use cc_base::{Collected, Counted, Held, Sink, put_all};
pub use cc_bash::Bash;
pub use cc_fish::Fish;
pub use cc_generator::{Generator, generate, utils};
pub use cc_shell::{InvalidShell, Shell, generate_to};
pub use cc_tables::{Elvish, Nushell, PowerShell};
pub use cc_zsh::Zsh;
