//! The texts of `--help` and `--version`.

/// The version of `complgen`, then the version of the original whose scripts it writes.
pub const VERSION: &str = "0.1.0 (clap_complete 4.6.11)";

// Returns the names of the shells of `script` between two texts.
macro_rules! script_shells {
    ($before:literal, $after:literal) => {
        concat!(
            $before,
            "bash, elvish, fish, nushell, powershell or zsh",
            $after
        )
    };
}

pub const ABOUT: &str = "Writes shell completions for a program that a tree file describes";

pub const AFTER_HELP: &str = script_shells!(
    "Shells: ",
    " (register: all but nushell)
Tree file: a JSON object that describes a command, with its arguments and subcommands

Live completion of the program app in bash (in zsh: COMPLETE=zsh and ~/.zshrc):
  mkdir -p ~/.local/share/complgen && cp app.json ~/.local/share/complgen
  echo 'source <(COMPLETE=bash complgen)' >> ~/.bashrc

Examples:
  complgen script --shell fish --bin app app.json
  complgen scripts --bin app --out-dir completions app.json
  complgen candidates --index 1 app.json -- app ''
  complgen check app.json"
);

pub const SCRIPT_ABOUT: &str = "Writes the completion script for one shell";

pub const SCRIPTS_ABOUT: &str = "Writes the completion scripts for all shells to files";

pub const REGISTER_ABOUT: &str =
    "Writes a registration, which makes the shell ask the program itself for candidates";

pub const CANDIDATES_ABOUT: &str = "Writes the candidates for one word of a command line";

pub const WANTED_ABOUT: &str =
    "Writes the words of the command that lists the values for one word, as JSON";

pub const CHECK_ABOUT: &str = "Reports what is wrong with a tree file, and where";

pub const MAN_ABOUT: &str = "Writes the man page of a program";

pub const SCRIPT_SHELL_HELP: &str = script_shells!("The shell: ", "");

pub const REGISTER_SHELL_HELP: &str = "The shell: bash, elvish, fish, powershell or zsh";

pub const BIN_HELP: &str = "The name by which users call the program";

pub const CHECK_BIN_HELP: &str =
    "The name by which users call the program, if the tree file has another";

pub const OUT_DIR_HELP: &str = "The directory for the scripts, which must exist";

pub const INDEX_HELP: &str = "The index of the word to complete, where 0 is the program's name";

pub const VALUES_HELP: &str = "The file with the values that the word asks for, one on each line";

pub const JSON_HELP: &str = "Prints JSON for editors and scripts, with one object on each line";

pub const TREE_HELP: &str = "The tree file, a description of the program in JSON";

pub const WORDS_HELP: &str =
    "The command line, starting with the program's name; after --, words may begin with -";

/// The end of the long help text of `script`: for each shell the file of one user, the file for all
/// users if the shell has one, and the line that the shell needs in its own files.
pub const SCRIPT_FILES: &str =
    "Where shells look for the script of a program N, for one user and for all users:
  bash        ~/.local/share/bash-completion/completions/N
              /usr/share/bash-completion/completions/N
  elvish      ~/.config/elvish/lib/N.elv, with the line `use N` in ~/.config/elvish/rc.elv
              /usr/share/elvish/lib/N.elv
  fish        ~/.config/fish/completions/N.fish
              /usr/share/fish/vendor_completions.d/N.fish
  nushell     DIR/N.nu, with the line `use DIR/N.nu *` in config.nu
  powershell  DIR/_N.ps1, with the line `. DIR/_N.ps1` in the file $PROFILE
  zsh         ~/.zfunc/_N, with the line `fpath=(~/.zfunc $fpath)` before compinit in ~/.zshrc
              /usr/share/zsh/site-functions/_N; on Debian /usr/share/zsh/vendor-completions/_N

Example:
  complgen script --shell zsh --bin app app.json > ~/.zfunc/_app";

/// The end of the help text of `scripts`.
pub const SCRIPTS_FILES: &str =
    "Writes NAME.bash, NAME.elv, NAME.fish, NAME.nu, _NAME.ps1 and _NAME, the file names that shells
look for, and prints the paths. `complgen script --help` says in which directory each belongs.

Example:
  complgen scripts --bin app --out-dir completions app.json";

/// The end of the help text of `check`.
pub const CHECK_LINES: &str = "Prints a line for each finding: LINE:COLUMN: LEVEL: PLACE: TEXT
  error    the other commands reject the file
  warning  a script may differ from what the file means, or clap would reject the command
  note     for your information

Exit status: 0 if there are only notes, 1 if there is an error or a warning, 2 for bad usage";

/// The end of the help text of `man`.
pub const MAN_EXAMPLE: &str = "Example:
  complgen man --bin app app.json > app.1";
