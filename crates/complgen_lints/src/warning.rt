//! Warnings and notes, and what they are about.

ghost use Rattle.std.specs.Prelude.{◌≡◌};
ghost use Rattle.complgen_lints.specs.Notes.{is_note};

use crate::place::TreePlace;
use cc_base::Text;

/// A premise of the promises about scripts that does not hold, with the names in its text. Each
/// comment describes the effect for a user of the shell.
#[derive(Drop, Debug)]
pub enum Premise {
    /// The bin name of a call is not plain: scripts may break at it, and the shell may run it.
    BinNotPlain(Text),
    /// A name, an alias, a bin name or a long is not plain: scripts may break at it, and the shell
    /// may run it.
    NotPlain(Text),
    /// A long begins with a hyphen: scripts may break at it, and the shell may run it.
    LongWithHyphen(Text),
    /// A short is not an ASCII letter or digit: scripts may break at it, and the shell may run it.
    ShortNotPlain(char),
    /// An id or a value name contains a `'`: zsh may run what follows.
    Quote,
    /// A name of a subcommand that an earlier one has, or the same one before: the name, and the
    /// name of that subcommand. Behind the name, shells complete only one of the two.
    TakenName(Text, Text),
    /// A possible value that is not quiet: bash may split, change or run it.
    LoudValue(Text),
    /// A label of the bash script that two commands share: that script is not written.
    SharedLabel(Text),
    /// A character that PowerShell takes as a quote, and that its script does not escape:
    /// PowerShell may run what follows.
    UnescapedQuote(char),
}

/// Something else that a tree file may be changed for, or that a note reports. No promise about
/// scripts depends on it. Each comment describes the effect for a user of the shell.
#[derive(Drop, Debug)]
pub enum Advice {
    /// A name or a help text that ends a text of the zsh script, so zsh may run what follows:
    ///
    /// - a value name of an option, or an id of a positional, with a `:` or a backslash;
    /// - the help text of a positional with a backslash;
    /// - the help text of a possible value with a `"`.
    ZshSign,
    /// An id that an earlier argument has: subcommands offer only the first of two global arguments
    /// with one id, and in zsh, a conflict with the id excludes only the first.
    TakenId(Text),
    /// A long or an alias of a long that another argument has, or the same one before: the long,
    /// and the id of that argument. Behind it, live completion offers the values of only one of the
    /// two.
    TakenLong(Text, Text),
    /// A short or an alias of a short that another argument has, or the same one before: the short,
    /// and the id of that argument. Behind it, live completion offers the values of only one of the
    /// two.
    TakenShort(Text, Text),
    /// An argument with the short or the long of the generated flag `help`: fish offers the name with
    /// the description of the flag.
    TakenByHelp,
    /// An argument with the short or the long of the generated flag `version`: fish offers the name
    /// with the description of the flag.
    TakenByVersion,
    /// An id in a list of conflicts that no argument has: zsh still offers the argument that is
    /// meant.
    UnknownConflict(Text),
    /// A positional that takes no value: zsh offers files or values for it, and no shell offers a
    /// flag.
    PositionalWithoutValue,
    /// An index that is 0, or greater than the number of positionals: the index, and that number.
    /// Live completion offers the values at the wrong word, or never.
    IndexOutOfRange(Text, Text),
    /// An index that another positional has: the index, and the id of that positional. Live
    /// completion offers the values of only one of the two.
    TakenIndex(Text, Text),
    /// Possible values of an argument that takes no value: no shell offers them.
    ValuesOfFlag,
    /// An empty list of possible values, on an argument that takes values: no shell offers what the
    /// value hint asks for.
    NoValues,
    /// A command that a tab runs to list values: its words as messages show them.
    RunsCommand(Text),
    /// The program of such a command, which may run its arguments as code: a tab runs that code.
    RunsCode(Text),
    /// A command that a tab runs with the words of the command line behind its own: its words as
    /// messages show them.
    PassesWords(Text),
    /// The program of such a command that is its only word: the program may act on what is typed.
    ActsOnWords(Text),
    /// A key of a source on an argument that takes no value: no shell offers the values.
    SourceOfFlag,
    /// A key that says how a command is run or read, on an argument without a command.
    WithoutCommand,
    /// A separator beside the protocol of the command's lines, which end their values at a tab.
    SplitBesideProtocol,
    /// A hint of paths of an argument whose values come from a command or a file: live completion
    /// offers no paths.
    HintBesideSource,
    /// A hidden command: scripts still offer it.
    HiddenCommand,
    /// A hidden argument: scripts still offer it.
    HiddenArgument,
}

/// The subject of a warning or a note.
#[derive(Drop, Debug)]
pub enum Kind {
    /// A premise of the promises about scripts does not hold.
    Premise(Premise),
    /// Something on which no promise about scripts depends.
    Advice(Advice),
}

/// A warning or note about a place in a tree.
#[derive(Drop, Debug)]
pub struct Warning {
    /// The place of the warning.
    pub place: TreePlace,
    /// The subject of the warning.
    pub kind: Kind,
}

impl Warning {
    /// Returns whether the warning is a note: about a hidden command or argument, or about a command
    /// that a tab runs.
    pub fn is_note(&self) -> bool
        ensures { result ≡ is_note self.now.kind }
    {
        matches!(
            &self.kind,
            Kind::Advice(
                Advice::HiddenCommand
                    | Advice::HiddenArgument
                    | Advice::RunsCommand(_)
                    | Advice::PassesWords(_)
            )
        )
    }
}
