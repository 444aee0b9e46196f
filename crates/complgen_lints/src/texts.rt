//! Writes the text of a warning.

use crate::place::Key;
use crate::running::{may_run_name, may_run_value};
use crate::warning::{Advice, Kind, Premise, Warning};
use std::fmt;

/// Writes the text of the warning, without its place. A name in it may contain control characters.
impl fmt::Display for Warning {
    fn fmt<W: fmt::Write>(&self, f: &mut fmt::Formatter<W>) -> fmt::Result {
        match &self.kind {
            Kind::Premise(premise) => write_premise(self.place.key, premise, f),
            Kind::Advice(advice) => write_advice(self.place.key, advice, f),
        }
    }
}

fn write_premise<W: fmt::Write>(
    key: Option<Key>,
    premise: &Premise,
    f: &mut fmt::Formatter<W>,
) -> fmt::Result {
    match premise {
        Premise::BinNotPlain(name) => write_not_plain("bin name", name.as_str(), f),
        Premise::NotPlain(name) => write_not_plain(named(key), name.as_str(), f),
        Premise::LongWithHyphen(long) => write_hyphen(long.as_str(), f),
        Premise::ShortNotPlain(short) => write_short(*short, f),
        Premise::Quote => write_ended(named(key), "'", f),
        Premise::TakenName(name, command) => {
            write_taken("command", command.as_str(), "name", name.as_str(), f)
        }
        Premise::LoudValue(value) => write_loud_value(value.as_str(), f),
        Premise::SharedLabel(label) => write!(
            f,
            "two commands share the label {} in the bash script, so it is not written",
            label.as_str()
        ),
        Premise::UnescapedQuote(quote) => write!(
            f,
            "PowerShell takes {quote} as the end of the text, and may run what follows"
        ),
    }
}

fn write_advice<W: fmt::Write>(
    key: Option<Key>,
    advice: &Advice,
    f: &mut fmt::Formatter<W>,
) -> fmt::Result {
    match advice {
        Advice::ZshSign => write_ended(named(key), zsh_sign(key), f),
        Advice::TakenId(id) => write!(f, "an earlier argument has the id `{}`", id.as_str()),
        Advice::TakenLong(long, id) => {
            write_taken("argument", id.as_str(), "long", long.as_str(), f)
        }
        Advice::TakenShort(short, id) => {
            write_taken("argument", id.as_str(), "short", short.as_str(), f)
        }
        Advice::TakenIndex(index, id) => {
            write_taken("argument", id.as_str(), "index", index.as_str(), f)
        }
        Advice::TakenByHelp => write_generated(named(key), name_at(key, "h", "help"), "help", f),
        Advice::TakenByVersion => {
            write_generated(named(key), name_at(key, "V", "version"), "version", f)
        }
        Advice::UnknownConflict(id) => write!(f, "no argument here has the id `{}`", id.as_str()),
        Advice::IndexOutOfRange(index, count) => {
            write_out_of_range(index.as_str(), count.as_str(), f)
        }
        Advice::RunsCommand(words) => write!(f, "pressing Tab here runs{}", words.as_str()),
        Advice::RunsCode(program) => write_runs_code(program.as_str(), f),
        Advice::PassesWords(words) => write_passes_words(words.as_str(), f),
        Advice::ActsOnWords(program) => write_acts_on_words(program.as_str(), f),
        advice => f.write_str(fixed_text(advice)),
    }
}

fn write_not_plain<W: fmt::Write>(
    named: &str,
    name: &str,
    f: &mut fmt::Formatter<W>,
) -> fmt::Result {
    write!(
        f,
        "the {named} `{name}` is not plain (letters and digits, with single - or _ between them)"
    )?;
    f.write_str(harm_text(name))
}

fn write_hyphen<W: fmt::Write>(long: &str, f: &mut fmt::Formatter<W>) -> fmt::Result {
    write!(
        f,
        "the long `{long}` begins with a hyphen (write it without)"
    )?;
    f.write_str(harm_text(long))
}

fn write_short<W: fmt::Write>(short: char, f: &mut fmt::Formatter<W>) -> fmt::Result {
    write!(f, "the short `{short}` is not an ASCII letter or digit")?;
    let mut bytes = [0; 4];
    f.write_str(harm_text(short.encode_utf8(&mut bytes)))
}

// Returns what scripts and the shell may do with `name`.
fn harm_text(name: &str) -> &'static str {
    if may_run_name(name) {
        ": scripts may break at it, and the shell may run it"
    } else {
        ": scripts may break at it"
    }
}

fn write_ended<W: fmt::Write>(named: &str, sign: &str, f: &mut fmt::Formatter<W>) -> fmt::Result {
    write!(
        f,
        "the {named} contains a {sign}, which ends this text in the zsh script; the shell may run \
         the rest"
    )
}

// Returns the signs that end a text of the zsh script, as messages name them.
fn zsh_sign(key: Option<Key>) -> &'static str {
    match key {
        Some(Key::Help) => "\\",
        Some(Key::PossibleValues) => "\"",
        _ => ": or a \\",
    }
}

fn write_loud_value<W: fmt::Write>(value: &str, f: &mut fmt::Formatter<W>) -> fmt::Result {
    if may_run_value(value) {
        write!(
            f,
            "the shell may run the value `{value}`: bash expands it at each Tab (letters, digits \
             and +-./:@_,= are safe)"
        )
    } else {
        write!(
            f,
            "bash may split or change the value `{value}` (letters, digits and +-./:@_,= are safe)"
        )
    }
}

fn write_taken<W: fmt::Write>(
    noun: &str,
    owner: &str,
    named: &str,
    name: &str,
    f: &mut fmt::Formatter<W>,
) -> fmt::Result {
    write!(f, "the {noun} `{owner}` also has the {named} `{name}`")
}

fn write_generated<W: fmt::Write>(
    named: &str,
    name: &str,
    flag: &str,
    f: &mut fmt::Formatter<W>,
) -> fmt::Result {
    write!(
        f,
        "the generated {flag} flag also has the {named} `{name}`; disable_{flag}_flag omits \
         that flag"
    )
}

fn write_out_of_range<W: fmt::Write>(
    index: &str,
    count: &str,
    f: &mut fmt::Formatter<W>,
) -> fmt::Result {
    write!(
        f,
        "there is no index {index}: indexes go from 1 to {count} here"
    )
}

fn write_runs_code<W: fmt::Write>(program: &str, f: &mut fmt::Formatter<W>) -> fmt::Result {
    write!(
        f,
        "`{program}` may run its arguments as code; name a program that only prints values"
    )
}

fn write_passes_words<W: fmt::Write>(words: &str, f: &mut fmt::Formatter<W>) -> fmt::Result {
    write!(
        f,
        "the words of the command line are passed to the command{words}"
    )
}

fn write_acts_on_words<W: fmt::Write>(program: &str, f: &mut fmt::Formatter<W>) -> fmt::Result {
    write!(
        f,
        "`{program}` gets only the words of the command line, and may act on them; name a \
         subcommand that only prints values"
    )
}

// Returns what messages call a text at `key`.
fn named(key: Option<Key>) -> &'static str {
    match key {
        Some(Key::BinName) => "bin name",
        Some(Key::Aliases | Key::VisibleAliases) => "alias",
        Some(Key::Id) => "id",
        Some(Key::Short) => "short",
        Some(Key::Long) => "long",
        Some(Key::ValueNames) => "value name",
        Some(Key::Help) => "help",
        Some(Key::PossibleValues) => "help of this value",
        _ => "name",
    }
}

// Returns the short of a flag if `key` is `short`, or else its long.
fn name_at(key: Option<Key>, short: &'static str, long: &'static str) -> &'static str {
    match key {
        Some(Key::Short) => short,
        _ => long,
    }
}

// Returns the text of advice that has the same text for every command, or else an empty text.
fn fixed_text(advice: &Advice) -> &'static str {
    match advice {
        Advice::PositionalWithoutValue => "a positional must take a value",
        Advice::ValuesOfFlag => "possible values have no effect on a flag",
        Advice::NoValues => "an empty list of possible values turns off the value hint",
        Advice::HiddenCommand => "scripts still offer a hidden command; live completion hides it",
        Advice::HiddenArgument => "scripts still offer a hidden argument; live completion hides it",
        Advice::SourceOfFlag => "a flag takes no values, so this key has no effect; leave it out",
        Advice::WithoutCommand => {
            "this key has no effect without values_from; add that, or leave this out"
        }
        Advice::SplitBesideProtocol => {
            "lines of this protocol end their values at a tab, so this key has no effect; leave it \
             out"
        }
        Advice::HintBesideSource => {
            "live completion offers no paths here, since a command or a file lists the values; \
             leave one out"
        }
        _ => "",
    }
}
