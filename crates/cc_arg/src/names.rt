//! The visible names of an argument.

ghost use Rattle.std.specs.Prelude.{◌≡◌};
ghost use Rattle.cc_arg.specs.Aliases.{longs_left, shorts_left};
ghost use Rattle.cc_arg.specs.ShownNames.{names_left, shown_longs, shown_names, shown_shorts};

use crate::aliases::{LongAndVisibleAliases, ShortAndVisibleAliases};
use crate::arg::Arg;
use cc_base::TextRef;

/// A visible name of an argument, without its dashes.
#[derive(Drop)]
pub enum ShownName<'a> {
    /// The `c` of `-c`.
    Short(char),
    /// The `name` of `--name`.
    Long(TextRef<'a>),
}

/// An iterator over the visible shorts of an argument, then its visible longs.
#[derive(Drop)]
pub struct ShownNames<'a> {
    shorts: ShortAndVisibleAliases<'a>,
    longs: LongAndVisibleAliases<'a>,
}

impl<'a> Iterator for ShownNames<'a> {
    ghost use Rattle.std.specs.Iterator.{YieldsFirst, item_count};

    type Item = ShownName<'a>;

    ghost next_gives = { YieldsFirst names_left };

    ghost remaining = { item_count names_left };

    fn next(&mut self) -> Option<ShownName<'a>> {
        if let Some(short) = self.shorts.next() {
            return Some(ShownName::Short(short));
        }
        let long = self.longs.next()?;
        Some(ShownName::Long(TextRef::new(long)))
    }
}

// These are free functions, so that `clap_complete` does not re-export them.

/// Returns an iterator over the short, then its visible aliases. It is empty if there is no short.
pub fn shown_shorts(argument: &Arg) -> ShortAndVisibleAliases<'_>
    ensures { shorts_left result ≡ shown_shorts argument.now }
{
    let aliases = argument.get_visible_short_aliases();
    match argument.get_short() {
        Some(short) => ShortAndVisibleAliases::new(short, aliases),
        None => ShortAndVisibleAliases::none(),
    }
}

/// Returns an iterator over the long, then its visible aliases. It is empty if there is no long.
pub fn shown_longs(argument: &Arg) -> LongAndVisibleAliases<'_>
    ensures { longs_left result ≡ shown_longs argument.now }
{
    let aliases = argument.get_visible_aliases();
    match argument.get_long() {
        Some(long) => LongAndVisibleAliases::new(long, aliases),
        None => LongAndVisibleAliases::none(),
    }
}

/// Returns an iterator over the visible shorts, then the visible longs.
pub fn shown_names(argument: &Arg) -> ShownNames<'_>
    ensures { names_left result ≡ shown_names argument.now }
{
    ShownNames {
        shorts: shown_shorts(argument),
        longs: shown_longs(argument),
    }
}
