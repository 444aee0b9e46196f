//! Iterators over the visible names of an argument: its short or long, then the visible aliases.

ghost use Rattle.std.specs.Prelude.{◌≡◌};
ghost use Rattle.std.specs.Iterator.{YieldsFirst, YieldsFirstBy, item_count};

use cc_base::Text;

/// An iterator over a short, then its visible aliases in the order in which they were added.
#[derive(Drop)]
pub struct ShortAndVisibleAliases<'a> {
    short: Option<char>,
    visible_aliases: &'a [char],
}

impl<'a> ShortAndVisibleAliases<'a> {
    ghost use Rattle.cc_arg.specs.Aliases.{shorts_left};
    ghost use Rattle.std.specs.Prelude.{◌∷◌, ◌≡◌, []};

    pub(crate) fn new(short: char, visible_aliases: &'a [char]) -> ShortAndVisibleAliases<'a>
        ensures { shorts_left result ≡ short ∷ visible_aliases.now }
    {
        ShortAndVisibleAliases {
            short: Some(short),
            visible_aliases,
        }
    }

    pub(crate) fn none() -> ShortAndVisibleAliases<'a>
        ensures { shorts_left result ≡ [] }
    {
        ShortAndVisibleAliases {
            short: None,
            visible_aliases: &[],
        }
    }
}

impl<'a> Iterator for ShortAndVisibleAliases<'a> {
    ghost use Rattle.cc_arg.specs.Aliases.{shorts_left};

    type Item = char;

    ghost next_gives = { YieldsFirst shorts_left };

    ghost remaining = { item_count shorts_left };

    fn next(&mut self) -> Option<char> {
        if let Some(short) = self.short.take() {
            return Some(short);
        }
        let [first, others @ ..] = self.visible_aliases else {
            return None;
        };
        self.visible_aliases = others;
        Some(*first)
    }
}

/// An iterator over a long, then its visible aliases in the order in which they were added.
#[derive(Drop)]
pub struct LongAndVisibleAliases<'a> {
    long: Option<&'a str>,
    visible_aliases: &'a [Text],
}

impl<'a> LongAndVisibleAliases<'a> {
    ghost use Rattle.cc_arg.specs.Aliases.{longs_left};
    ghost use Rattle.std.specs.Prelude.{◌∷◌, ◌≡◌, []};

    pub(crate) fn new(long: &'a str, visible_aliases: &'a [Text]) -> LongAndVisibleAliases<'a>
        ensures { longs_left result ≡ long.now ∷ visible_aliases.now }
    {
        LongAndVisibleAliases {
            long: Some(long),
            visible_aliases,
        }
    }

    pub(crate) fn none() -> LongAndVisibleAliases<'a>
        ensures { longs_left result ≡ [] }
    {
        LongAndVisibleAliases {
            long: None,
            visible_aliases: &[],
        }
    }
}

impl<'a> Iterator for LongAndVisibleAliases<'a> {
    ghost use Rattle.cc_arg.specs.Aliases.{longs_left};

    type Item = &'a str;

    ghost next_gives = { YieldsFirstBy (λ name. name.now) longs_left };

    ghost remaining = { item_count longs_left };

    fn next(&mut self) -> Option<&'a str> {
        if let Some(long) = self.long.take() {
            return Some(long);
        }
        let [first, others @ ..] = self.visible_aliases else {
            return None;
        };
        self.visible_aliases = others;
        Some(first.as_str())
    }
}
