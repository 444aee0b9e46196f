//! The check that a tree is plain: a script can then contain its names unchanged.

ghost use Rattle.std.specs.Prelude.{◌≡◌, ◌&&◌, ◌||◌, ◌++◌, not};
ghost use Rattle.std.specs.List.{list_all};
ghost use Rattle.std.specs.Option.{option_copied};
ghost use Rattle.std.specs.Char.{is_ascii_alphanumeric};
ghost use Rattle.cc_command.specs.Tree.{forest_of};
ghost use Rattle.cc_command.specs.Names.{contains_name, has_child};
ghost use Rattle.cc_base.specs.PlainName.{is_plain_name};
ghost use Rattle.cc_command.specs.Plain.{all_differ, has_no_quote, is_plain_argument};
ghost use Rattle.cc_command.specs.Plain.{is_plain_forest, is_plain_node, is_plain_tree};
ghost use Rattle.cc_command.specs.Plain.{names_of, passes_if_some, siblings_differ};

use crate::command::Command;
use crate::command::children::has_child;
use crate::command::getters::contains_name;
use crate::node::Node;
use cc_arg::Arg;
use cc_base::{Text, is_plain_name};

impl Command {
    /// Returns whether the tree is plain, so that a script can contain its names unchanged.
    ///
    /// In a plain tree, the names and aliases of commands, the bin name, and the longs and their
    /// aliases are plain: they consist of ASCII letters and digits, with single `-` or `_` between
    /// them. Shorts and their aliases are ASCII letters or digits. Ids and value names contain no
    /// `'`. No two names or aliases of sibling commands are the same.
    ///
    /// Allocates nothing, and so compares the names of each pair of siblings: the time grows with
    /// the square of their number.
    pub fn is_plain(&self) -> bool
        ensures { result ≡ is_plain_tree self.now }
    {
        is_plain_if_some(self.get_bin_name())
            && is_plain_node(&self.node)
            && self.has_plain_children()
    }

    #[cycle(plain)]
    fn has_plain_children(&self) -> bool
        ensures { result
            ≡ (siblings_differ self.now.children && is_plain_forest self.now.children) }
    {
        siblings_differ(&self.children) && is_plain_forest(&self.children)
    }

    #[tactic(auto, using(crate::proofs::DifferentNames::contains_name_append))]
    fn names_differ(&self) -> bool
        ensures { result ≡ all_differ (names_of self.now.node) }
    {
        let visible = self.node.visible_aliases.as_slice();
        let hidden = self.node.aliases.as_slice();
        !contains_name(visible, self.get_name())
            && !contains_name(hidden, self.get_name())
            && all_differ_together(visible, hidden)
    }

    fn is_apart_from(&self, siblings: &[Command]) -> bool
        ensures { result ≡ list_all (λ name. not (has_child (forest_of siblings.now) name))
            (names_of self.now.node) }
    {
        !has_child(siblings, self.get_name())
            && none_has_name(siblings, self.node.visible_aliases.as_slice())
            && none_has_name(siblings, self.node.aliases.as_slice())
    }
}

#[cycle(plain)]
fn is_plain_forest(siblings: &[Command]) -> bool
    ensures { result ≡ is_plain_forest (forest_of siblings.now) }
{
    for sibling in siblings {
        if !is_plain_node(&sibling.node) || !sibling.has_plain_children() {
            return false;
        }
    }
    true
}

// Returns whether all names of all siblings differ, also those of the same sibling.
fn siblings_differ(siblings: &[Command]) -> bool
    ensures { result ≡ siblings_differ (forest_of siblings.now) }
{
    for (position, sibling) in siblings.iter().enumerate() {
        if !sibling.names_differ() || !sibling.is_apart_from(&siblings[position + 1..]) {
            return false;
        }
    }
    true
}

fn none_has_name(siblings: &[Command], names: &[Text]) -> bool
    ensures { result
        ≡ list_all (λ name. not (has_child (forest_of siblings.now) name)) names.now }
{
    for name in names {
        if has_child(siblings, name.as_str()) {
            return false;
        }
    }
    true
}

fn all_differ(names: &[Text]) -> bool
    ensures { result ≡ all_differ names.now }
{
    for (position, name) in names.iter().enumerate() {
        if contains_name(&names[position + 1..], name.as_str()) {
            return false;
        }
    }
    true
}

#[tactic(auto, using(crate::proofs::DifferentNames::all_differ_append))]
fn all_differ_together(names: &[Text], others: &[Text]) -> bool
    ensures { result ≡ all_differ (names.now ++ others.now) }
{
    all_differ(names) && is_apart(names, others) && all_differ(others)
}

fn is_apart(names: &[Text], others: &[Text]) -> bool
    ensures { result ≡ list_all (λ name. not (contains_name others.now name)) names.now }
{
    for name in names {
        if contains_name(others, name.as_str()) {
            return false;
        }
    }
    true
}

fn is_plain_node(node: &Node) -> bool
    ensures { result ≡ is_plain_node node.now }
{
    is_plain_name(node.name.as_str())
        && are_plain_names(node.visible_aliases.as_slice())
        && are_plain_names(node.aliases.as_slice())
        && are_plain_arguments(node.arguments.as_slice())
}

fn are_plain_arguments(arguments: &[Arg]) -> bool
    ensures { result ≡ list_all is_plain_argument arguments.now }
{
    for argument in arguments {
        if !is_plain_argument(argument) {
            return false;
        }
    }
    true
}

fn is_plain_argument(argument: &Arg) -> bool
    ensures { result ≡ is_plain_argument argument.now }
{
    has_no_quote(argument.get_id())
        && have_no_quote(argument.get_value_names())
        && has_plain_shorts(argument)
        && is_plain_if_some(argument.get_long())
        && are_plain_names(argument.get_visible_aliases())
        && are_plain_names(argument.get_aliases())
}

fn has_plain_shorts(argument: &Arg) -> bool
    ensures { result ≡ (passes_if_some is_ascii_alphanumeric argument.now.short
        && (list_all is_ascii_alphanumeric argument.now.visible_short_aliases
        && list_all is_ascii_alphanumeric argument.now.short_aliases)) }
{
    is_alphanumeric_if_some(argument.get_short())
        && are_alphanumeric(argument.get_visible_short_aliases())
        && are_alphanumeric(argument.get_short_aliases())
}

fn is_alphanumeric_if_some(short: Option<char>) -> bool
    ensures { result ≡ passes_if_some is_ascii_alphanumeric short }
{
    match short {
        Some(short) => short.is_ascii_alphanumeric(),
        None => true,
    }
}

fn are_alphanumeric(shorts: &[char]) -> bool
    ensures { result ≡ list_all is_ascii_alphanumeric shorts.now }
{
    for short in shorts {
        if !short.is_ascii_alphanumeric() {
            return false;
        }
    }
    true
}

/// Returns whether `text` holds no `'`.
pub fn has_no_quote(text: &str) -> bool
    ensures { result ≡ has_no_quote text.now }
{
    for byte in text.as_bytes() {
        if *byte == b'\'' {
            return false;
        }
    }
    true
}

fn have_no_quote(texts: &[Text]) -> bool
    ensures { result ≡ list_all has_no_quote texts.now }
{
    for text in texts {
        if !has_no_quote(text.as_str()) {
            return false;
        }
    }
    true
}

fn are_plain_names(names: &[Text]) -> bool
    ensures { result ≡ list_all is_plain_name names.now }
{
    for name in names {
        if !is_plain_name(name.as_str()) {
            return false;
        }
    }
    true
}

fn is_plain_if_some(name: Option<&str>) -> bool
    ensures { result ≡ passes_if_some is_plain_name (option_copied name.entry) }
{
    match name {
        Some(name) => is_plain_name(name),
        None => true,
    }
}
