//! The fields of one command of a tree, except its children.

ghost use Rattle.std.specs.Prelude.{◌≡◌};

use cc_arg::Arg;
use cc_base::{Items, SubcommandCandidates, Text};
use std::alloc::Global;

/// The fields of one command of a tree, except its children.
#[derive(Drop)]
pub struct Node {
    /// The name.
    pub name: Text,
    /// The name of the program. In a built tree, a command below the root has its full name here.
    pub bin_name: Option<Text>,
    /// The description.
    pub about: Option<Text>,
    /// The version, which the flag `--version` shows.
    pub version: Option<Text>,
    /// The description in a parser's long help, instead of `about`.
    pub long_about: Option<Text>,
    /// The text at the end of a parser's help.
    pub after_help: Option<Text>,
    /// Hidden aliases, which a parser accepts.
    pub aliases: Items<Text>,
    /// Visible aliases.
    pub visible_aliases: Items<Text>,
    /// The help heading of the children, which tags candidates.
    pub subcommand_help_heading: Option<Text>,
    /// The display order among siblings, either set or filled in when the command was added.
    pub display_order: Option<usize>,
    /// The display order for the next child that has none, or the next such option or flag.
    pub next_order: usize,
    /// The arguments, in the order in which they were added.
    pub arguments: Items<Arg>,
    /// True if the command is hidden.
    pub hide: bool,
    /// True if building the command adds no flag `--help`.
    pub disable_help_flag: bool,
    /// True if building the command adds no flag `--version`.
    pub disable_version_flag: bool,
    /// True if building the command adds no child `help`.
    pub disable_help_subcommand: bool,
    /// True if an unknown subcommand is accepted as an external subcommand.
    pub allow_external_subcommands: bool,
    /// True if the words of a command line do not begin with the program's name.
    pub no_binary_name: bool,
    /// True if a parser requires a subcommand.
    pub subcommand_required: bool,
    /// True if a parser shows the help if there are no arguments.
    pub arg_required_else_help: bool,
    /// The number of the list that has the names of other programs.
    pub candidates: Option<SubcommandCandidates>,
    /// True if building a command made this node.
    pub generated: bool,
    /// True if this node and all nodes below it are built.
    pub built: bool,
}

impl Node {
    ghost use Rattle.cc_command.specs.Made.{new_node};

    /// Makes a node with this name, in which nothing else is set. Its lists allocate from `alloc`.
    pub fn new(alloc: Global, name: Text) -> Node
        ensures { result ≡ new_node name }
    {
        Node {
            name,
            bin_name: None,
            about: None,
            version: None,
            long_about: None,
            after_help: None,
            aliases: Items::new(alloc),
            visible_aliases: Items::new(alloc),
            subcommand_help_heading: None,
            display_order: None,
            next_order: 0,
            arguments: Items::new(alloc),
            hide: false,
            disable_help_flag: false,
            disable_version_flag: false,
            disable_help_subcommand: false,
            allow_external_subcommands: false,
            no_binary_name: false,
            subcommand_required: false,
            arg_required_else_help: false,
            candidates: None,
            generated: false,
            built: false,
        }
    }
}
