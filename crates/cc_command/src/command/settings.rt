//! The settings of a command, each builder with its getter.

ghost use Rattle.std.specs.Prelude.{◌≡◌, ◌++◌, ◌∷◌, [], Some, IfOk, IfErr, unwrap_or};
ghost use Rattle.std.specs.Option.{option_copied};
ghost use Rattle.std.specs.String.{string_bytes};
ghost use Rattle.cc_command.specs.Made.{with_root};

use crate::command::Command;
use crate::command::builders::if_added;
use cc_base::{Error, SubcommandCandidates, Text};

impl Command {
    /// Sets the bin name: the name by which users call the program.
    pub fn bin_name(mut self, name: String) -> Command
        ensures { result
            ≡ with_root (λ node. record node { bin_name = Some (string_bytes name) }) self }
    {
        self.set_bin_name(name);
        self
    }

    /// Sets the bin name in place.
    pub fn set_bin_name(&mut self, name: String)
        ensures { self.new
            ≡ with_root (λ node. record node { bin_name = Some (string_bytes name) }) self.old }
    {
        self.node.built = false;
        set_text(&mut self.node.bin_name, name);
    }

    /// Returns the bin name, by which users call the program. In a built command, the bin name of
    /// each child is the full name of its parent, a space and the child's own name.
    pub fn get_bin_name(&self) -> Option<&str>
        ensures { option_copied result ≡ self.now.node.bin_name }
    {
        text_of(&self.node.bin_name)
    }

    /// Sets the description.
    pub fn about(mut self, about: String) -> Command
        ensures { result
            ≡ with_root (λ node. record node { about = Some (string_bytes about) }) self }
    {
        self.node.built = false;
        set_text(&mut self.node.about, about);
        self
    }

    /// Returns the description.
    pub fn get_about(&self) -> Option<&str>
        ensures { option_copied result ≡ self.now.node.about }
    {
        text_of(&self.node.about)
    }

    /// Sets the description in a parser's long help, instead of `about`. Scripts and candidates do
    /// not change.
    pub fn long_about(mut self, about: String) -> Command
        ensures { result
            ≡ with_root (λ node. record node { long_about = Some (string_bytes about) }) self }
    {
        self.node.built = false;
        set_text(&mut self.node.long_about, about);
        self
    }

    /// Returns the description in a parser's long help, which replaces `about` there.
    pub fn get_long_about(&self) -> Option<&str>
        ensures { option_copied result ≡ self.now.node.long_about }
    {
        text_of(&self.node.long_about)
    }

    /// Sets the text at the end of a parser's help. Scripts and candidates do not change.
    pub fn after_help(mut self, text: String) -> Command
        ensures { result
            ≡ with_root (λ node. record node { after_help = Some (string_bytes text) }) self }
    {
        self.node.built = false;
        set_text(&mut self.node.after_help, text);
        self
    }

    /// Returns the text at the end of a parser's help.
    pub fn get_after_help(&self) -> Option<&str>
        ensures { option_copied result ≡ self.now.node.after_help }
    {
        text_of(&self.node.after_help)
    }

    /// Sets the version, which the flag `--version` shows.
    pub fn version(mut self, version: String) -> Command
        ensures { result
            ≡ with_root (λ node. record node { version = Some (string_bytes version) }) self }
    {
        self.node.built = false;
        set_text(&mut self.node.version, version);
        self
    }

    /// Returns the version, which the flag `--version` shows.
    pub fn get_version(&self) -> Option<&str>
        ensures { option_copied result ≡ self.now.node.version }
    {
        text_of(&self.node.version)
    }

    /// Adds a visible alias.
    ///
    /// # Errors
    ///
    /// `Memory` if an allocation fails.
    pub fn visible_alias(mut self, alias: String) -> Result<Command, Error>
        ensures ok { IfOk result (λ command. command ≡ with_root (λ node. record node {
          visible_aliases = node.visible_aliases ++ string_bytes alias ∷ [];
        }) self) }
        ensures memory { IfErr result (λ error. error ≡ Error.Memory) }
    {
        self.node.built = false;
        let added = self.node.visible_aliases.push(Text::from(alias));
        if_added(added, self)
    }

    /// Returns the visible aliases.
    pub fn get_visible_aliases(&self) -> &[Text]
        ensures { result.now ≡ self.now.node.visible_aliases }
    {
        self.node.visible_aliases.as_slice()
    }

    /// Adds a hidden alias: a parser accepts it, but it is not shown.
    ///
    /// # Errors
    ///
    /// `Memory` if an allocation fails.
    pub fn alias(mut self, alias: String) -> Result<Command, Error>
        ensures ok { IfOk result (λ command. command ≡ with_root
            (λ node. record node { aliases = node.aliases ++ string_bytes alias ∷ [] }) self) }
        ensures memory { IfErr result (λ error. error ≡ Error.Memory) }
    {
        self.node.built = false;
        let added = self.node.aliases.push(Text::from(alias));
        if_added(added, self)
    }

    /// Returns the hidden aliases, which a parser accepts.
    pub fn get_aliases(&self) -> &[Text]
        ensures { result.now ≡ self.now.node.aliases }
    {
        self.node.aliases.as_slice()
    }

    /// Sets the help heading of the children, with which live completion tags their candidates.
    pub fn subcommand_help_heading(mut self, heading: String) -> Command
        ensures { result ≡ with_root
            (λ node. record node { subcommand_help_heading = Some (string_bytes heading) }) self }
    {
        self.node.built = false;
        set_text(&mut self.node.subcommand_help_heading, heading);
        self
    }

    /// Returns the help heading of the children.
    pub fn get_subcommand_help_heading(&self) -> Option<&str>
        ensures { option_copied result ≡ self.now.node.subcommand_help_heading }
    {
        text_of(&self.node.subcommand_help_heading)
    }

    /// Sets the display order among siblings, which sorts the candidates of live completion.
    pub fn display_order(mut self, order: usize) -> Command
        ensures { result ≡ with_root (λ node. record node { display_order = Some order }) self }
    {
        self.node.built = false;
        self.node.display_order = Some(order);
        self
    }

    /// Returns the display order among siblings, or 999 if none is set.
    pub fn get_display_order(&self) -> usize
        ensures { result ≡ unwrap_or self.now.node.display_order 999 }
    {
        self.node.display_order.unwrap_or(999)
    }

    /// Sets whether the command is hidden. Live completion offers a hidden command only if no
    /// visible candidate matches. Scripts contain it anyway.
    pub fn hide(mut self, hide: bool) -> Command
        ensures { result ≡ with_root (λ node. record node { hide = hide }) self }
    {
        self.node.built = false;
        self.node.hide = hide;
        self
    }

    /// Returns whether the command is hidden.
    pub fn is_hide_set(&self) -> bool
        ensures { result ≡ self.now.node.hide }
    {
        self.node.hide
    }

    /// Sets whether to omit the generated flag `--help`.
    pub fn disable_help_flag(mut self, disable: bool) -> Command
        ensures { result ≡ with_root (λ node. record node { disable_help_flag = disable }) self }
    {
        self.node.built = false;
        self.node.disable_help_flag = disable;
        self
    }

    /// Sets whether to omit the generated flag `--version`.
    pub fn disable_version_flag(mut self, disable: bool) -> Command
        ensures { result
            ≡ with_root (λ node. record node { disable_version_flag = disable }) self }
    {
        self.node.built = false;
        self.node.disable_version_flag = disable;
        self
    }

    /// Sets whether to omit the generated child `help`.
    pub fn disable_help_subcommand(mut self, disable: bool) -> Command
        ensures { result
            ≡ with_root (λ node. record node { disable_help_subcommand = disable }) self }
    {
        self.node.built = false;
        self.node.disable_help_subcommand = disable;
        self
    }

    /// Sets whether an unknown subcommand is accepted as an external subcommand, that is, the name
    /// of another program.
    pub fn allow_external_subcommands(mut self, allow: bool) -> Command
        ensures { result
            ≡ with_root (λ node. record node { allow_external_subcommands = allow }) self }
    {
        self.node.built = false;
        self.node.allow_external_subcommands = allow;
        self
    }

    /// Returns whether an unknown subcommand is accepted as an external subcommand.
    pub fn is_allow_external_subcommands_set(&self) -> bool
        ensures { result ≡ self.now.node.allow_external_subcommands }
    {
        self.node.allow_external_subcommands
    }

    /// Sets whether the words of a command line begin without the program's name.
    pub fn no_binary_name(mut self, none: bool) -> Command
        ensures { result ≡ with_root (λ node. record node { no_binary_name = none }) self }
    {
        self.node.built = false;
        self.node.no_binary_name = none;
        self
    }

    /// Returns whether the words of a command line begin without the program's name.
    pub fn is_no_binary_name_set(&self) -> bool
        ensures { result ≡ self.now.node.no_binary_name }
    {
        self.node.no_binary_name
    }

    /// Sets whether a parser requires a subcommand. Scripts and candidates do not change.
    pub fn subcommand_required(mut self, required: bool) -> Command
        ensures { result
            ≡ with_root (λ node. record node { subcommand_required = required }) self }
    {
        self.node.built = false;
        self.node.subcommand_required = required;
        self
    }

    /// Returns whether a parser requires a subcommand.
    pub fn is_subcommand_required_set(&self) -> bool
        ensures { result ≡ self.now.node.subcommand_required }
    {
        self.node.subcommand_required
    }

    /// Sets whether a parser shows the help if there are no arguments. Scripts and candidates do
    /// not change.
    pub fn arg_required_else_help(mut self, help: bool) -> Command
        ensures { result
            ≡ with_root (λ node. record node { arg_required_else_help = help }) self }
    {
        self.node.built = false;
        self.node.arg_required_else_help = help;
        self
    }

    /// Returns whether a parser shows the help if there are no arguments.
    pub fn is_arg_required_else_help_set(&self) -> bool
        ensures { result ≡ self.now.node.arg_required_else_help }
    {
        self.node.arg_required_else_help
    }

    /// Sets the list of external subcommands, by its number in `Completers`.
    pub fn add(mut self, candidates: SubcommandCandidates) -> Command
        ensures { result ≡ with_root (λ node. record node { candidates = Some candidates }) self }
    {
        self.node.built = false;
        self.node.candidates = Some(candidates);
        self
    }

    /// Returns the number of the list that has the names of other programs.
    pub fn get_candidates(&self) -> Option<SubcommandCandidates>
        ensures { result ≡ self.now.node.candidates }
    {
        self.node.candidates
    }
}

// Sets the text of a field.
fn set_text(field: &mut Option<Text>, text: String)
    ensures { field.new ≡ Some (string_bytes text) }
{
    *field = Some(Text::from(text));
}

// Returns the text of a field, if it is set.
fn text_of(field: &Option<Text>) -> Option<&str>
    ensures { option_copied result ≡ field.now }
{
    field.as_ref().map(Text::as_str)
}
