//! The whole page.

ghost use Rattle.std.specs.Prelude.{◌≡◌, ◌++◌, codes, Some, IfErr};
ghost use Rattle.std.specs.List.{list_any};
ghost use Rattle.std.specs.Option.{option_copied};
ghost use Rattle.std.specs.String.{string_bytes};
ghost use Rattle.cc_base.specs.Writes.{IsWrite, Writes, as_write};
ghost use Rattle.cc_command.specs.Built.{built_under};
ghost use Rattle.cc_command.specs.Tree.{forest_of};
ghost use Rattle.complgen_man.specs.Outcome.{LeavesBuilt};
ghost use Rattle.complgen_man.specs.Shown.{ReadsBack};
ghost use Rattle.complgen_man.specs.Page.{about_text, commands_section, front_text, heading_text};
ghost use Rattle.complgen_man.specs.Page.{is_shown_argument, man_page, name_section, opening_text};
ghost use Rattle.complgen_man.specs.Page.{options_section, source_text, title_text};
ghost use Rattle.complgen_man.specs.Page.{titled_commands, titled_options};

use crate::arguments::write_arguments;
use crate::commands::write_commands;
use crate::escapes::{put_request, put_word, put_word_between, write_paragraph};
use crate::usage::{description, has_shown, write_notes, write_usage};
use cc_arg::Arg;
use cc_base::{Error, Sink, put_piece};
use cc_command::{Command, build_as, full_name};
use std::alloc::Global;
use std::io::ErrorKind;

/// Writes the man page of `root`, which is usually built, in section 1.
///
/// # Errors
///
/// `Write` if the sink fails. The sink then holds a beginning of the page.
#[tactic(auto, using(crate::proofs::PageRead::page_reads_back))]
pub fn write_page<W: Sink>(sink: &mut W, root: &Command) -> Result<(), Error>
    ensures written { Writes W.taken W.failed result sink.old sink.new (man_page root.now) }

    // A reader of roff reads the page as what it shows: each text of the tree, and the page's own
    // requests. No text of the tree begins a request.
    ensures reads { ReadsBack root.now }
    ensures write_only { IfErr result IsWrite }
{
    Ok(write_parts(sink, root)?)
}

/// Sets the bin name, builds `command` and writes its man page to `sink`.
///
/// # Errors
///
/// - `Memory` if an allocation fails. The command then stays as it was, and nothing is written.
/// - `Write` if the sink fails. The sink then holds a beginning of the page, and the command is
///   built.
#[tactic(auto, using(crate::proofs::PageRead::page_reads_back))]
pub fn generate_page<W: Sink>(
    alloc: Global,
    command: &mut Command,
    bin_name: String,
    sink: &mut W,
) -> Result<(), Error>
    ensures written { Writes W.taken W.failed result sink.old sink.new
        (man_page (built_under (Some (string_bytes bin_name)) command.old)) }
    ensures reads { ReadsBack (built_under (Some (string_bytes bin_name)) command.old) }
    ensures built { LeavesBuilt result command.old command.new
        (built_under (Some (string_bytes bin_name)) command.old)
        (W.taken sink.old) (W.taken sink.new) }
{
    build_as(command, alloc, bin_name)?;
    write_page(sink, command)
}

#[tactic(auto, unfolding(crate::specs::Page::man_page))]
fn write_parts<W: Sink>(sink: &mut W, root: &Command) -> Result<(), ErrorKind>
    ensures { Writes W.taken W.failed (as_write result) sink.old sink.new (man_page root.now) }
{
    write_front(sink, root)?;
    write_options(sink, root)?;
    write_notes(sink, root.get_after_help())?;
    write_below(sink, root.get_subcommands())
}

#[tactic(auto, unfolding(crate::specs::Page::front_text))]
fn write_front<W: Sink>(sink: &mut W, root: &Command) -> Result<(), ErrorKind>
    ensures { Writes W.taken W.failed (as_write result) sink.old sink.new (front_text root.now) }
{
    write_opening(sink, root)?;
    put_request(sink, "SH DESCRIPTION\n")?;
    write_paragraph(sink, description(root))
}

#[tactic(auto, unfolding(crate::specs::Page::opening_text))]
fn write_opening<W: Sink>(sink: &mut W, root: &Command) -> Result<(), ErrorKind>
    ensures { Writes W.taken W.failed (as_write result) sink.old sink.new (opening_text root.now) }
{
    write_heading(sink, root)?;
    put_request(sink, "SH SYNOPSIS\n\\&")?;
    write_usage(sink, root)
}

#[tactic(auto, unfolding(crate::specs::Page::heading_text))]
fn write_heading<W: Sink>(sink: &mut W, root: &Command) -> Result<(), ErrorKind>
    ensures { Writes W.taken W.failed (as_write result) sink.old sink.new
        (heading_text root.now.node) }
{
    write_title(sink, full_name(root), root.get_version())?;
    write_name(sink, full_name(root), root.get_about())
}

#[tactic(auto, unfolding(crate::specs::Page::title_text))]
fn write_title<W: Sink>(sink: &mut W, name: &str, version: Option<&str>) -> Result<(), ErrorKind>
    ensures { Writes W.taken W.failed (as_write result) sink.old sink.new
        (title_text name.now (option_copied version.entry)) }
{
    put_word_between(sink, ".TH \"", name, "\" \"1\" \"\" \"")?;
    write_source(sink, name, version)?;
    put_piece(sink, "\" \"User Commands\"\n.nh\n")
}

#[tactic(auto, unfolding(crate::specs::Page::source_text))]
fn write_source<W: Sink>(sink: &mut W, name: &str, version: Option<&str>) -> Result<(), ErrorKind>
    ensures { Writes W.taken W.failed (as_write result) sink.old sink.new
        (source_text name.now (option_copied version.entry)) }
{
    put_word(sink, name)?;
    let Some(version) = version else {
        return Ok(());
    };
    put_piece(sink, " ")?;
    put_word(sink, version)
}

#[tactic(auto, unfolding(crate::specs::Page::name_section))]
fn write_name<W: Sink>(sink: &mut W, name: &str, about: Option<&str>) -> Result<(), ErrorKind>
    ensures { Writes W.taken W.failed (as_write result) sink.old sink.new
        (name_section name.now (option_copied about.entry)) }
{
    put_request(sink, "SH NAME\n\\&")?;
    put_word(sink, name)?;
    write_about(sink, about)?;
    put_piece(sink, "\n")
}

#[tactic(auto, using(cc_base::proofs::WrittenTexts::after_bytes))]
fn write_about<W: Sink>(sink: &mut W, about: Option<&str>) -> Result<(), ErrorKind>
    ensures { Writes W.taken W.failed (as_write result) sink.old sink.new
        (about_text (option_copied about.entry)) }
{
    let Some(about) = about else {
        return Ok(());
    };
    put_piece(sink, " \\- ")?;
    put_word(sink, about)
}

#[tactic(auto, unfolding(crate::specs::Page::options_section))]
fn write_options<W: Sink>(sink: &mut W, root: &Command) -> Result<(), ErrorKind>
    ensures { Writes W.taken W.failed (as_write result) sink.old sink.new
        (options_section root.now.node) }
{
    if !has_shown_argument(root.get_arguments()) {
        return Ok(());
    }
    write_titled_options(sink, root)
}

#[tactic(auto, unfolding(crate::specs::Page::titled_options))]
fn write_titled_options<W: Sink>(sink: &mut W, root: &Command) -> Result<(), ErrorKind>
    ensures { Writes W.taken W.failed (as_write result) sink.old sink.new
        (titled_options root.now.node) }
{
    put_request(sink, "SH OPTIONS\n")?;
    write_arguments(sink, root)
}

fn has_shown_argument(arguments: &[Arg]) -> bool
    ensures { result ≡ list_any is_shown_argument arguments.now }
{
    for argument in arguments {
        if !argument.is_hide_set() {
            return true;
        }
    }
    false
}

#[tactic(auto, unfolding(crate::specs::Page::commands_section))]
fn write_below<W: Sink>(sink: &mut W, children: &[Command]) -> Result<(), ErrorKind>
    ensures { Writes W.taken W.failed (as_write result) sink.old sink.new
        (commands_section (forest_of children.now)) }
{
    if !has_shown(children) {
        return Ok(());
    }
    write_titled_commands(sink, children)
}

#[tactic(auto, unfolding(crate::specs::Page::titled_commands))]
fn write_titled_commands<W: Sink>(sink: &mut W, children: &[Command]) -> Result<(), ErrorKind>
    ensures { Writes W.taken W.failed (as_write result) sink.old sink.new
        (titled_commands (forest_of children.now)) }
{
    put_request(sink, "SH COMMANDS\n")?;
    write_commands(sink, children)
}
