//! The PowerShell script: a frame with a table for each visible path.

ghost use Rattle.std.specs.Prelude.{◌≡◌, ◌++◌};
ghost use Rattle.cc_base.specs.Writes.{Writes, as_write};
ghost use Rattle.cc_tables.specs.PowershellScript.{capital_space, kind_begin, kind_text};
ghost use Rattle.cc_tables.specs.PowershellScript.{list_begin, offer_row, powershell_frame};
ghost use Rattle.cc_tables.specs.PowershellScript.{result_kind, row_begin, text_begin};
ghost use Rattle.cc_tables.specs.Offers.{dashes, word};

use crate::offers::{Kind, Offer, Rows};
use crate::tables::{Frame, Named, write_tables};
use cc_base::{Error, Sink, TextRef, put_around, put_piece};
use cc_command::Command;
use cc_generator::Generator;
use cc_quote::{PowershellEscape, put_escaped};
use std::alloc::Global;
use std::io::ErrorKind;

// ---- fixed texts

// Returns the frame, and the texts around a key and around the rows of a table.
#[tactic(auto, unfolding(crate::specs::PowershellScript::powershell_frame, crate::specs::PowershellScript::powershell_named))]
fn frame() -> Frame<'static>
    ensures { result ≡ powershell_frame }
{
    let head = "
using namespace System.Management.Automation
using namespace System.Management.Automation.Language

Register-ArgumentCompleter -Native -CommandName '";
    let between = "' -ScriptBlock {
    param($wordToComplete, $commandAst, $cursorPosition)

    $commandElements = $commandAst.CommandElements
    $command = @(
        '";
    let completions = "'
        for ($i = 1; $i -lt $commandElements.Count; $i++) {
            $element = $commandElements[$i]
            if ($element -isnot [StringConstantExpressionAst] -or
                $element.StringConstantType -ne [StringConstantType]::BareWord -or
                $element.Value.StartsWith('-') -or
                $element.Value -eq $wordToComplete) {
                break
        }
        $element.Value
    }) -join ';'

    $completions = @(switch ($command) {";
    let tail = "
    })

    $completions.Where{ $_.CompletionText -like \"$wordToComplete*\" } |
        Sort-Object -Property ListItemText
}
";
    Frame {
        head: TextRef::new(head),
        named: Some(Named {
            between: TextRef::new(between),
            completions: TextRef::new(completions),
        }),
        key_begin: TextRef::new("\n        '"),
        key_end: TextRef::new("' {"),
        table_end: TextRef::new("\n            break\n        }"),
        separator: TextRef::new(";"),
        tail: TextRef::new(tail),
    }
}

// Returns the text before a name of the given kind, including its dashes.
#[tactic(auto, unfolding(crate::specs::PowershellScript::row_begin))]
fn row_begin(kind: Kind) -> &'static str
    ensures { result.now ≡ row_begin ++ dashes kind }
{
    match kind {
        Kind::Short => "\n            [CompletionResult]::new('-",
        Kind::Long => "\n            [CompletionResult]::new('--",
        Kind::Subcommand => "\n            [CompletionResult]::new('",
    }
}

// Returns the text between the two names of a row, including the dashes of the second.
#[tactic(auto, unfolding(crate::specs::PowershellScript::list_begin))]
fn list_begin(kind: Kind) -> &'static str
    ensures { result.now ≡ list_begin ++ dashes kind }
{
    match kind {
        Kind::Short => "', '-",
        Kind::Long => "', '--",
        Kind::Subcommand => "', '",
    }
}

// Returns the text between the second name and the description. Lists of PowerShell ignore case, so
// a space marks a capital.
#[tactic(auto, unfolding(crate::specs::PowershellScript::kind_begin, crate::specs::PowershellScript::kind_text, crate::specs::PowershellScript::text_begin))]
fn details_begin(kind: Kind, name: &str) -> &'static str
    ensures { result.now ≡ capital_space kind name.now ++ kind_begin ++ kind_text (result_kind kind)
        ++ text_begin }
{
    match (kind, name.as_bytes()) {
        (Kind::Short, [byte]) if byte.is_ascii_uppercase() => {
            " ', [CompletionResultType]::ParameterName, '"
        }
        (Kind::Subcommand, _) => "', [CompletionResultType]::ParameterValue, '",
        _ => "', [CompletionResultType]::ParameterName, '",
    }
}

/// The generator of PowerShell scripts. The script of a program `N` goes into the file `_N.ps1`.
#[derive(Clone, Copy, PartialEq, Eq, Debug)]
pub struct PowerShell;

impl Generator for PowerShell {
    ghost use Rattle.cc_tables.specs.PowershellReader.{powershell_spec};

    ghost spec = { λ _. powershell_spec };

    fn file_name(&self, alloc: Global, name: &str) -> Result<String, Error> {
        Ok(["_", name, ".ps1"].concat(alloc)?)
    }

    #[tactic(auto, using(crate::proofs::PowershellFreeScripts::powershell_plain_reads))]
    fn generate<W: Sink>(
        &self,
        alloc: Global,
        command: &Command,
        sink: &mut W,
    ) -> Result<(), Error> {
        write_tables(alloc, sink, command, &frame(), self)
    }
}

impl Rows for PowerShell {
    ghost use Rattle.cc_tables.specs.PowershellScript.{offer_text};

    ghost row_text = { λ _. offer_text };

    #[tactic(auto, using(cc_base::proofs::WrittenTexts::after_bytes), unfolding(crate::specs::PowershellScript::offer_text, crate::specs::PowershellScript::row_text, crate::specs::PowershellScript::words_text, crate::specs::PowershellScript::details_text, crate::specs::PowershellScript::row_end))]
    #[inline(always)]
    fn write_row<W: Sink>(&self, sink: &mut W, offer: &Offer<'_>) -> Result<(), ErrorKind> {
        write_words(sink, offer)?;
        put_escaped(sink, &PowershellEscape, shown_text(offer))?;
        put_piece(sink, "')")
    }
}

// Writes a row up to its description. The name is written twice, because lists show it too.
#[inline(always)]
fn write_words<W: Sink>(sink: &mut W, offer: &Offer<'_>) -> Result<(), ErrorKind>
    ensures { Writes W.taken W.failed (as_write result) sink.old sink.new
        (row_begin ++ word offer.now ++ list_begin ++ word offer.now
        ++ (capital_space offer.now.kind offer.now.name ++ kind_begin
        ++ kind_text (result_kind offer.now.kind) ++ text_begin)) }
{
    let name = offer.name.as_str();
    put_around(sink, row_begin(offer.kind), name, list_begin(offer.kind))?;
    put_piece(sink, name)?;
    put_piece(sink, details_begin(offer.kind, name))
}

// Returns the description of an offer, or the fallback if it is missing or empty.
fn shown_text<'a>(offer: &'a Offer<'_>) -> &'a str
    ensures { result.now ≡ (offer_row offer.now).text }
{
    match &offer.description {
        Some(description) if !description.as_str().is_empty() => description.as_str(),
        _ => offer.fallback.as_str(),
    }
}
