//! Scripts that are written to files.

ghost use Rattle.std.specs.Prelude.{◌≡◌, Some, IsTrue, IfOk, OnOk};
ghost use Rattle.std.specs.Path.{path_join};
ghost use Rattle.std.specs.String.{string_bytes};
ghost use Rattle.cc_base.specs.declared.error.Error.{Error};
ghost use Rattle.cc_command.specs.Built.{built_under};
ghost use Rattle.cc_command.specs.Plain.{is_plain_tree};
ghost use Rattle.cc_base.specs.PlainName.{is_plain_name};
ghost use Rattle.cc_shell.specs.Files.{EndsFile, LeavesTree};

use cc_base::{Counted, Error};
use cc_command::Command;
use cc_generator::{Generator, generate};
use std::alloc::{AllocError, Global};
use std::fs;
use std::io::{self, BufWriter, Write};
use std::path::Path;
use std::rt::Files;

/// Sets the bin name, builds `command` and writes the script of `generator` to a file in the
/// directory `out_dir`, as [`generate`] does. The generator names the file after the bin name.
/// Returns the path of the file.
///
/// The file is created, or truncated if it exists, when the first part of the script leaves the
/// buffer. So no file is created if two commands share a label, or if an allocation fails before
/// that.
///
/// The clause `script_reads` is only about the script's text, as `plain` of [`generate`] is. On
/// `Ok` no two commands share a label, and the script of a plain command reads back. No clause says
/// what the file contains, or with which kind the system fails.
///
/// # Errors
///
/// The errors of [`generate`], and `Write` with the system's kind if the file cannot be created or
/// written, for example because the directory does not exist. After a later failure, the file
/// contains what was written before.
pub fn generate_to<R: Files, G: Generator + Drop>(
    files: &R,
    alloc: Global,
    generator: G,
    command: &mut Command,
    bin_name: String,
    out_dir: &str,
) -> Result<String, Error>
    ensures path { IfOk result (λ path. string_bytes path
        ≡ path_join out_dir.now ((G.spec generator).file (string_bytes bin_name))) }
    ensures built { LeavesTree result command.old command.new
        (built_under (Some (string_bytes bin_name)) command.old) }
    ensures ends { EndsFile result
        ((G.spec generator).clash (built_under (Some (string_bytes bin_name)) command.old)) }
    ensures script_reads { OnOk result (IsTrue (is_plain_tree command.old) →
        IsTrue (is_plain_name (string_bytes bin_name)) →
        (G.spec generator).Reads (built_under (Some (string_bytes bin_name)) command.old)) }
{
    let name = generator.file_name(alloc, bin_name.as_str())?;
    let path = Path::new(out_dir).join(alloc, name.as_str())?.into_string();
    write_file(files, alloc, generator, command, bin_name, path.as_str())?;
    Ok(path)
}

fn write_file<R: Files, G: Generator + Drop>(
    files: &R,
    alloc: Global,
    generator: G,
    command: &mut Command,
    bin_name: String,
    path: &str,
) -> Result<(), Error>
    ensures built { LeavesTree result command.old command.new
        (built_under (Some (string_bytes bin_name)) command.old) }
    ensures ends { EndsFile result
        ((G.spec generator).clash (built_under (Some (string_bytes bin_name)) command.old)) }
    ensures script_reads { OnOk result (IsTrue (is_plain_tree command.old) →
        IsTrue (is_plain_name (string_bytes bin_name)) →
        (G.spec generator).Reads (built_under (Some (string_bytes bin_name)) command.old)) }
{
    let writer = BufWriter::new(alloc, LateFile::new(files, path)).map_err(|_| AllocError)?;
    let mut sink = Counted::new(writer);
    generate(alloc, generator, command, bin_name, &mut sink)?;
    sink.flush()
}

// A file that is created, or truncated if it exists, when it is first written or flushed.
#[derive(Drop)]
struct LateFile<'f, R: Files> {
    files: &'f R,
    path: &'f str,
    file: Option<R::File>,
}

impl<'f, R: Files> LateFile<'f, R> {
    fn new(files: &'f R, path: &'f str) -> LateFile<'f, R> {
        LateFile {
            files,
            path,
            file: None,
        }
    }

    fn make(&mut self) -> io::Result<()> {
        if self.file.is_none() {
            self.file = Some(fs::create(self.files, self.path)?);
        }
        Ok(())
    }
}

impl<'f, R: Files> Write for LateFile<'f, R> {
    fn write(&mut self, bytes: &[u8]) -> io::Result<usize> {
        self.make()?;
        match &mut self.file {
            Some(file) => file.write(bytes),
            None => Ok(0),
        }
    }

    fn flush(&mut self) -> io::Result<()> {
        self.make()?;
        match &mut self.file {
            Some(file) => file.flush(),
            None => Ok(()),
        }
    }
}
