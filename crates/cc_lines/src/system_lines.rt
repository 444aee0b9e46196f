//! Reads the lines that are the values of an argument: from the standard input, which has what a
//! command printed, from a file, or from what the system knows.

ghost use Rattle.std.specs.Prelude.{◌≡◌, IfOk, [], false};
ghost use Rattle.cc_arg.specs.ValueSources.{is_listed};

use crate::hosts::{push_config, push_known, push_table};
use crate::names::push_program;
use crate::passwd::users;
use crate::value_files::{first_lines, values_path};
use cc_arg::{Arg, ValueHint};
use cc_candidates::{Folder, FolderError, join};
use cc_env::LineSource;
use cc_replies::EnvValues;
use std::alloc::{AllocError, Global};
use std::convert::AsStr;
use std::fs::File;
use std::io::{self, Input, Read};
use std::rt::Files;

// The most bytes of a source that count: 16 MiB. A source that never ends is cut there.
const LIMIT: usize = 16 * 1024 * 1024;

/// The lines that the system gives: the standard input, which has what a command printed; a file,
/// below the home directory or the current one if its path is not absolute; or the names that the
/// system has for a hint. Of each source, the lines in the first 16 MiB count. What cannot be read
/// has no lines.
#[derive(Drop)]
pub struct SystemLines<'r, R, D> {
    /// The handles of the program.
    pub rt: &'r R,
    /// The environment variables, with `PATH` if it is set.
    pub env: &'r EnvValues,
    /// The directory where relative paths begin, if it is known.
    pub current_dir: Option<&'r str>,
    /// The files and directories, and the home directory.
    pub folder: &'r D,
}

impl<R: Files + Input, D: Folder> LineSource for SystemLines<'_, R, D> {
    ghost use Rattle.cc_lines.specs.SystemLines.{SystemGives};

    ghost gives = { λ _. SystemGives };

    fn lines(&self, alloc: Global, asked: &Arg) -> Result<Vec<u8>, AllocError> {
        if asked.get_values_from().is_some() {
            return bounded(alloc, self.rt.reader());
        }
        match asked.get_values_file() {
            Some(path) => self.lines_of_file(alloc, path),
            None => self.lines_of_hint(alloc, asked.get_value_hint()),
        }
    }
}

impl<R: Files + Input, D: Folder> SystemLines<'_, R, D> {
    // Returns the lines of the file that a tree names.
    fn lines_of_file(&self, alloc: Global, path: &str) -> Result<Vec<u8>, AllocError> {
        match values_path(alloc, self.folder.home(), self.current_dir, path)? {
            Some(path) => self.contents(alloc, path.as_str()),
            None => Ok(Vec::new(alloc)),
        }
    }

    // Returns the lines that the system has for a hint.
    fn lines_of_hint(&self, alloc: Global, hint: ValueHint) -> Result<Vec<u8>, AllocError>
        ensures { IfOk result (λ lines. is_listed hint ≡ false → lines.items ≡ []) }
    {
        match hint {
            ValueHint::Username => {
                let passwd = self.contents(alloc, "/etc/passwd")?;
                users(alloc, passwd.as_slice())
            }
            ValueHint::Hostname => self.hosts(alloc),
            ValueHint::CommandName => self.commands(alloc),
            _ => Ok(Vec::new(alloc)),
        }
    }

    // Returns the names of the hosts in the table of the system, those that ssh knows, and those in
    // its configuration.
    fn hosts(&self, alloc: Global) -> Result<Vec<u8>, AllocError> {
        let mut lines = Vec::new(alloc);
        push_table(&mut lines, self.contents(alloc, "/etc/hosts")?.as_slice())?;
        push_known(
            &mut lines,
            self.lines_of_file(alloc, "~/.ssh/known_hosts")?.as_slice(),
        )?;
        push_config(
            &mut lines,
            self.lines_of_file(alloc, "~/.ssh/config")?.as_slice(),
        )?;
        Ok(lines)
    }

    // Returns the names of the executable files in the directories of `PATH`, in their order.
    //
    // Shells take an empty part for the current directory. It is left out, and so are relative
    // paths: the current directory may belong to someone else, and the names in it are not to be
    // offered.
    fn commands(&self, alloc: Global) -> Result<Vec<u8>, AllocError> {
        let mut lines = Vec::new(alloc);
        for folder in self.env.get("PATH").unwrap_or("").split(':') {
            if folder.starts_with('/') {
                self.push_programs(alloc, folder, &mut lines)?;
            }
        }
        Ok(lines)
    }

    // Adds the names of the executable files in a directory.
    fn push_programs(
        &self,
        alloc: Global,
        folder: &str,
        lines: &mut Vec<u8>,
    ) -> Result<(), AllocError> {
        let names = self.names(alloc, folder)?;
        for name in names.as_slice() {
            let path = join(alloc, folder, name.as_str())?;
            if self.folder.is_executable(path.as_str()) {
                push_program(lines, name.as_str())?;
            }
        }
        Ok(())
    }

    // Returns the names in a directory; none if it cannot be read.
    fn names(&self, alloc: Global, folder: &str) -> Result<Vec<String>, AllocError> {
        match self.folder.names(alloc, folder) {
            Ok(names) => Ok(names),
            Err(FolderError::Unreadable) => Ok(Vec::new(alloc)),
            Err(FolderError::Memory) => Err(AllocError),
        }
    }

    // Returns the lines of the file at `path`; none if it is no regular file, so that a device or a
    // pipe does not hold up the shell, or if it cannot be read.
    fn contents(&self, alloc: Global, path: &str) -> Result<Vec<u8>, AllocError> {
        if !self.folder.is_file(path) {
            return Ok(Vec::new(alloc));
        }
        match File::open(self.rt, path) {
            Ok(file) => bounded(alloc, file),
            Err(error) if error.kind() == io::ErrorKind::OutOfMemory => Err(AllocError),
            Err(_) => Ok(Vec::new(alloc)),
        }
    }
}

// Returns the lines of a source, up to the limit. After an error, what was read before it counts.
fn bounded<S: Read + Drop>(alloc: Global, source: S) -> Result<Vec<u8>, AllocError> {
    let mut bytes = Vec::new(alloc);
    let mut source = source.take(LIMIT as u64 + 1);
    if let Err(error) = source.read_to_end(&mut bytes) {
        if error.kind() == io::ErrorKind::OutOfMemory {
            return Err(AllocError);
        }
    }
    let count = first_lines(bytes.as_slice(), LIMIT).len();
    bytes.truncate(count);
    Ok(bytes)
}
