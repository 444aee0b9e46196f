//! A document with cases: Markdown with trees and command lines in fenced blocks.
//!
//! - A block that begins with ```` ```json NAME ```` is a tree file with that name. A block that
//!   begins with ```` ```text NAME ```` is another file.
//! - A block that begins with ```` ```console ```` contains cases: a line `$ COMMAND`, perhaps a
//!   line `? STATUS`, and then the expected output. A line `...` matches any lines, `[..]` matches
//!   any text, and a last line `(no-eol)` means that no line feed ends the line before it.
//! - A line that begins with `#` outside blocks is the title of the cases after it.
//!
//! Other blocks, lines of a block of cases before its first command, and a second file with the
//! same name are not read. They are kept as strays.

use std::alloc::{AllocError, Global};

/// The content of a document.
#[derive(Drop)]
pub(crate) struct Document {
    alloc: Global,
    title: String,
    part: Part,
    /// The lines that are not read at their places.
    pub strays: Vec<String>,
    /// The files, in order.
    pub files: Vec<File>,
    /// The cases, in order.
    pub cases: Vec<Case>,
}

/// A file, such as a tree file.
#[derive(Drop)]
pub(crate) struct File {
    /// Its name on command lines.
    pub name: String,
    /// Its content.
    pub text: String,
}

/// A command line and its expected output.
#[derive(Drop)]
pub(crate) struct Case {
    /// The title above it.
    pub title: String,
    /// The command line.
    pub command: String,
    /// The exit status.
    pub status: u8,
    /// The expected output, with a line feed before and after each line, split where any text may
    /// appear.
    pub wanted: Vec<String>,
}

// The part of a document that a line belongs to.
#[derive(Clone, Copy, PartialEq, Eq)]
enum Part {
    Prose,
    File,
    // A block of cases before its first command.
    Console,
    Case,
}

impl Document {
    /// Reads the document `text`.
    ///
    /// # Errors
    ///
    /// `AllocError` if an allocation fails.
    pub(crate) fn read(alloc: Global, text: &str) -> Result<Document, AllocError> {
        let mut document = Document {
            alloc,
            title: String::new(alloc),
            part: Part::Prose,
            strays: Vec::new(alloc),
            files: Vec::new(alloc),
            cases: Vec::new(alloc),
        };
        for line in text.split('\n') {
            document.push(line)?;
        }
        Ok(document)
    }

    /// Returns the bytes of the file with this name, if there is one.
    pub(crate) fn file(&self, name: &str) -> Option<&[u8]> {
        for file in &self.files {
            if file.name.as_str() == name {
                return Some(file.text.as_bytes());
            }
        }
        None
    }

    fn push(&mut self, line: &str) -> Result<(), AllocError> {
        match self.part {
            Part::Prose => self.push_prose(line),
            _ if line == "```" => {
                self.part = Part::Prose;
                Ok(())
            }
            Part::File => self.push_to_file(line),
            Part::Console | Part::Case => self.push_to_console(line),
        }
    }

    fn push_prose(&mut self, line: &str) -> Result<(), AllocError> {
        if let Some(name) = file_name(line) {
            self.part = Part::File;
            return self.push_file(name);
        }
        if line == "```console" {
            self.part = Part::Console;
            return Ok(());
        }
        if line.starts_with("```") {
            return self.push_stray(line);
        }
        if line.starts_with("#") {
            self.title = String::from_str(self.alloc, line)?;
        }
        Ok(())
    }

    fn push_stray(&mut self, line: &str) -> Result<(), AllocError> {
        let line = String::from_str(self.alloc, line)?;
        self.strays.push(line)?;
        Ok(())
    }

    fn push_file(&mut self, name: &str) -> Result<(), AllocError> {
        if self.file(name).is_some() {
            self.push_stray(name)?;
        }
        let name = String::from_str(self.alloc, name)?;
        let text = String::new(self.alloc);
        self.files.push(File { name, text })?;
        Ok(())
    }

    fn push_to_file(&mut self, line: &str) -> Result<(), AllocError> {
        if let Some(file) = self.files.last_mut() {
            file.text.push_str(line)?;
            file.text.push('\n')?;
        }
        Ok(())
    }

    fn push_to_console(&mut self, line: &str) -> Result<(), AllocError> {
        if let Some(command) = line.strip_prefix("$ ") {
            self.part = Part::Case;
            return self.push_case(command);
        }
        if self.part == Part::Console {
            return self.push_stray(line);
        }
        match self.cases.last_mut() {
            Some(case) => case.push(self.alloc, line),
            None => Ok(()),
        }
    }

    fn push_case(&mut self, command: &str) -> Result<(), AllocError> {
        let case = Case::new(self.alloc, self.title.as_str(), command)?;
        self.cases.push(case)?;
        Ok(())
    }
}

// Returns the name of the file that begins after this line, if one does.
fn file_name(line: &str) -> Option<&str> {
    match line.strip_prefix("```json ") {
        Some(name) => Some(name),
        None => line.strip_prefix("```text "),
    }
}

impl Case {
    // Creates a case that expects no output.
    fn new(alloc: Global, title: &str, command: &str) -> Result<Case, AllocError> {
        let mut wanted = Vec::new(alloc);
        wanted.push(String::new(alloc))?;
        Ok(Case {
            title: String::from_str(alloc, title)?,
            command: String::from_str(alloc, command)?,
            status: 0,
            wanted,
        })
    }

    // Adds a line after the command.
    fn push(&mut self, alloc: Global, line: &str) -> Result<(), AllocError> {
        if let Some(status) = line.strip_prefix("? ") {
            self.status = status.parse::<u8>().unwrap_or(u8::MAX);
            return Ok(());
        }
        if line == "..." {
            self.wanted.push(String::new(alloc))?;
            return Ok(());
        }
        self.push_text("\n")?;
        let mut parts = line.split("[..]");
        if let Some(first) = parts.next() {
            self.push_text(first)?;
        }
        for part in parts {
            self.wanted.push(String::from_str(alloc, part)?)?;
        }
        self.push_text("\n")
    }

    // Adds a text to the last piece of the expected output.
    fn push_text(&mut self, text: &str) -> Result<(), AllocError> {
        match self.wanted.last_mut() {
            Some(piece) => piece.push_str(text),
            None => Ok(()),
        }
    }
}
