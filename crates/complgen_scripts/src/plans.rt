//! The tasks that the command line asks for.

/// A task that the command line asks for.
#[derive(Debug, Drop)]
pub enum Plan {
    /// Write a completion script: the name of the shell, the name by which users call the program,
    /// and the path of the tree file.
    Script(String, String, String),
    /// Write a registration: the name of the shell, the name by which users call the program, and
    /// the path of the tree file.
    Register(String, String, String),
    /// Write candidates: the index of the word, the path of the tree file, and the words.
    Candidates(usize, String, Vec<String>),
    /// Write candidates, with the lines of a file as the values that the word asks for.
    CandidatesWith {
        /// The path of the file with the values.
        values: String,
        /// The index of the word.
        index: usize,
        /// The path of the tree file.
        tree: String,
        /// The words.
        words: Vec<String>,
    },
    /// Write the words of the command that lists the values for a word: the index of the word, the
    /// path of the tree file, and the words.
    Wanted(usize, String, Vec<String>),
    /// Report what is wrong with a tree file.
    Check {
        /// The name by which users call the program, if it is not the one in the tree file.
        bin: Option<String>,
        /// True if the report is JSON, with one object on each line.
        json: bool,
        /// The path of the tree file.
        tree: String,
    },
    /// Write the man page of a program.
    Man {
        /// The name by which users call the program.
        bin: String,
        /// The path of the tree file.
        tree: String,
    },
    /// Write the scripts of all shells to files.
    Scripts {
        /// The name by which users call the program.
        bin: String,
        /// The directory of the files.
        out_dir: String,
        /// The path of the tree file.
        tree: String,
    },
}

impl Plan {
    ghost use Rattle.std.specs.Prelude.{◌≡◌};
    ghost use Rattle.std.specs.Option.{option_copied};
    ghost use Rattle.complgen_scripts.specs.Plans.{tree_of, values_of};

    /// Returns the path of the tree file.
    pub fn tree(&self) -> &str
        ensures { result.now ≡ tree_of self.now }
    {
        match self {
            Plan::Script(_, _, tree) => tree.as_str(),
            Plan::Register(_, _, tree) => tree.as_str(),
            Plan::Candidates(_, tree, _) => tree.as_str(),
            Plan::CandidatesWith { tree, .. } => tree.as_str(),
            Plan::Wanted(_, tree, _) => tree.as_str(),
            Plan::Check { tree, .. } => tree.as_str(),
            Plan::Man { tree, .. } => tree.as_str(),
            Plan::Scripts { tree, .. } => tree.as_str(),
        }
    }

    /// Returns the path of the file with values, if the plan reads one.
    pub fn values(&self) -> Option<&str>
        ensures { option_copied result ≡ values_of self.now }
    {
        match self {
            Plan::CandidatesWith { values, .. } => Some(values.as_str()),
            Plan::Script(..)
            | Plan::Register(..)
            | Plan::Candidates(..)
            | Plan::Wanted(..)
            | Plan::Check { .. }
            | Plan::Man { .. }
            | Plan::Scripts { .. } => None,
        }
    }
}
