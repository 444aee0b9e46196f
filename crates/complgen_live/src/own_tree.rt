//! The tree of this program's own command line.

/// The tree file of `complgen`, with the same text as `examples/complgen.json`. Its version only
/// shows that the flag `--version` exists.
pub const OWN_TREE: &str = r#"{
  "name": "complgen",
  "version": "complgen --version prints it",
  "about": "Writes shell completions for a program that a tree file describes",
  "disable_help_subcommand": true,
  "subcommands": [
    {
      "name": "script",
      "about": "Writes the completion script for one shell",
      "args": [
        {
          "id": "shell",
          "long": "shell",
          "value_names": ["SHELL"],
          "help": "The shell: bash, elvish, fish, nushell, powershell or zsh",
          "required": true,
          "possible_values": [
            {"name": "bash"},
            {"name": "elvish"},
            {"name": "fish"},
            {"name": "nushell"},
            {"name": "powershell"},
            {"name": "zsh"}
          ]
        },
        {
          "id": "bin",
          "long": "bin",
          "value_names": ["NAME"],
          "help": "The name by which users call the program",
          "required": true,
          "value_hint": "CommandName"
        },
        {
          "id": "tree",
          "value_names": ["TREE"],
          "help": "The tree file, a description of the program in JSON",
          "required": true,
          "value_hint": "FilePath"
        }
      ]
    },
    {
      "name": "scripts",
      "about": "Writes the completion scripts for all shells to files",
      "args": [
        {
          "id": "bin",
          "long": "bin",
          "value_names": ["NAME"],
          "help": "The name by which users call the program",
          "required": true,
          "value_hint": "CommandName"
        },
        {
          "id": "out-dir",
          "long": "out-dir",
          "value_names": ["DIR"],
          "help": "The directory for the scripts, which must exist",
          "required": true,
          "value_hint": "DirPath"
        },
        {
          "id": "tree",
          "value_names": ["TREE"],
          "help": "The tree file, a description of the program in JSON",
          "required": true,
          "value_hint": "FilePath"
        }
      ]
    },
    {
      "name": "register",
      "about": "Writes a registration, which makes the shell ask the program itself for candidates",
      "args": [
        {
          "id": "shell",
          "long": "shell",
          "value_names": ["SHELL"],
          "help": "The shell: bash, elvish, fish, powershell or zsh",
          "required": true,
          "possible_values": [
            {"name": "bash"},
            {"name": "elvish"},
            {"name": "fish"},
            {"name": "powershell"},
            {"name": "zsh"}
          ]
        },
        {
          "id": "bin",
          "long": "bin",
          "value_names": ["NAME"],
          "help": "The name by which users call the program",
          "required": true,
          "value_hint": "CommandName"
        },
        {
          "id": "tree",
          "value_names": ["TREE"],
          "help": "The tree file, a description of the program in JSON",
          "required": true,
          "value_hint": "FilePath"
        }
      ]
    },
    {
      "name": "candidates",
      "about": "Writes the candidates for one word of a command line",
      "args": [
        {
          "id": "index",
          "long": "index",
          "value_names": ["INDEX"],
          "help": "The index of the word to complete, where 0 is the program's name",
          "required": true
        },
        {
          "id": "values",
          "long": "values",
          "value_names": ["FILE"],
          "help": "The file with the values that the word asks for, one on each line",
          "value_hint": "FilePath"
        },
        {
          "id": "tree",
          "value_names": ["TREE"],
          "help": "The tree file, a description of the program in JSON",
          "required": true,
          "value_hint": "FilePath"
        },
        {
          "id": "words",
          "value_names": ["WORDS"],
          "help": "The command line, starting with the program's name; after --, words may begin with -",
          "num_args": [0, null]
        }
      ]
    },
    {
      "name": "wanted",
      "about": "Writes the words of the command that lists the values for one word, as JSON",
      "args": [
        {
          "id": "index",
          "long": "index",
          "value_names": ["INDEX"],
          "help": "The index of the word to complete, where 0 is the program's name",
          "required": true
        },
        {
          "id": "tree",
          "value_names": ["TREE"],
          "help": "The tree file, a description of the program in JSON",
          "required": true,
          "value_hint": "FilePath"
        },
        {
          "id": "words",
          "value_names": ["WORDS"],
          "help": "The command line, starting with the program's name; after --, words may begin with -",
          "num_args": [0, null]
        }
      ]
    },
    {
      "name": "check",
      "about": "Reports what is wrong with a tree file, and where",
      "args": [
        {
          "id": "bin",
          "long": "bin",
          "value_names": ["NAME"],
          "help": "The name by which users call the program, if the tree file has another",
          "value_hint": "CommandName"
        },
        {
          "id": "json",
          "long": "json",
          "action": "SetTrue",
          "help": "Prints JSON for editors and scripts, with one object on each line"
        },
        {
          "id": "tree",
          "value_names": ["TREE"],
          "help": "The tree file, a description of the program in JSON",
          "required": true,
          "value_hint": "FilePath"
        }
      ]
    },
    {
      "name": "man",
      "about": "Writes the man page of a program",
      "args": [
        {
          "id": "bin",
          "long": "bin",
          "value_names": ["NAME"],
          "help": "The name by which users call the program",
          "required": true,
          "value_hint": "CommandName"
        },
        {
          "id": "tree",
          "value_names": ["TREE"],
          "help": "The tree file, a description of the program in JSON",
          "required": true,
          "value_hint": "FilePath"
        }
      ]
    }
  ]
}
"#;
