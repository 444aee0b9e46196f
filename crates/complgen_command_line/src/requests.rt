//! Distinguishes requests of shells from command lines.

ghost use Rattle.std.specs.Prelude.{◌≡◌, codes, false, map, string_bytes, true};
ghost use Rattle.clap.specs.Words.{takes};
ghost use Rattle.cc_replies.specs.Environment.{value_of};
ghost use Rattle.cc_replies.specs.Requests.{is_request};
ghost use Rattle.complgen_command_line.specs.CommandLine.{program_line};

use cc_replies::{EnvValues, is_request};

/// Returns whether `words` are a request of a shell, and not a command line for `plan`. `env` has
/// the environment variables. The command line accepts no request, so every command line that works
/// keeps its meaning if `COMPLETE` is set. The first word is the program's name.
pub fn is_shell_request(env: &EnvValues, words: &[String]) -> bool
    ensures value { result
        ≡ is_request (value_of (codes "COMPLETE") env.now) (map string_bytes words.now) }
    ensures untaken { result ≡ true
        → takes program_line (map string_bytes words.now) ≡ false }
{
    is_request(env, words)
}
