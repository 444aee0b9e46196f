//! The derived `==` of the library's small types is equality by value, and equal values have equal
//! hashes.

ghost use Rattle.std.specs.Prelude.{◌≡◌, ◌==◌, Decides, IsTrue};
ghost use Rattle.cc_caller.specs.Hashes.{standard_hash};

use clap_complete::aot::InvalidShell;
use clap_complete::command::{ArgAction, ValueHint, ValueRange};
use clap_complete::env::{Builtin, SafeShell};
use clap_complete::{Shell, aot, env};
use std::hash::{DefaultHasher, Hash, Hasher};

/// One generator of each kind.
pub type Generators = (
    (aot::Bash, aot::Elvish, aot::Fish),
    (aot::Nushell, aot::PowerShell, aot::Zsh),
);

/// One adapter of each kind.
pub type Adapters = (
    (env::Bash, env::Elvish, env::Fish),
    (env::Powershell, env::Zsh),
);

/// Returns whether both are the same shell.
pub fn same_shell(shell: Shell, other: Shell) -> bool
    ensures { Decides result (shell ≡ other) }
{
    shell == other
}

/// Returns whether both are the same hint.
pub fn same_hint(hint: ValueHint, other: ValueHint) -> bool
    ensures { Decides result (hint ≡ other) }
{
    hint == other
}

/// Returns whether both are the same action.
pub fn same_action(action: ArgAction, other: ArgAction) -> bool
    ensures { Decides result (action ≡ other) }
{
    action == other
}

/// Returns whether both ranges have the same bounds.
pub fn same_range(range: ValueRange, other: ValueRange) -> bool
    ensures { Decides result (range ≡ other) }
{
    range == other
}

/// Returns whether both are the same adapter.
pub fn same_builtin(adapter: Builtin, other: Builtin) -> bool
    ensures { Decides result (adapter ≡ other) }
{
    adapter == other
}

/// Returns whether both are the same safe adapter.
pub fn same_safe_shell(safe: SafeShell, other: SafeShell) -> bool
    ensures { Decides result (safe ≡ other) }
{
    safe == other
}

/// Returns whether both are the same refusal, which is always so.
pub fn same_refusal(refusal: InvalidShell, other: InvalidShell) -> bool
    ensures { Decides result (refusal ≡ other) }
{
    refusal == other
}

/// Returns whether each generator is the same as the other of its kind, which is always so.
pub fn same_generators(generators: Generators, others: Generators) -> bool
    ensures { Decides result (generators ≡ others) }
{
    generators == others
}

/// Returns whether each adapter is the same as the other of its kind, which is always so.
pub fn same_adapters(adapters: Adapters, others: Adapters) -> bool
    ensures { Decides result (adapters ≡ others) }
{
    adapters == others
}

/// Returns whether both values have the same hash by the standard hasher. Equal values have.
pub fn same_hash<T: Hash>(value: &T, other: &T) -> bool
    ensures hashes { result
        ≡ (standard_hash (T.hash_input value.now) == standard_hash (T.hash_input other.now)) }
    ensures equal { IsTrue (T.eq value.now other.now) → IsTrue result }
{
    hash_of(value) == hash_of(other)
}

// Returns the hash by the standard hasher.
fn hash_of<T: Hash>(value: &T) -> u64
    ensures { result ≡ standard_hash (T.hash_input value.now) }
{
    let mut state = DefaultHasher::new();
    value.hash(&mut state);
    state.finish()
}
