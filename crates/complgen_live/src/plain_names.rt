//! Names of programs in which a shell evaluates nothing.

ghost use Rattle.std.specs.Prelude.{◌≡◌, ℕ, List, map, string_bytes};
ghost use Rattle.complgen_live.specs.Registrations.{ArePlain};

use std::marker::Model;

/// Plain names of programs: ASCII letters and digits, with single `-` or `_` between them. A shell
/// reads such a name unchanged.
#[derive(Drop)]
pub struct PlainNames {
    names: Vec<String>,
}

impl Model for PlainNames {
    ghost Value = { List (List ℕ) };

    ghost view = { λ plain. map string_bytes plain.names.items };

    ghost invariant = { λ plain. ArePlain (map string_bytes plain.names.items) };
}

impl PlainNames {
    // Wraps `names`, which must all be plain.
    pub(crate) fn new(names: Vec<String>) -> PlainNames
        requires { ArePlain (map string_bytes names.items) }
        ensures { result ≡ map string_bytes names.items }
    {
        PlainNames { names }
    }

    /// Returns the names, in their order.
    pub fn as_slice(&self) -> &[String]
        ensures names { map string_bytes result.now ≡ self.now }
        ensures plain { ArePlain self.now }
    {
        self.names.as_slice()
    }
}
