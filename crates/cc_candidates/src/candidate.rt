//! The candidate type and its order.

ghost use Rattle.std.specs.Prelude.{◌≡◌, ◌++◌, Decides, None, Some, false, IfOk, IfErr, refl};
ghost use Rattle.std.specs.Cmp.{partial_order_from_total, partial_equiv_from_equiv, eq_by_cmp_equiv};
ghost use Rattle.std.specs.Option.{option_copied, option_map};
ghost use Rattle.std.specs.Ordering.{as_partial_cmp, eq_by_cmp};
ghost use Rattle.std.specs.String.{string_bytes};
ghost use Rattle.cc_candidates.specs.Candidate.{besides_cmp, candidate_cmp, candidate_cmp_total, new_candidate, texts_cmp};

use cc_base::{Error, Text};
use std::alloc::{AllocError, Global};
use std::cmp::Ordering;

/// A value that a shell may insert for the word to complete, with what the shell shows or sorts by.
#[derive(Drop, Debug)]
pub struct CompletionCandidate {
    value: Text,
    help: Option<Text>,
    id: Option<Text>,
    tag: Option<Text>,
    display_order: Option<usize>,
    hidden: bool,
}

impl From<String> for CompletionCandidate {
    ghost from_gives = { λ value candidate. candidate ≡ new_candidate (string_bytes value) };

    fn from(value: String) -> CompletionCandidate {
        CompletionCandidate::new(value)
    }
}

impl CompletionCandidate {
    /// Creates a visible candidate with `value`, without help text, id, tag and display order.
    pub fn new(value: String) -> CompletionCandidate
        ensures { result ≡ new_candidate (string_bytes value) }
    {
        CompletionCandidate {
            value: Text::from(value),
            help: None,
            id: None,
            tag: None,
            display_order: None,
            hidden: false,
        }
    }

    /// Sets the help text, or removes it with `None`.
    pub fn help(mut self, help: Option<String>) -> CompletionCandidate
        ensures { result ≡ record self { help = option_map string_bytes help } }
    {
        self.help = text_of(help);
        self
    }

    /// Sets the id, or removes it with `None`. If several candidates have the same id, the first is
    /// offered.
    pub fn id(mut self, id: Option<String>) -> CompletionCandidate
        ensures { result ≡ record self { id = option_map string_bytes id } }
    {
        self.id = text_of(id);
        self
    }

    /// Sets the tag, or removes it with `None`. Candidates with the same tag are offered together.
    pub fn tag(mut self, tag: Option<String>) -> CompletionCandidate
        ensures { result ≡ record self { tag = option_map string_bytes tag } }
    {
        self.tag = text_of(tag);
        self
    }

    /// Sets the display order among the candidates with the same tag. Candidates without one come
    /// first.
    pub fn display_order(mut self, order: Option<usize>) -> CompletionCandidate
        ensures { result ≡ record self { display_order = order } }
    {
        self.display_order = order;
        self
    }

    /// Sets whether the candidate is hidden. Hidden candidates are offered only if no visible one
    /// is.
    pub fn hide(mut self, hidden: bool) -> CompletionCandidate
        ensures { result ≡ record self { hidden = hidden } }
    {
        self.hidden = hidden;
        self
    }

    /// Puts `prefix` before the value.
    ///
    /// # Errors
    ///
    /// `Memory` if an allocation fails. The candidate is then dropped.
    pub fn add_prefix(self, alloc: Global, prefix: &str) -> Result<CompletionCandidate, Error>
        ensures ok { IfOk result (λ candidate.
            candidate ≡ record self { value = prefix.now ++ self.value }) }
        ensures memory { IfErr result (λ error. error ≡ Error.Memory) }
    {
        Ok(self.with_prefix(alloc, prefix)?)
    }

    /// Puts `prefix` before the value, for callers that return `AllocError` themselves.
    ///
    /// # Errors
    ///
    /// `AllocError` if an allocation fails. The candidate is then dropped.
    pub fn with_prefix(
        mut self,
        alloc: Global,
        prefix: &str,
    ) -> Result<CompletionCandidate, AllocError>
        ensures { IfOk result (λ candidate.
            candidate ≡ record self { value = prefix.now ++ self.value }) }
    {
        match concat(alloc, prefix, self.value.as_str()) {
            Ok(value) => {
                self.value = value;
                Ok(self)
            }
            Err(error) => {
                // One call here, instead of a drop of each field.
                drop(self);
                Err(error)
            }
        }
    }

    /// Returns the value.
    pub fn get_value(&self) -> &str
        ensures { result.now ≡ self.now.value }
    {
        self.value.as_str()
    }

    /// Returns the help text, if there is one.
    pub fn get_help(&self) -> Option<&str>
        ensures { option_copied result ≡ self.now.help }
    {
        self.help.as_ref().map(|help| help.as_str())
    }

    /// Returns the id, if there is one.
    pub fn get_id(&self) -> Option<&str>
        ensures { option_copied result ≡ self.now.id }
    {
        self.id.as_ref().map(|id| id.as_str())
    }

    /// Returns the tag, if there is one.
    pub fn get_tag(&self) -> Option<&str>
        ensures { option_copied result ≡ self.now.tag }
    {
        self.tag.as_ref().map(|tag| tag.as_str())
    }

    /// Returns the display order, if there is one.
    pub fn get_display_order(&self) -> Option<usize>
        ensures { result ≡ self.now.display_order }
    {
        self.display_order
    }

    /// Returns whether the candidate is hidden.
    pub fn is_hide_set(&self) -> bool
        ensures { result ≡ self.now.hidden }
    {
        self.hidden
    }
}

// Compares two optional texts by their bytes. `None` comes first.
fn cmp_texts(one: Option<&str>, other: Option<&str>) -> Ordering
    ensures { result ≡ texts_cmp (option_copied one.entry) (option_copied other.entry) }
{
    match (one, other) {
        (None, None) => Ordering::Equal,
        (None, Some(_)) => Ordering::Less,
        (Some(_), None) => Ordering::Greater,
        (Some(one), Some(other)) => one.cmp(other),
    }
}

fn concat(alloc: Global, one: &str, other: &str) -> Result<Text, AllocError>
    ensures { IfOk result (λ text. text ≡ one.now ++ other.now) }
{
    let mut text = String::from_str(alloc, one)?;
    text.push_str(other)?;
    Ok(Text::from(text))
}

fn text_of(text: Option<String>) -> Option<Text>
    ensures { result ≡ option_map string_bytes text }
{
    text.map(|text| Text::from(text))
}

impl PartialEq for CompletionCandidate {
    ghost eq = { eq_by_cmp candidate_cmp };

    ghost laws = { partial_equiv_from_equiv (eq_by_cmp_equiv candidate_cmp_total) };

    fn eq(&self, other: &CompletionCandidate) -> bool {
        self.cmp(other).is_eq()
    }
}

impl Eq for CompletionCandidate {
    ghost laws = { eq_by_cmp_equiv candidate_cmp_total };
}

impl PartialOrd for CompletionCandidate {
    ghost partial_cmp = { as_partial_cmp candidate_cmp };

    ghost laws = { partial_order_from_total candidate_cmp_total };

    fn partial_cmp(&self, other: &CompletionCandidate) -> Option<Ordering> {
        Some(self.cmp(other))
    }
}

impl Ord for CompletionCandidate {
    ghost cmp = { candidate_cmp };

    ghost total = { candidate_cmp_total };

    ghost matches_partial_cmp = { λ a b. refl };

    ghost matches_eq = { λ a b. refl };

    fn cmp(&self, other: &CompletionCandidate) -> Ordering {
        match self.get_value().cmp(other.get_value()) {
            Ordering::Equal => self.cmp_besides(other),
            order => order,
        }
    }
}

impl CompletionCandidate {
    // Compares everything except the values. Few candidates share a value, so this is rarely
    // reached.
    fn cmp_besides(&self, other: &CompletionCandidate) -> Ordering
        ensures { result ≡ besides_cmp self.now other.now }
    {
        cmp_texts(self.get_help(), other.get_help())
            .then(cmp_texts(self.get_id(), other.get_id()))
            .then(cmp_texts(self.get_tag(), other.get_tag()))
            .then(self.display_order.cmp(&other.display_order))
            .then(self.hidden.cmp(&other.hidden))
    }
}

/// Returns whether two candidates are equal in every field.
pub fn is_same(one: &CompletionCandidate, other: &CompletionCandidate) -> bool
    ensures { Decides result (one.now ≡ other.now) }
{
    one == other
}
