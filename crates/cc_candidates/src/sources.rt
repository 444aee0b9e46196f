//! The source of the candidates with one number.

/// A registered completer or list: a trait object or a closure.
#[derive(Drop)]
pub(crate) enum Source<B, C> {
    Boxed(B),
    Closure(C),
}
