//! The stack on which a walk keeps what remains to be visited.

ghost use Rattle.std.specs.Prelude.{◌≡◌, ◌++◌, reverse, is_ok, if◌then◌else◌};

use std::alloc::AllocError;

/// Moves `items` onto `stack` so that the first item is on top. If an allocation fails, the stack
/// stays as it was.
///
/// # Errors
///
/// `AllocError` if an allocation fails.
pub(crate) fn push_reversed<T: Drop>(
    stack: &mut Vec<T>,
    mut items: Vec<T>,
) -> Result<(), AllocError>
    ensures { stack.new.items
        ≡ (if is_ok result then stack.old.items ++ reverse items.items else stack.old.items) }
{
    items.reverse();
    stack.append(&mut items)
}
