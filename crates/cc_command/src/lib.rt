//! A described command: a tree of nodes, with builders and getters, and the step that builds it.
//!
//! ```rattle
//! let name = String::from_str(alloc, "app")?;
//! let out = Arg::new(alloc, String::from_str(alloc, "out")?).short('o');
//! let mut command = Command::new(alloc, name).arg(out)?;
//! ```
//!
//! These lines describe the command `app` with an option `-o`. `command.build(alloc)` then adds the
//! flag `-h`, `--help`, and fills in what was left open.
#![tactic(auto)]

mod command;
mod node;
mod release;

pub use crate::command::{
    Arguments, Command, NameAndVisibleAliases, add_argument, add_arguments, add_child,
    add_children, build_as, contains_name, first_with_id, from_node, full_name, has_id, has_name,
    has_no_quote, is_quiet_value, lacks_index, list_values, node_of, reserve_arguments,
    reserve_children, unescaped_quote,
};
pub use crate::node::Node;
pub use crate::release::{Release, discard};
