//! Macros over the list of keys that an object of a tree file may have. The list has one line for
//! each key: its index in the list, the key, its group, and the field that it sets.

// Lists the keys.
macro_rules! all_keys {
    ([] $($index:literal $key:literal $group:ident $field:ident,)*) => {
        &[$($key),*]
    };
}

// Sets the field of each key of a group.
macro_rules! set_group {
    ([$asked:ident, $parts:ident, $faults:ident, $tree:ident, $slots:ident]
        $($index:literal $key:literal $group:ident $field:ident,)*) => {
        $(only_in!($asked $group set(&mut $parts.$field, $faults, $tree, $key, $slots, $index)?);)*
    };
}

// Expands to the action for a key only if the key is of the requested group.
macro_rules! only_in {
    (aliases aliases $done:expr) => { $done };
    (flags flags $done:expr) => { $done };
    (names names $done:expr) => { $done };
    (rules rules $done:expr) => { $done };
    (sources sources $done:expr) => { $done };
    (surroundings surroundings $done:expr) => { $done };
    (texts texts $done:expr) => { $done };
    (values values $done:expr) => { $done };
    ($asked:ident $group:ident $done:expr) => {};
}

pub(crate) use all_keys;
pub(crate) use only_in;
pub(crate) use set_group;
