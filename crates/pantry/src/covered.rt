//! Tests that the clauses of the library cover the tree.

use crate::pantry;
use clap_complete::parser::{fits_parser, has_globals, is_parsed_exactly};

#[test]
fn the_tree_is_covered(rt: HostRuntime) {
    let mut tree = pantry(rt.alloc()).expect(&rt, "no tree");
    tree.build(rt.alloc()).expect(&rt, "no memory");
    assert!(rt; !has_globals(&tree));
    assert!(rt; fits_parser(&tree));
    assert!(rt; is_parsed_exactly(&tree));
}
