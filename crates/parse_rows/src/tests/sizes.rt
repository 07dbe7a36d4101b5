//! How many bytes a node takes.

use snap_ast::{Form, TreeNode};
use std::mem::size_of;
use std::test::Fail;

#[test]
fn is_small(rt: HostRuntime) -> Result<(), Fail> {
    assert_eq!(rt; size_of::<Form>(), 64);
    assert_eq!(rt; size_of::<TreeNode>(), 72);
    Ok(())
}
