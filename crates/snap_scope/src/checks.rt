//! Early errors of a single node.

ghost use Rattle.std.specs.Prelude.{◌≡◌, List, None, Some, OnOk, IfErr};
ghost use Rattle.spec_scopes.specs.EarlyErrors.{is_reference, is_stray, target_of};
ghost use Rattle.spec_scopes.specs.Round.{Step, in_function, in_loop};
ghost use Rattle.spec_scopes.specs.Told.{bad_reference, bad_target};

use crate::context::Context;
use snap_ast::{Form, TreeNode};
use spec_scopes::ScopeFault;

fn is_reference(form: &Form) -> bool
    ensures { result ≡ is_reference form.now }
{
    match form {
        Form::Member { .. } => true,
        Form::Index { .. } => true,
        _ => false,
    }
}

fn target_of(form: &Form) -> Option<u32>
    ensures { result ≡ target_of form.now }
{
    match form {
        Form::Assign { target, .. } => Some(*target),
        Form::Update { target, .. } => Some(*target),
        _ => None,
    }
}

// What is assigned or updated at a node is a member or an index.
fn check_reference(target: &TreeNode) -> Result<(), ScopeFault>
    ensures ok { OnOk result (bad_reference target.now ≡ None) }
    ensures err { IfErr result (λ fault. bad_reference target.now ≡ Some fault) }
{
    if is_reference(&target.form) {
        return Ok(());
    }
    Err(ScopeFault::BadTarget(target.at))
}

/// A node assigns and updates nothing but names, members and indices.
pub(crate) fn check_target(nodes: &[TreeNode], form: &Form) -> Result<(), ScopeFault>
    ensures ok { OnOk result (bad_target nodes.now form.now ≡ None) }
    ensures err { IfErr result (λ fault. bad_target nodes.now form.now ≡ Some fault) }
{
    match target_of(form) {
        Some(number) => match nodes.get(number as usize) {
            Some(target) => check_reference(target),
            None => Ok(()),
        },
        None => Ok(()),
    }
}

/// Whether a node is a jump that has nothing to leave.
pub(crate) fn is_stray(form: &Form, context: Context) -> bool
    ensures { (steps : List Step) → context.in_loop ≡ in_loop steps → context.in_function ≡ in_function steps → result ≡ is_stray form.now steps }
{
    match form {
        Form::Break => !context.in_loop,
        Form::Continue => !context.in_loop,
        Form::Return { .. } => !context.in_function,
        _ => false,
    }
}
