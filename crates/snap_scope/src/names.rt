//! The names that nodes declare, in order.

ghost use Rattle.std.specs.Prelude.{◌≡◌, ◌∷◌, [], ◌++◌, map, List, OnOk};
ghost use Rattle.snap_scope.specs.Names.{all_declared};
ghost use Rattle.spec_scopes.specs.Names.{binding_names, const_names, constant, declared, declares, form_at, let_names, variable};
ghost use Rattle.spec_scopes.specs.Scopes.{names_apart, own_names};
ghost use Rattle.snap_ast.specs.declared.tree.TreeNode.{TreeNode};

use snap_ast::{Binding, ConstBinding, Form, Named, TreeNode};
use snap_graph::ScopeKind;
use snap_text::NoMemory;

/// A name that is declared, and whether it is a constant.
#[derive(Clone, Copy)]
pub(crate) struct Name<'t> {
    /// The name, with its place.
    pub named: &'t Named,
    /// Whether it is declared by `const`.
    pub is_constant: bool,
}

fn put<'t>(named: &'t Named, is_constant: bool, out: &mut Vec<Name<'t>>) -> Result<(), NoMemory>
    ensures { OnOk result (all_declared out.new.items ≡ all_declared out.old.items ++ record { named = named.now; is_constant = is_constant } ∷ []) }
{
    out.push(Name { named, is_constant })?;
    Ok(())
}

fn put_variables<'t>(names: &'t [Named], out: &mut Vec<Name<'t>>) -> Result<(), NoMemory>
    ensures { OnOk result (all_declared out.new.items ≡ all_declared out.old.items ++ map variable names.now) }
{
    for named in names {
        put(named, false, out)?;
    }
    Ok(())
}

fn put_constants<'t>(names: &'t [Named], out: &mut Vec<Name<'t>>) -> Result<(), NoMemory>
    ensures { OnOk result (all_declared out.new.items ≡ all_declared out.old.items ++ map constant names.now) }
{
    for named in names {
        put(named, true, out)?;
    }
    Ok(())
}

fn put_lets<'t>(bindings: &'t [Binding], out: &mut Vec<Name<'t>>) -> Result<(), NoMemory>
    ensures { OnOk result (all_declared out.new.items ≡ all_declared out.old.items ++ let_names bindings.now) }
{
    for binding in bindings {
        put(&binding.name, false, out)?;
    }
    Ok(())
}

fn put_binding<'t>(binding: &'t ConstBinding, out: &mut Vec<Name<'t>>) -> Result<(), NoMemory>
    ensures { OnOk result (all_declared out.new.items ≡ all_declared out.old.items ++ map constant (binding_names binding.now)) }
{
    match binding {
        ConstBinding::One { name, .. } => put(name, true, out),
        ConstBinding::Pattern { names, .. } => put_constants(names.as_slice(), out),
    }
}

fn put_consts<'t>(bindings: &'t [ConstBinding], out: &mut Vec<Name<'t>>) -> Result<(), NoMemory>
    ensures { OnOk result (all_declared out.new.items ≡ all_declared out.old.items ++ const_names bindings.now) }
{
    for binding in bindings {
        put_binding(binding, out)?;
    }
    Ok(())
}

/// Adds the names that a statement declares in the scope round it.
pub(crate) fn put_declared<'t>(form: &'t Form, out: &mut Vec<Name<'t>>) -> Result<(), NoMemory>
    ensures { OnOk result (all_declared out.new.items ≡ all_declared out.old.items ++ declares form.now) }
{
    match form {
        Form::Let { bindings } => put_lets(bindings.as_slice(), out),
        Form::Const { bindings } => put_consts(bindings.as_slice(), out),
        Form::Function { name, .. } => put(name.get(), false, out),
        _ => Ok(()),
    }
}

fn put_declared_at<'t>(
    nodes: &'t [TreeNode],
    number: u32,
    out: &mut Vec<Name<'t>>,
) -> Result<(), NoMemory>
    ensures { OnOk result (all_declared out.new.items ≡ all_declared out.old.items ++ declares (form_at nodes.now number)) }
{
    match nodes.get(number as usize) {
        Some(node) => put_declared(&node.form, out),
        None => Ok(()),
    }
}

/// Adds the names that statements, by their numbers, declare in the scope round them.
pub(crate) fn put_body<'t>(
    nodes: &'t [TreeNode],
    body: &[u32],
    out: &mut Vec<Name<'t>>,
) -> Result<(), NoMemory>
    ensures { OnOk result (all_declared out.new.items ≡ all_declared out.old.items ++ declared nodes.now body.now) }
{
    for number in body {
        put_declared_at(nodes, *number, out)?;
    }
    Ok(())
}

fn put_function<'t>(
    nodes: &'t [TreeNode],
    parameters: &'t [Named],
    body: &[u32],
    out: &mut Vec<Name<'t>>,
) -> Result<(), NoMemory>
    ensures { OnOk result (all_declared out.new.items ≡ all_declared out.old.items ++ (map variable parameters.now ++ declared nodes.now body.now)) }
{
    put_variables(parameters, out)?;
    put_body(nodes, body, out)
}

/// Adds the names of the scope that a node makes.
pub(crate) fn put_own<'t>(
    nodes: &'t [TreeNode],
    form: &'t Form,
    out: &mut Vec<Name<'t>>,
) -> Result<(), NoMemory>
    ensures { OnOk result (all_declared out.new.items ≡ all_declared out.old.items ++ (own_names nodes.now form.now).names) }
{
    match form {
        Form::Function {
            parameters,
            body,
            ..
        } => put_function(nodes, parameters.as_slice(), body.as_slice(), out),
        Form::FunctionValue { parameters, body } => put_function(
            nodes,
            parameters.as_slice(),
            body.as_slice(),
            out,
        ),
        Form::ArrowBody { parameters, body } => put_function(
            nodes,
            parameters.as_slice(),
            body.as_slice(),
            out,
        ),
        Form::ArrowValue { parameters, .. } => put_variables(parameters.as_slice(), out),
        Form::Block { body } => put_body(nodes, body.as_slice(), out),
        Form::ForLet { bindings, .. } => put_lets(bindings.as_slice(), out),
        Form::ForOf {
            is_constant,
            name,
            ..
        } => put(name, *is_constant, out),
        Form::TryCatchName { name, .. } => put(name, false, out),
        _ => Ok(()),
    }
}

/// Which kind of scope a node makes, where it makes one.
pub(crate) fn kind_of(form: &Form) -> ScopeKind
    ensures { (nodes : List TreeNode) → result ≡ (own_names nodes form.now).kind }
{
    match form {
        Form::Function { .. } => ScopeKind::Function,
        Form::FunctionValue { .. } => ScopeKind::Function,
        Form::ArrowBody { .. } => ScopeKind::Function,
        Form::ArrowValue { .. } => ScopeKind::Function,
        Form::ForLet { .. } => ScopeKind::Loop,
        Form::ForOf { .. } => ScopeKind::Loop,
        Form::TryCatchName { .. } => ScopeKind::Catch,
        _ => ScopeKind::Block,
    }
}

fn put_own_at<'t>(
    nodes: &'t [TreeNode],
    number: u32,
    out: &mut Vec<Name<'t>>,
) -> Result<(), NoMemory>
    ensures { OnOk result (all_declared out.new.items ≡ all_declared out.old.items ++ (own_names nodes.now (form_at nodes.now number)).names) }
{
    match nodes.get(number as usize) {
        Some(node) => put_own(nodes, &node.form, out),
        None => Ok(()),
    }
}

/// Adds the names of which no two may be the same.
pub(crate) fn put_apart<'t>(
    nodes: &'t [TreeNode],
    form: &'t Form,
    out: &mut Vec<Name<'t>>,
) -> Result<(), NoMemory>
    ensures { OnOk result (all_declared out.new.items ≡ all_declared out.old.items ++ names_apart nodes.now form.now) }
{
    match form {
        Form::TryCatchName { name, handler, .. } => {
            put(name, false, out)?;
            put_own_at(nodes, *handler, out)
        }
        _ => put_own(nodes, form, out),
    }
}
