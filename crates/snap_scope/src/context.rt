//! What is known of a node by the nodes round it, and of a node that was visited.

ghost use Rattle.std.specs.Prelude.{◌≡◌};
ghost use Rattle.snap_scope.specs.Visit.{chain_of_child, child_context};
ghost use Rattle.spec_scopes.specs.Round.{holds, is_function, is_loop};

use snap_ast::Form;

/// What a node has from the nodes round it.
#[derive(Clone, Copy, Debug)]
pub(crate) struct Context {
    /// The number of its chain of scopes.
    pub chain: u32,
    /// Whether it stands in a loop of its function.
    pub in_loop: bool,
    /// Whether it stands in a function.
    pub in_function: bool,
}

/// The scopes of a node and the places of its names, by their numbers.
#[derive(Clone, Copy, Debug)]
pub(crate) struct NodeEntry {
    /// The chain round it.
    pub chain: u32,
    /// The scope that it makes.
    pub own: Option<u32>,
    /// Where the places of the names that it mentions begin.
    pub first: u32,
    /// How many they are.
    pub count: u32,
}

/// Whether a node is a function.
pub(crate) fn is_function(form: &Form) -> bool
    ensures { result ≡ is_function form.now }
{
    match form {
        Form::Function { .. } => true,
        Form::FunctionValue { .. } => true,
        Form::ArrowValue { .. } => true,
        Form::ArrowBody { .. } => true,
        _ => false,
    }
}

/// Whether a node is a loop.
pub(crate) fn is_loop(form: &Form) -> bool
    ensures { result ≡ is_loop form.now }
{
    match form {
        Form::While { .. } => true,
        Form::For { .. } => true,
        Form::ForLet { .. } => true,
        Form::ForOf { .. } => true,
        _ => false,
    }
}

fn holds(form: &Form, child: u32) -> bool
    ensures { result ≡ holds form.now child }
{
    match form {
        Form::TryCatchName { handler, .. } => child == *handler,
        _ => true,
    }
}

fn child_chain(form: &Form, chain: u32, own: Option<u32>, child: u32) -> u32
    ensures { result ≡ chain_of_child form.now chain own child }
{
    match own {
        Some(own) => { if holds(form, child) { own } else { chain } }
        None => chain,
    }
}

/// What a child of a node has from it.
pub(crate) fn child_context(form: &Form, context: Context, own: Option<u32>, child: u32) -> Context
    ensures { result ≡ child_context form.now context own child }
{
    Context {
        chain: child_chain(form, context.chain, own, child),
        in_loop: is_loop(form) || (!is_function(form) && context.in_loop),
        in_function: is_function(form) || context.in_function,
    }
}
