//! The nodes of statements.

ghost use Rattle.std.specs.Prelude.{◌≡◌, IfOk};
ghost use Rattle.spec_grammar.specs.Nodes as spec;
ghost use Rattle.spec_grammar.specs.Phrase.{above, number, ◌▸◌};

use crate::phrase::Phrase;
use crate::row::{Optional, Row};
use snap_ast::{Binding, ConstBinding, Form, Items, Named};
use sqlite_items::Boxed;
use std::alloc::{AllocError, Global};

/// A `let`.
pub fn let_node(at: u32, row: Row<Binding>) -> Result<Phrase, AllocError>
    ensures { IfOk result (λ phrase. phrase ≡ spec.let_node at row) }
{
    let (bindings, below) = row.into_parts();
    below.above(at, Form::Let { bindings })
}

/// A `const`.
pub fn const_node(at: u32, row: Row<ConstBinding>) -> Result<Phrase, AllocError>
    ensures { IfOk result (λ phrase. phrase ≡ spec.const_node at row) }
{
    let (bindings, below) = row.into_parts();
    below.above(at, Form::Const { bindings })
}

/// A function as a statement.
pub fn function_node(
    alloc: Global,
    at: u32,
    name: Named,
    parameters: Items<Named>,
    row: Row<u32>,
) -> Result<Phrase, AllocError>
    ensures { IfOk result (λ phrase. phrase ≡ spec.function_node at name parameters row) }
{
    let (body, below) = row.into_parts();
    let form = Form::Function {
        name: Boxed::new(alloc, name)?,
        parameters,
        body,
    };
    below.above(at, form)
}

/// A block.
pub fn block_node(at: u32, row: Row<u32>) -> Result<Phrase, AllocError>
    ensures { IfOk result (λ phrase. phrase ≡ spec.block_node at row) }
{
    let (body, below) = row.into_parts();
    below.above(at, Form::Block { body })
}

/// An expression as a statement.
pub fn expression_node(value: Phrase) -> Result<Phrase, AllocError>
    ensures { IfOk result (λ phrase. phrase ≡ spec.expression_node value) }
{
    let at = value.at();
    value.under().above(at, Form::Expression { value: 0 })
}

/// An `if` without an `else`.
pub fn if_node(at: u32, test: Phrase, then: Phrase) -> Result<Phrase, AllocError>
    ensures { IfOk result (λ phrase. phrase ≡ spec.if_node at test then) }
{
    let (then, below) = test.under().next(then)?;
    below.above(at, Form::If { test: 0, then })
}

/// An `if` with an `else`.
pub fn if_else_node(
    at: u32,
    test: Phrase,
    then: Phrase,
    otherwise: Phrase,
) -> Result<Phrase, AllocError>
    ensures { IfOk result (λ phrase. phrase ≡ spec.if_else_node at test then otherwise) }
{
    let (then, below) = test.under().next(then)?;
    let (otherwise, below) = below.next(otherwise)?;
    let form = Form::IfElse {
        test: 0,
        then,
        otherwise,
    };
    below.above(at, form)
}

/// A `while`.
pub fn while_node(at: u32, test: Phrase, body: Phrase) -> Result<Phrase, AllocError>
    ensures { IfOk result (λ phrase. phrase ≡ spec.while_node at test body) }
{
    let (body, below) = test.under().next(body)?;
    below.above(at, Form::While { test: 0, body })
}

/// A `for` that declares nothing, whose last part stands behind the two before it.
pub fn for_node(
    at: u32,
    start: Option<u32>,
    test: Option<u32>,
    last: Optional,
    body: Phrase,
) -> Result<Phrase, AllocError>
    ensures { IfOk result (λ phrase. phrase ≡ above at (Form.For start test last.number (number last.below)) (last.below ▸ body)) }
{
    let (update, below) = last.into_parts();
    let (body, below) = below.next(body)?;
    let form = Form::For {
        start,
        test,
        update,
        body,
    };
    below.above(at, form)
}

/// A `for` with a `let`, whose last part stands behind those before it.
pub fn for_let_node(
    at: u32,
    bindings: Items<Binding>,
    test: Option<u32>,
    last: Optional,
    body: Phrase,
) -> Result<Phrase, AllocError>
    ensures { IfOk result (λ phrase. phrase ≡ above at (Form.ForLet bindings test last.number (number last.below)) (last.below ▸ body)) }
{
    let (update, below) = last.into_parts();
    let (body, below) = below.next(body)?;
    let form = Form::ForLet {
        bindings,
        test,
        update,
        body,
    };
    below.above(at, form)
}

/// A `for..of`.
pub fn for_of_node(
    at: u32,
    is_constant: bool,
    name: Named,
    values: Phrase,
    body: Phrase,
) -> Result<Phrase, AllocError>
    ensures { IfOk result (λ phrase. phrase ≡ spec.for_of_node at is_constant name values body) }
{
    let (body, below) = values.under().next(body)?;
    let form = Form::ForOf {
        is_constant,
        name,
        values: 0,
        body,
    };
    below.above(at, form)
}

/// A `return`.
pub fn return_node(at: u32, optional: Optional) -> Result<Phrase, AllocError>
    ensures { IfOk result (λ phrase. phrase ≡ spec.return_node at optional) }
{
    let (value, below) = optional.into_parts();
    below.above(at, Form::Return { value })
}

/// A `throw`.
pub fn throw_node(at: u32, value: Phrase) -> Result<Phrase, AllocError>
    ensures { IfOk result (λ phrase. phrase ≡ spec.throw_node at value) }
{
    value.under().above(at, Form::Throw { value: 0 })
}

/// A `try` with a `catch` without a name, whose number is given.
pub fn try_catch_node(at: u32, handler: u32, last: Optional) -> Result<Phrase, AllocError>
    ensures { IfOk result (λ phrase. phrase ≡ above at (Form.TryCatch 0 handler last.number) last.below) }
{
    let (finalizer, below) = last.into_parts();
    let form = Form::TryCatch {
        block: 0,
        handler,
        finalizer,
    };
    below.above(at, form)
}

/// A `try` with a `catch` of a name, whose number is given.
pub fn try_catch_name_node(
    at: u32,
    name: Named,
    handler: u32,
    last: Optional,
) -> Result<Phrase, AllocError>
    ensures { IfOk result (λ phrase. phrase ≡ above at (Form.TryCatchName 0 name handler last.number) last.below) }
{
    let (finalizer, below) = last.into_parts();
    let form = Form::TryCatchName {
        block: 0,
        name,
        handler,
        finalizer,
    };
    below.above(at, form)
}

/// A `try` with a `finally` alone.
pub fn try_finally_node(at: u32, block: Phrase, finalizer: Phrase) -> Result<Phrase, AllocError>
    ensures { IfOk result (λ phrase. phrase ≡ spec.try_finally_node at block finalizer) }
{
    let (finalizer, below) = block.under().next(finalizer)?;
    let form = Form::TryFinally {
        block: 0,
        finalizer,
    };
    below.above(at, form)
}
