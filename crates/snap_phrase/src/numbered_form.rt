//! The numbers of a table in each form.

ghost use Rattle.std.specs.Prelude.{◌≡◌, ◌+◌, false, IfOk};
ghost use Rattle.snap_phrase.specs.Statements.{is_compound};
ghost use Rattle.spec_grammar.specs.Numbered as spec;

use crate::numbered::{child, const_bindings, let_bindings, numbers, object_properties, optional};
use snap_ast::{Binding, Form, Items};
use std::alloc::{AllocError, Global};

/// Two children.
fn two(behind: u32, first: u32, second: u32) -> Result<(u32, u32), AllocError>
    ensures { IfOk result (λ sums. sums ≡ (behind + first, behind + second)) }
{
    Ok((child(behind, first)?, child(behind, second)?))
}

/// Three children.
fn three(behind: u32, first: u32, second: u32, third: u32) -> Result<(u32, u32, u32), AllocError>
    ensures { IfOk result (λ sums. sums ≡ (behind + first, behind + second, behind + third)) }
{
    let first = child(behind, first)?;
    let second = child(behind, second)?;
    let third = child(behind, third)?;
    Ok((first, second, third))
}

/// The parts of a `try` with a `catch`.
fn caught(
    behind: u32,
    block: u32,
    handler: u32,
    finalizer: Option<u32>,
) -> Result<(u32, u32, Option<u32>), AllocError>
    ensures { IfOk result (λ sums. sums ≡ (behind + block, behind + handler, spec.optional behind finalizer)) }
{
    let (block, handler) = two(behind, block, handler)?;
    Ok((block, handler, optional(behind, finalizer)?))
}

/// What is called, and the arguments.
fn called(
    alloc: Global,
    behind: u32,
    callee: u32,
    arguments: Items<u32>,
) -> Result<(u32, Items<u32>), AllocError>
    ensures { IfOk result (λ sums. sums ≡ (behind + callee, spec.numbers behind arguments)) }
{
    Ok((child(behind, callee)?, numbers(alloc, behind, arguments)?))
}

/// A `for` that declares nothing.
fn for_form(
    behind: u32,
    start: Option<u32>,
    test: Option<u32>,
    update: Option<u32>,
    body: u32,
) -> Result<Form, AllocError>
    ensures { IfOk result (λ numbered. numbered ≡ spec.form behind (Form.For start test update body)) }
{
    Ok(Form::For {
        start: optional(behind, start)?,
        test: optional(behind, test)?,
        update: optional(behind, update)?,
        body: child(behind, body)?,
    })
}

/// A `for` with a `let`.
fn for_let_form(
    alloc: Global,
    behind: u32,
    bindings: Items<Binding>,
    test: Option<u32>,
    update: Option<u32>,
    body: u32,
) -> Result<Form, AllocError>
    ensures { IfOk result (λ numbered. numbered ≡ spec.form behind (Form.ForLet bindings test update body)) }
{
    Ok(Form::ForLet {
        bindings: let_bindings(alloc, behind, bindings)?,
        test: optional(behind, test)?,
        update: optional(behind, update)?,
        body: child(behind, body)?,
    })
}

/// A form that is no statement with nodes below it, with the numbers of the table.
fn numbered_expression(alloc: Global, behind: u32, form: Form) -> Result<Form, AllocError>
    requires { is_compound form ≡ false }
    ensures { IfOk result (λ numbered. numbered ≡ spec.form behind form) }
{
    match form {
        Form::ArrowValue { parameters, value } => Ok(Form::ArrowValue {
            parameters,
            value: child(behind, value)?,
        }),
        Form::ArrowBody { parameters, body } => Ok(Form::ArrowBody {
            parameters,
            body: numbers(alloc, behind, body)?,
        }),
        Form::AssignName {
            name,
            operator,
            value,
        } => Ok(Form::AssignName {
            name,
            operator,
            value: child(behind, value)?,
        }),
        Form::Assign {
            target,
            operator,
            value,
        } => {
            let (target, value) = two(behind, target, value)?;
            Ok(Form::Assign {
                target,
                operator,
                value,
            })
        }
        Form::Conditional {
            test,
            then,
            otherwise,
        } => {
            let (test, then, otherwise) = three(behind, test, then, otherwise)?;
            Ok(Form::Conditional {
                test,
                then,
                otherwise,
            })
        }
        Form::Binary {
            operator,
            left,
            right,
        } => {
            let (left, right) = two(behind, left, right)?;
            Ok(Form::Binary {
                operator,
                left,
                right,
            })
        }
        Form::Unary { operator, operand } => Ok(Form::Unary {
            operator,
            operand: child(behind, operand)?,
        }),
        Form::Update {
            operator,
            is_prefix,
            target,
        } => Ok(Form::Update {
            operator,
            is_prefix,
            target: child(behind, target)?,
        }),
        Form::Member { object, key } => Ok(Form::Member {
            object: child(behind, object)?,
            key,
        }),
        Form::Index { object, key } => {
            let (object, key) = two(behind, object, key)?;
            Ok(Form::Index { object, key })
        }
        Form::Call { callee, arguments } => {
            let (callee, arguments) = called(alloc, behind, callee, arguments)?;
            Ok(Form::Call { callee, arguments })
        }
        Form::New { callee, arguments } => {
            let (callee, arguments) = called(alloc, behind, callee, arguments)?;
            Ok(Form::New { callee, arguments })
        }
        Form::Array { elements } => Ok(Form::Array {
            elements: numbers(alloc, behind, elements)?,
        }),
        Form::Object { properties } => Ok(Form::Object {
            properties: object_properties(alloc, behind, properties)?,
        }),
        Form::FunctionValue { parameters, body } => Ok(Form::FunctionValue {
            parameters,
            body: numbers(alloc, behind, body)?,
        }),
        leaf => Ok(leaf),
    }
}

/// A form with the numbers of the table, in which the node behind its own has this number.
pub fn numbered_form(alloc: Global, behind: u32, form: Form) -> Result<Form, AllocError>
    ensures { IfOk result (λ numbered. numbered ≡ spec.form behind form) }
{
    match form {
        Form::Let { bindings } => Ok(Form::Let {
            bindings: let_bindings(alloc, behind, bindings)?,
        }),
        Form::Const { bindings } => Ok(Form::Const {
            bindings: const_bindings(alloc, behind, bindings)?,
        }),
        Form::Function {
            name,
            parameters,
            body,
        } => Ok(Form::Function {
            name,
            parameters,
            body: numbers(alloc, behind, body)?,
        }),
        Form::Block { body } => Ok(Form::Block {
            body: numbers(alloc, behind, body)?,
        }),
        Form::Expression { value } => Ok(Form::Expression {
            value: child(behind, value)?,
        }),
        Form::If { test, then } => {
            let (test, then) = two(behind, test, then)?;
            Ok(Form::If { test, then })
        }
        Form::IfElse {
            test,
            then,
            otherwise,
        } => {
            let (test, then, otherwise) = three(behind, test, then, otherwise)?;
            Ok(Form::IfElse {
                test,
                then,
                otherwise,
            })
        }
        Form::While { test, body } => {
            let (test, body) = two(behind, test, body)?;
            Ok(Form::While { test, body })
        }
        Form::For {
            start,
            test,
            update,
            body,
        } => for_form(behind, start, test, update, body),
        Form::ForLet {
            bindings,
            test,
            update,
            body,
        } => for_let_form(alloc, behind, bindings, test, update, body),
        Form::ForOf {
            is_constant,
            name,
            values,
            body,
        } => {
            let (values, body) = two(behind, values, body)?;
            Ok(Form::ForOf {
                is_constant,
                name,
                values,
                body,
            })
        }
        Form::Return { value } => Ok(Form::Return {
            value: optional(behind, value)?,
        }),
        Form::Throw { value } => Ok(Form::Throw {
            value: child(behind, value)?,
        }),
        Form::TryCatch {
            block,
            handler,
            finalizer,
        } => {
            let (block, handler, finalizer) = caught(behind, block, handler, finalizer)?;
            Ok(Form::TryCatch {
                block,
                handler,
                finalizer,
            })
        }
        Form::TryCatchName {
            block,
            name,
            handler,
            finalizer,
        } => {
            let (block, handler, finalizer) = caught(behind, block, handler, finalizer)?;
            Ok(Form::TryCatchName {
                block,
                name,
                handler,
                finalizer,
            })
        }
        Form::TryFinally { block, finalizer } => {
            let (block, finalizer) = two(behind, block, finalizer)?;
            Ok(Form::TryFinally { block, finalizer })
        }
        expression => numbered_expression(alloc, behind, expression),
    }
}
