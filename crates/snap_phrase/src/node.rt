//! The nodes of expressions.

ghost use Rattle.std.specs.Prelude.{◌≡◌, IfOk};
ghost use Rattle.spec_grammar.specs.Nodes as spec;

use crate::phrase::{Below, Phrase};
use crate::row::Row;
use snap_ast::{
    AssignOperator, BinaryOperator, Form, Items, Named, Property, UnaryOperator, UpdateOperator,
};
use snap_text::Units;
use std::alloc::{AllocError, Global};

/// A node without children.
pub fn leaf(alloc: Global, at: u32, form: Form) -> Result<Phrase, AllocError>
    ensures { IfOk result (λ phrase. phrase ≡ spec.leaf at form) }
{
    Below::new(alloc).above(at, form)
}

/// A name that is read.
pub fn name_node(alloc: Global, named: Named) -> Result<Phrase, AllocError>
    ensures { IfOk result (λ phrase. phrase ≡ spec.name_node named) }
{
    let Named { name, at } = named;
    leaf(alloc, at, Form::Name { name })
}

/// Two operands and the operator between them.
pub fn binary_node(
    operator: BinaryOperator,
    left: Phrase,
    right: Phrase,
) -> Result<Phrase, AllocError>
    ensures { IfOk result (λ phrase. phrase ≡ spec.binary_node operator left right) }
{
    let at = left.at();
    let (right, below) = left.under().next(right)?;
    let form = Form::Binary {
        operator,
        left: 0,
        right,
    };
    below.above(at, form)
}

/// An operator and its operand.
pub fn unary_node(at: u32, operator: UnaryOperator, operand: Phrase) -> Result<Phrase, AllocError>
    ensures { IfOk result (λ phrase. phrase ≡ spec.unary_node at operator operand) }
{
    let form = Form::Unary {
        operator,
        operand: 0,
    };
    operand.under().above(at, form)
}

/// An update of a name.
pub fn update_name(
    alloc: Global,
    at: u32,
    operator: UpdateOperator,
    is_prefix: bool,
    name: Named,
) -> Result<Phrase, AllocError>
    ensures { IfOk result (λ phrase. phrase ≡ spec.update_name at operator is_prefix name) }
{
    let form = Form::UpdateName {
        operator,
        is_prefix,
        name,
    };
    leaf(alloc, at, form)
}

/// An update of anything but a name.
pub fn update_node(
    at: u32,
    operator: UpdateOperator,
    is_prefix: bool,
    target: Phrase,
) -> Result<Phrase, AllocError>
    ensures { IfOk result (λ phrase. phrase ≡ spec.update_node at operator is_prefix target) }
{
    let form = Form::Update {
        operator,
        is_prefix,
        target: 0,
    };
    target.under().above(at, form)
}

/// An operator behind its target, which is a name or a node.
#[tactic(auto, unfolding(spec_grammar::specs::Nodes::postfix_node))]
pub fn postfix_node(
    alloc: Global,
    operator: UpdateOperator,
    target: Phrase,
) -> Result<Phrase, AllocError>
    ensures { IfOk result (λ phrase. phrase ≡ spec.postfix_node operator target) }
{
    match target.name(alloc)? {
        Some(name) => update_name(alloc, target.at(), operator, false, name),
        None => {
            let at = target.at();
            update_node(at, operator, false, target)
        }
    }
}

/// An assignment to a name or a node.
#[tactic(auto, unfolding(spec_grammar::specs::Nodes::assign_node))]
pub fn assign_node(
    alloc: Global,
    operator: AssignOperator,
    target: Phrase,
    value: Phrase,
) -> Result<Phrase, AllocError>
    ensures { IfOk result (λ phrase. phrase ≡ spec.assign_node operator target value) }
{
    let at = target.at();
    match target.name(alloc)? {
        Some(name) => {
            let form = Form::AssignName {
                name,
                operator,
                value: 0,
            };
            value.under().above(at, form)
        }
        None => {
            let (value, below) = target.under().next(value)?;
            let form = Form::Assign {
                target: 0,
                operator,
                value,
            };
            below.above(at, form)
        }
    }
}

/// A condition and the two values.
pub fn conditional_node(test: Phrase, then: Phrase, otherwise: Phrase) -> Result<Phrase, AllocError>
    ensures { IfOk result (λ phrase. phrase ≡ spec.conditional_node test then otherwise) }
{
    let at = test.at();
    let (then, below) = test.under().next(then)?;
    let (otherwise, below) = below.next(otherwise)?;
    let form = Form::Conditional {
        test: 0,
        then,
        otherwise,
    };
    below.above(at, form)
}

/// An arrow whose body is an expression.
pub fn arrow_value(at: u32, parameters: Items<Named>, value: Phrase) -> Result<Phrase, AllocError>
    ensures { IfOk result (λ phrase. phrase ≡ spec.arrow_value at parameters value) }
{
    let form = Form::ArrowValue {
        parameters,
        value: 0,
    };
    value.under().above(at, form)
}

/// An arrow whose body is statements.
pub fn arrow_body(at: u32, parameters: Items<Named>, row: Row<u32>) -> Result<Phrase, AllocError>
    ensures { IfOk result (λ phrase. phrase ≡ spec.arrow_body at parameters row) }
{
    let (body, below) = row.into_parts();
    below.above(at, Form::ArrowBody { parameters, body })
}

/// A member.
pub fn member_node(object: Phrase, key: Units) -> Result<Phrase, AllocError>
    ensures { IfOk result (λ phrase. phrase ≡ spec.member_node object key) }
{
    let at = object.at();
    object.under().above(at, Form::Member { object: 0, key })
}

/// An index.
pub fn index_node(object: Phrase, key: Phrase) -> Result<Phrase, AllocError>
    ensures { IfOk result (λ phrase. phrase ≡ spec.index_node object key) }
{
    let at = object.at();
    let (key, below) = object.under().next(key)?;
    below.above(at, Form::Index { object: 0, key })
}

/// A call, whose arguments stand behind what is called.
pub fn call_node(at: u32, row: Row<u32>) -> Result<Phrase, AllocError>
    ensures { IfOk result (λ phrase. phrase ≡ spec.call_node at row) }
{
    let (arguments, below) = row.into_parts();
    let form = Form::Call {
        callee: 0,
        arguments,
    };
    below.above(at, form)
}

/// A `new`, whose arguments stand behind the constructor.
pub fn new_node(at: u32, row: Row<u32>) -> Result<Phrase, AllocError>
    ensures { IfOk result (λ phrase. phrase ≡ spec.new_node at row) }
{
    let (arguments, below) = row.into_parts();
    let form = Form::New {
        callee: 0,
        arguments,
    };
    below.above(at, form)
}

/// An array.
pub fn array_node(at: u32, row: Row<u32>) -> Result<Phrase, AllocError>
    ensures { IfOk result (λ phrase. phrase ≡ spec.array_node at row) }
{
    let (elements, below) = row.into_parts();
    below.above(at, Form::Array { elements })
}

/// An object.
pub fn object_node(at: u32, row: Row<Property>) -> Result<Phrase, AllocError>
    ensures { IfOk result (λ phrase. phrase ≡ spec.object_node at row) }
{
    let (properties, below) = row.into_parts();
    below.above(at, Form::Object { properties })
}

/// A function as an expression.
pub fn function_value(
    at: u32,
    parameters: Items<Named>,
    row: Row<u32>,
) -> Result<Phrase, AllocError>
    ensures { IfOk result (λ phrase. phrase ≡ spec.function_value at parameters row) }
{
    let (body, below) = row.into_parts();
    below.above(at, Form::FunctionValue { parameters, body })
}
