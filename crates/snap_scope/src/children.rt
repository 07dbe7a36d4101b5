//! The numbers of the children of a node.

ghost use Rattle.std.specs.Prelude.{◌≡◌, ◌∷◌, [], ◌++◌, OnOk};
ghost use Rattle.snap_ast.specs.Children.{binding_children, const_children, property_children};
ghost use Rattle.spec_scopes.specs.Round.{numbers};
ghost use Rattle.snap_scope.specs.Children.{in_option, numbers_of};

use snap_ast::{Binding, ConstBinding, Form, Property, PropertyKey};
use snap_text::NoMemory;

fn put(number: u32, out: &mut Vec<u32>) -> Result<(), NoMemory>
    ensures { OnOk result (out.new.items ≡ out.old.items ++ number ∷ []) }
{
    out.push(number)?;
    Ok(())
}

fn put_two(first: u32, second: u32, out: &mut Vec<u32>) -> Result<(), NoMemory>
    ensures { OnOk result (out.new.items ≡ out.old.items ++ (first ∷ second ∷ [])) }
{
    put(first, out)?;
    put(second, out)
}

fn put_option(number: &Option<u32>, out: &mut Vec<u32>) -> Result<(), NoMemory>
    ensures { OnOk result (out.new.items ≡ out.old.items ++ in_option number.now) }
{
    match number {
        Some(number) => put(*number, out),
        None => Ok(()),
    }
}

fn put_all(numbers: &[u32], out: &mut Vec<u32>) -> Result<(), NoMemory>
    ensures { OnOk result (out.new.items ≡ out.old.items ++ numbers.now) }
{
    out.extend_from_slice(numbers)?;
    Ok(())
}

fn put_call(callee: u32, arguments: &[u32], out: &mut Vec<u32>) -> Result<(), NoMemory>
    ensures { OnOk result (out.new.items ≡ out.old.items ++ callee ∷ arguments.now) }
{
    put(callee, out)?;
    put_all(arguments, out)
}

fn put_bindings(bindings: &[Binding], out: &mut Vec<u32>) -> Result<(), NoMemory>
    ensures { OnOk result (out.new.items ≡ out.old.items ++ numbers_of (binding_children bindings.now)) }
{
    for binding in bindings {
        put_option(&binding.value, out)?;
    }
    Ok(())
}

fn put_constant(binding: &ConstBinding, out: &mut Vec<u32>) -> Result<(), NoMemory>
    ensures { OnOk result (out.new.items ≡ out.old.items ++ numbers_of (const_children (binding.now ∷ []))) }
{
    match binding {
        ConstBinding::One { value, .. } => put(*value, out),
        ConstBinding::Pattern { value, .. } => put(*value, out),
    }
}

fn put_constants(bindings: &[ConstBinding], out: &mut Vec<u32>) -> Result<(), NoMemory>
    ensures { OnOk result (out.new.items ≡ out.old.items ++ numbers_of (const_children bindings.now)) }
{
    for binding in bindings {
        put_constant(binding, out)?;
    }
    Ok(())
}

fn put_property(property: &Property, out: &mut Vec<u32>) -> Result<(), NoMemory>
    ensures { OnOk result (out.new.items ≡ out.old.items ++ numbers_of (property_children (property.now ∷ []))) }
{
    match &property.key {
        PropertyKey::Computed(key) => put_two(*key, property.value, out),
        PropertyKey::Word(_) => put(property.value, out),
        PropertyKey::Text(_) => put(property.value, out),
        PropertyKey::Number(_) => put(property.value, out),
    }
}

fn put_properties(properties: &[Property], out: &mut Vec<u32>) -> Result<(), NoMemory>
    ensures { OnOk result (out.new.items ≡ out.old.items ++ numbers_of (property_children properties.now)) }
{
    for property in properties {
        put_property(property, out)?;
    }
    Ok(())
}

#[tactic(auto, using(crate::proofs::Numbers::statement_numbers, crate::proofs::Numbers::expression_numbers))]
/// Adds the numbers of a form's children, in order.
pub(crate) fn put_children(form: &Form, out: &mut Vec<u32>) -> Result<(), NoMemory>
    ensures { OnOk result (out.new.items ≡ out.old.items ++ numbers form.now) }
{
    match form {
        Form::Let { bindings } => put_bindings(bindings.as_slice(), out),
        Form::Const { bindings } => put_constants(bindings.as_slice(), out),
        Form::Function { body, .. }
        | Form::FunctionValue { body, .. }
        | Form::ArrowBody { body, .. }
        | Form::Block { body }
        | Form::Array { elements: body } => put_all(body.as_slice(), out),
        Form::Expression { value }
        | Form::Throw { value }
        | Form::ArrowValue { value, .. }
        | Form::AssignName { value, .. }
        | Form::Unary { operand: value, .. }
        | Form::Update { target: value, .. }
        | Form::Member { object: value, .. } => put(*value, out),
        Form::If {
            test: first,
            then: second,
        }
        | Form::While {
            test: first,
            body: second,
        }
        | Form::ForOf {
            values: first,
            body: second,
            ..
        }
        | Form::TryFinally {
            block: first,
            finalizer: second,
        }
        | Form::Assign {
            target: first,
            value: second,
            ..
        }
        | Form::Binary {
            left: first,
            right: second,
            ..
        }
        | Form::Index {
            object: first,
            key: second,
        } => put_two(*first, *second, out),
        Form::IfElse {
            test,
            then,
            otherwise,
        }
        | Form::Conditional {
            test,
            then,
            otherwise,
        } => {
            put_two(*test, *then, out)?;
            put(*otherwise, out)
        }
        Form::For {
            start,
            test,
            update,
            body,
        } => {
            put_option(start, out)?;
            put_option(test, out)?;
            put_option(update, out)?;
            put(*body, out)
        }
        Form::ForLet {
            bindings,
            test,
            update,
            body,
        } => {
            put_bindings(bindings.as_slice(), out)?;
            put_option(test, out)?;
            put_option(update, out)?;
            put(*body, out)
        }
        Form::TryCatch {
            block,
            handler,
            finalizer,
        }
        | Form::TryCatchName {
            block,
            handler,
            finalizer,
            ..
        } => {
            put_two(*block, *handler, out)?;
            put_option(finalizer, out)
        }
        Form::Call { callee, arguments } | Form::New { callee, arguments } => {
            put_call(*callee, arguments.as_slice(), out)
        }
        Form::Object { properties } => put_properties(properties.as_slice(), out),
        Form::Return { value } => put_option(value, out),
        Form::Empty
        | Form::Break
        | Form::Continue
        | Form::UpdateName { .. }
        | Form::Name { .. }
        | Form::Number { .. }
        | Form::Text { .. }
        | Form::Bool { .. }
        | Form::Null
        | Form::Undefined => Ok(()),
    }
}
