//! The numbers of a table, in place of those that are counted from the node behind the parent.

ghost use Rattle.std.specs.Prelude.{◌≡◌, ◌+◌, IfOk};
ghost use Rattle.spec_grammar.specs.Numbered as spec;

use snap_ast::{Binding, ConstBinding, Items, Property, PropertyKey};
use std::alloc::{AllocError, Global};

/// A child's number in the table, or want of memory where a table has no such number.
pub fn child(behind: u32, number: u32) -> Result<u32, AllocError>
    ensures { IfOk result (λ sum. sum ≡ behind + number) }
{
    match behind.checked_add(number) {
        Some(sum) => Ok(sum),
        None => Err(AllocError),
    }
}

/// A child that may be there.
pub fn optional(behind: u32, number: Option<u32>) -> Result<Option<u32>, AllocError>
    ensures { IfOk result (λ sum. sum ≡ spec.optional behind number) }
{
    match number {
        None => Ok(None),
        Some(number) => Ok(Some(child(behind, number)?)),
    }
}

/// Children.
#[tactic(auto, using(crate::proofs::Numbering::one_number))]
pub fn numbers(alloc: Global, behind: u32, items: Items<u32>) -> Result<Items<u32>, AllocError>
    ensures { IfOk result (λ list. list ≡ spec.numbers behind items) }
{
    let mut done = Vec::new(alloc);
    for number in items.into_vec() {
        done.push(child(behind, number)?)?;
    }
    Ok(Items::from_vec(done))
}

/// The bindings of a `let`.
#[tactic(auto, using(crate::proofs::Numbering::one_binding))]
pub fn let_bindings(
    alloc: Global,
    behind: u32,
    items: Items<Binding>,
) -> Result<Items<Binding>, AllocError>
    ensures { IfOk result (λ list. list ≡ spec.bindings behind items) }
{
    let mut done = Vec::new(alloc);
    for binding in items.into_vec() {
        let Binding { name, value } = binding;
        let value = optional(behind, value)?;
        done.push(Binding { name, value })?;
    }
    Ok(Items::from_vec(done))
}

/// A binding of a `const`.
fn const_binding(behind: u32, binding: ConstBinding) -> Result<ConstBinding, AllocError>
    ensures { IfOk result (λ numbered. numbered ≡ spec.const_binding behind binding) }
{
    match binding {
        ConstBinding::One { name, value } => {
            let value = child(behind, value)?;
            Ok(ConstBinding::One { name, value })
        }
        ConstBinding::Pattern { names, value } => {
            let value = child(behind, value)?;
            Ok(ConstBinding::Pattern { names, value })
        }
    }
}

/// The bindings of a `const`.
#[tactic(auto, using(crate::proofs::Numbering::one_constant))]
pub fn const_bindings(
    alloc: Global,
    behind: u32,
    items: Items<ConstBinding>,
) -> Result<Items<ConstBinding>, AllocError>
    ensures { IfOk result (λ list. list ≡ spec.const_bindings behind items) }
{
    let mut done = Vec::new(alloc);
    for binding in items.into_vec() {
        done.push(const_binding(behind, binding)?)?;
    }
    Ok(Items::from_vec(done))
}

/// A key of a property.
fn key(behind: u32, key: PropertyKey) -> Result<PropertyKey, AllocError>
    ensures { IfOk result (λ numbered. numbered ≡ spec.key behind key) }
{
    match key {
        PropertyKey::Word(text) => Ok(PropertyKey::Word(text)),
        PropertyKey::Text(units) => Ok(PropertyKey::Text(units)),
        PropertyKey::Number(value) => Ok(PropertyKey::Number(value)),
        PropertyKey::Computed(number) => Ok(PropertyKey::Computed(child(behind, number)?)),
    }
}

/// The properties of an object.
#[tactic(auto, using(crate::proofs::Numbering::one_property))]
pub fn object_properties(
    alloc: Global,
    behind: u32,
    items: Items<Property>,
) -> Result<Items<Property>, AllocError>
    ensures { IfOk result (λ list. list ≡ spec.properties behind items) }
{
    let mut done = Vec::new(alloc);
    for property in items.into_vec() {
        let Property { key: known, value } = property;
        let key = key(behind, known)?;
        let value = child(behind, value)?;
        done.push(Property { key, value })?;
    }
    Ok(Items::from_vec(done))
}
