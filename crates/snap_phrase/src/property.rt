//! Properties and bindings, put behind those that a row has.

ghost use Rattle.std.specs.Prelude.{◌≡◌, IfOk};
ghost use Rattle.spec_grammar.specs.Nodes as spec;

use crate::node::name_node;
use crate::phrase::Phrase;
use crate::row::Row;
use snap_ast::{Binding, ConstBinding, Items, Named, Property, PropertyKey};
use snap_text::Units;
use std::alloc::{AllocError, Global};

/// A property with its value.
pub fn with_property(
    row: Row<Property>,
    key: PropertyKey,
    value: Phrase,
) -> Result<Row<Property>, AllocError>
    ensures { IfOk result (λ longer. longer ≡ spec.with_property row key value) }
{
    let number = row.number()?;
    let property = Property { key, value: number };
    row.with_phrase(property, value)
}

/// A property that is a name.
pub fn with_shorthand(
    alloc: Global,
    row: Row<Property>,
    named: Named,
) -> Result<Row<Property>, AllocError>
    ensures { IfOk result (λ longer. longer ≡ spec.with_shorthand row named) }
{
    let word = Units::from_vec(Vec::from_slice(alloc, named.name.units())?);
    let key = PropertyKey::Word(word);
    let value = name_node(alloc, named)?;
    with_property(row, key, value)
}

/// A property with a computed key, which stands before the value.
pub fn with_computed(
    row: Row<Property>,
    key: Phrase,
    value: Phrase,
) -> Result<Row<Property>, AllocError>
    ensures { IfOk result (λ longer. longer ≡ spec.with_computed row key value) }
{
    let first = row.number()?;
    let row = row.above_phrase(key)?;
    let second = row.number()?;
    let property = Property {
        key: PropertyKey::Computed(first),
        value: second,
    };
    row.with_phrase(property, value)
}

/// A name that is declared without a value.
pub fn with_name(row: Row<Binding>, name: Named) -> Result<Row<Binding>, AllocError>
    ensures { IfOk result (λ longer. longer ≡ spec.with_name row name) }
{
    row.with_part(Binding { name, value: None })
}

/// A name that is declared with a value.
pub fn with_value(row: Row<Binding>, name: Named, value: Phrase) -> Result<Row<Binding>, AllocError>
    ensures { IfOk result (λ longer. longer ≡ spec.with_value row name value) }
{
    let number = row.number()?;
    let binding = Binding {
        name,
        value: Some(number),
    };
    row.with_phrase(binding, value)
}

/// A constant.
pub fn with_constant(
    row: Row<ConstBinding>,
    name: Named,
    value: Phrase,
) -> Result<Row<ConstBinding>, AllocError>
    ensures { IfOk result (λ longer. longer ≡ spec.with_constant row name value) }
{
    let number = row.number()?;
    let binding = ConstBinding::One {
        name,
        value: number,
    };
    row.with_phrase(binding, value)
}

/// Constants that are properties of a value.
pub fn with_pattern(
    row: Row<ConstBinding>,
    names: Items<Named>,
    value: Phrase,
) -> Result<Row<ConstBinding>, AllocError>
    ensures { IfOk result (λ longer. longer ≡ spec.with_pattern row names value) }
{
    let number = row.number()?;
    let binding = ConstBinding::Pattern {
        names,
        value: number,
    };
    row.with_phrase(binding, value)
}
