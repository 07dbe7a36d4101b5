//! Trees as text.

use snap_ast::{Binding, ConstBinding, Form, Items, Named, Property, PropertyKey, Tree, TreeNode};
use snap_text::Units;
use std::alloc::{AllocError, Global};

/// Units as characters.
fn text(alloc: Global, text: &Units) -> Result<String, AllocError> {
    let mut shown = String::new(alloc);
    for unit in text.units() {
        shown.push(char::from_u32(u32::from(*unit)).unwrap_or('?'))?;
    }
    Ok(shown)
}

/// A name and its place.
fn named(alloc: Global, named: &Named) -> Result<String, AllocError> {
    let name = text(alloc, &named.name)?;
    let at = named.at;
    format!(in alloc; "{name}@{at}")
}

/// Names and their places.
fn names(alloc: Global, list: &Items<Named>) -> Result<String, AllocError> {
    let mut shown = String::new(alloc);
    for item in list.as_slice() {
        if !shown.is_empty() {
            shown.push(' ')?;
        }
        shown.push_str(named(alloc, item)?.as_str())?;
    }
    Ok(shown)
}

/// Numbers.
fn numbers(alloc: Global, list: &Items<u32>) -> Result<String, AllocError> {
    let mut shown = String::new(alloc);
    for item in list.as_slice() {
        if !shown.is_empty() {
            shown.push(' ')?;
        }
        shown.push_str(format!(in alloc; "{item}")?.as_str())?;
    }
    Ok(shown)
}

/// A number that may be there.
fn optional(alloc: Global, number: &Option<u32>) -> Result<String, AllocError> {
    match number {
        None => format!(in alloc; "-"),
        Some(number) => format!(in alloc; "{number}"),
    }
}

/// The bindings of a `let`.
fn bindings(alloc: Global, list: &Items<Binding>) -> Result<String, AllocError> {
    let mut shown = String::new(alloc);
    for item in list.as_slice() {
        shown.push(' ')?;
        shown.push_str(named(alloc, &item.name)?.as_str())?;
        if let Some(value) = item.value {
            shown.push_str(format!(in alloc; "={value}")?.as_str())?;
        }
    }
    Ok(shown)
}

/// A binding of a `const`.
fn constant(alloc: Global, binding: &ConstBinding) -> Result<String, AllocError> {
    match binding {
        ConstBinding::One { name, value } => {
            let name = named(alloc, name)?;
            format!(in alloc; " {name}={value}")
        }
        ConstBinding::Pattern { names: list, value } => {
            let list = names(alloc, list)?;
            format!(in alloc; " {{{list}}}={value}")
        }
    }
}

/// The bindings of a `const`.
fn constants(alloc: Global, list: &Items<ConstBinding>) -> Result<String, AllocError> {
    let mut shown = String::new(alloc);
    for item in list.as_slice() {
        shown.push_str(constant(alloc, item)?.as_str())?;
    }
    Ok(shown)
}

/// A key of a property.
fn key(alloc: Global, key: &PropertyKey) -> Result<String, AllocError> {
    match key {
        PropertyKey::Word(word) => text(alloc, word),
        PropertyKey::Text(key) => {
            let key = text(alloc, key)?;
            format!(in alloc; "'{key}'")
        }
        PropertyKey::Number(value) => format!(in alloc; "{value}"),
        PropertyKey::Computed(number) => format!(in alloc; "[{number}]"),
    }
}

/// The properties of an object.
fn properties(alloc: Global, list: &Items<Property>) -> Result<String, AllocError> {
    let mut shown = String::new(alloc);
    for item in list.as_slice() {
        let key = key(alloc, &item.key)?;
        let value = item.value;
        shown.push_str(format!(in alloc; " {key}={value}")?.as_str())?;
    }
    Ok(shown)
}

/// A statement that holds names, or that declares.
fn declaration(alloc: Global, form: &Form) -> Result<String, AllocError> {
    match form {
        Form::Let { bindings: list } => {
            let list = bindings(alloc, list)?;
            format!(in alloc; "Let{list}")
        }
        Form::Const { bindings: list } => {
            let list = constants(alloc, list)?;
            format!(in alloc; "Const{list}")
        }
        Form::Function {
            name,
            parameters,
            body,
        } => {
            let name = named(alloc, name.get())?;
            let parameters = names(alloc, parameters)?;
            let body = numbers(alloc, body)?;
            format!(in alloc; "Function {name} ({parameters}) [{body}]")
        }
        Form::ForLet {
            bindings: list,
            test,
            update,
            body,
        } => {
            let list = bindings(alloc, list)?;
            let test = optional(alloc, test)?;
            let update = optional(alloc, update)?;
            format!(in alloc; "ForLet{list} {test} {update} {body}")
        }
        Form::ForOf {
            is_constant,
            name,
            values,
            body,
        } => {
            let word = if *is_constant { "const" } else { "let" };
            let name = named(alloc, name)?;
            format!(in alloc; "ForOf {word} {name} {values} {body}")
        }
        other => statement(alloc, other),
    }
}

/// Another statement.
fn statement(alloc: Global, form: &Form) -> Result<String, AllocError> {
    match form {
        Form::Block { body } => {
            let body = numbers(alloc, body)?;
            format!(in alloc; "Block [{body}]")
        }
        Form::Empty => format!(in alloc; "Empty"),
        Form::Expression { value } => format!(in alloc; "Expression {value}"),
        Form::If { test, then } => format!(in alloc; "If {test} {then}"),
        Form::IfElse {
            test,
            then,
            otherwise,
        } => format!(in alloc; "IfElse {test} {then} {otherwise}"),
        Form::While { test, body } => format!(in alloc; "While {test} {body}"),
        Form::For {
            start,
            test,
            update,
            body,
        } => {
            let start = optional(alloc, start)?;
            let test = optional(alloc, test)?;
            let update = optional(alloc, update)?;
            format!(in alloc; "For {start} {test} {update} {body}")
        }
        other => jump(alloc, other),
    }
}

/// A jump, or a `try`.
fn jump(alloc: Global, form: &Form) -> Result<String, AllocError> {
    match form {
        Form::Break => format!(in alloc; "Break"),
        Form::Continue => format!(in alloc; "Continue"),
        Form::Return { value } => {
            let value = optional(alloc, value)?;
            format!(in alloc; "Return {value}")
        }
        Form::Throw { value } => format!(in alloc; "Throw {value}"),
        Form::TryCatch {
            block,
            handler,
            finalizer,
        } => {
            let finalizer = optional(alloc, finalizer)?;
            format!(in alloc; "TryCatch {block} {handler} {finalizer}")
        }
        Form::TryCatchName {
            block,
            name,
            handler,
            finalizer,
        } => {
            let name = named(alloc, name)?;
            let finalizer = optional(alloc, finalizer)?;
            format!(in alloc; "TryCatchName {block} {name} {handler} {finalizer}")
        }
        Form::TryFinally { block, finalizer } => {
            format!(in alloc; "TryFinally {block} {finalizer}")
        }
        other => function(alloc, other),
    }
}

/// A function, an arrow, an assignment or a choice.
fn function(alloc: Global, form: &Form) -> Result<String, AllocError> {
    match form {
        Form::ArrowValue { parameters, value } => {
            let parameters = names(alloc, parameters)?;
            format!(in alloc; "ArrowValue ({parameters}) {value}")
        }
        Form::ArrowBody { parameters, body } => {
            let parameters = names(alloc, parameters)?;
            let body = numbers(alloc, body)?;
            format!(in alloc; "ArrowBody ({parameters}) [{body}]")
        }
        Form::FunctionValue { parameters, body } => {
            let parameters = names(alloc, parameters)?;
            let body = numbers(alloc, body)?;
            format!(in alloc; "FunctionValue ({parameters}) [{body}]")
        }
        Form::AssignName {
            name,
            operator,
            value,
        } => {
            let name = named(alloc, name)?;
            format!(in alloc; "AssignName {name} {operator:?} {value}")
        }
        Form::Assign {
            target,
            operator,
            value,
        } => format!(in alloc; "Assign {target} {operator:?} {value}"),
        Form::Conditional {
            test,
            then,
            otherwise,
        } => format!(in alloc; "Conditional {test} {then} {otherwise}"),
        other => operation(alloc, other),
    }
}

/// Where an update stands.
fn side(is_prefix: bool) -> &'static str {
    if is_prefix { "prefix" } else { "postfix" }
}

/// An operator with its operands.
fn operation(alloc: Global, form: &Form) -> Result<String, AllocError> {
    match form {
        Form::Binary {
            operator,
            left,
            right,
        } => format!(in alloc; "Binary {operator:?} {left} {right}"),
        Form::Unary { operator, operand } => format!(in alloc; "Unary {operator:?} {operand}"),
        Form::UpdateName {
            operator,
            is_prefix,
            name,
        } => {
            let side = side(*is_prefix);
            let name = named(alloc, name)?;
            format!(in alloc; "UpdateName {operator:?} {side} {name}")
        }
        Form::Update {
            operator,
            is_prefix,
            target,
        } => {
            let side = side(*is_prefix);
            format!(in alloc; "Update {operator:?} {side} {target}")
        }
        other => access(alloc, other),
    }
}

/// A member, an index, a call or a `new`.
fn access(alloc: Global, form: &Form) -> Result<String, AllocError> {
    match form {
        Form::Member { object, key } => {
            let key = text(alloc, key)?;
            format!(in alloc; "Member {object} {key}")
        }
        Form::Index { object, key } => format!(in alloc; "Index {object} {key}"),
        Form::Call { callee, arguments } => {
            let arguments = numbers(alloc, arguments)?;
            format!(in alloc; "Call {callee} [{arguments}]")
        }
        Form::New { callee, arguments } => {
            let arguments = numbers(alloc, arguments)?;
            format!(in alloc; "New {callee} [{arguments}]")
        }
        other => literal(alloc, other),
    }
}

/// A literal or a name.
fn literal(alloc: Global, form: &Form) -> Result<String, AllocError> {
    match form {
        Form::Name { name } => {
            let name = text(alloc, name)?;
            format!(in alloc; "Name {name}")
        }
        Form::Number { value } => format!(in alloc; "Number {value}"),
        Form::Text { units: list } => {
            let list = text(alloc, list)?;
            format!(in alloc; "Text {list}")
        }
        Form::Bool { value } => format!(in alloc; "Bool {value}"),
        Form::Null => format!(in alloc; "Null"),
        Form::Undefined => format!(in alloc; "Undefined"),
        Form::Array { elements } => {
            let elements = numbers(alloc, elements)?;
            format!(in alloc; "Array [{elements}]")
        }
        Form::Object { properties: list } => {
            let list = properties(alloc, list)?;
            format!(in alloc; "Object{list}")
        }
        _ => format!(in alloc; "?"),
    }
}

/// A node: its place, its form, and its children.
fn node(alloc: Global, node: &TreeNode) -> Result<String, AllocError> {
    let at = node.at;
    let form = declaration(alloc, &node.form)?;
    format!(in alloc; " | {at} {form}")
}

/// A tree: the statements of the script, and the nodes by their numbers.
pub fn shown(alloc: Global, tree: &Tree) -> Result<String, AllocError> {
    let top = numbers(alloc, &tree.top)?;
    let mut shown = format!(in alloc; "[{top}]")?;
    for item in tree.nodes.as_slice() {
        shown.push_str(node(alloc, item)?.as_str())?;
    }
    Ok(shown)
}
