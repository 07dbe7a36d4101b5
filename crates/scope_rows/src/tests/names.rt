//! The names that the nodes of a source mention, each with the place that was found when the source was resolved.

ghost use Rattle.std.specs.Prelude.{◌≡◌, ◌<◌, length};

use super::{chains, faults, places, scopes_of, tree_of, unmarked};
use snap_ast::{ConstBinding, Form, Named, Tree};
use snap_scope::{Scopes, SlotPlace};
use std::alloc::{AllocError, Global};
use std::test::Fail;

/// Sources, and behind `→` the names that their nodes mention, node by node, each with how many scopes lie between, the
/// slot, and how it was declared. Each row has `¶` at its end.
const ROWS: &str = "\
→¶\
a;→a none;¶\
let a; a;→a 0 0 let;a 0 0 let;¶\
const a = 1; a;→a 0 0 const;a 0 0 const;¶\
let a, b = a;→a 0 0 let;b 0 1 let;a 0 0 let;¶\
let a, b, c; a = b = c;→a 0 0 let;b 0 1 let;c 0 2 let;a 0 0 let;b 0 1 let;c 0 2 let;¶\
const { a, b } = c;→a 0 0 const;b 0 1 const;c none;¶\
const a = 1, { b, c } = a, d = c;→a 0 0 const;b 0 1 const;c 0 2 const;d 0 3 const;a 0 0 const;c 0 2 const;¶\
f(); function f() {}→f 0 0 let;f 0 0 let;¶\
function f() { g(); function g() { f(); } }→f 0 0 let;g 0 0 let;g 0 0 let;f 1 0 let;¶\
let a; { a = 1; const b = a; }→a 0 0 let;a 1 0 let;b 0 0 const;a 1 0 let;¶\
{ a; let b, a; }→a 0 1 let;b 0 0 let;a 0 1 let;¶\
const a = 1; { a; let b, a; } a;→a 0 0 const;a 0 1 let;b 0 0 let;a 0 1 let;a 0 0 const;¶\
function f(p, q) { return q; }→f 0 0 let;q 0 1 let;¶\
function f(p) { const q = p; return f(q); }→f 0 0 let;q 0 1 const;p 0 0 let;f 1 0 let;q 0 1 const;¶\
let a; function f(a) { a = 1; { let b, a; a = 2; } }→a 0 0 let;f 0 1 let;a 0 0 let;b 0 0 let;a 0 1 let;a 0 1 let;¶\
const f = p => p + s; let s;→f 0 0 const;p 0 0 let;s 1 1 let;s 0 1 let;¶\
const f = (p) => { p++; return () => --p; };→f 0 0 const;p 0 0 let;p 0 0 let;¶\
function f(p) { return (q) => p + q; }→f 0 0 let;p 1 0 let;q 0 0 let;¶\
const g = function (p) { function h() { return h(p, g); } };→g 0 0 const;h 0 1 let;h 0 1 let;p 0 0 let;g 1 0 const;¶\
for (let i = 0; i < n; i++) s += i;→i 0 0 let;n none;i 0 0 let;s none;i 0 0 let;¶\
for (i = 0; i < 3; ++i) ;→i none;i none;i none;¶\
let s; for (const x of s) { let y = x; s = y; }→s 0 0 let;s 1 0 let;y 0 0 let;x 1 0 const;s 2 0 let;y 0 0 let;¶\
let x; for (const x of []) for (let y = x; ; ) (z) => x + y + z;→x 0 0 let;x 1 0 const;x 2 0 const;y 1 0 let;z 0 0 let;¶\
while (a) { let a = b; }→a none;a 0 0 let;b none;¶\
if (a) { const a = 1; a; } else a = 2;→a none;a 0 0 const;a 0 0 const;a none;¶\
try { a; } catch (e) { let a = e; } finally { e; }→a none;a 0 0 let;e 1 0 let;e none;¶\
const e = 1; try { e; } catch (e) { e; { const e = 2; e; } }→e 0 0 const;e 0 0 const;e 0 0 let;e 0 0 const;e 0 0 const;¶\
let o; o.a = a; o[a].b++; ({ a, o: o });→o 0 0 let;o 0 0 let;a none;o 0 0 let;a none;a none;o 0 0 let;¶\
new X(a, typeof b, -c, !d);→X none;a none;b none;c none;d none;¶\
let s; function f(p) { for (const x of []) { let b; try {} catch (e) { s = p + x + b + e + f; } } }→s 0 0 let;f 0 1 let;b 0 0 let;s 4 0 let;p 3 0 let;x 2 0 const;b 1 0 let;e 0 0 let;f 4 1 let;¶\
";

fn units_of(named: &Named) -> &[u16] {
    named.name.units()
}

/// Units as text, with `?` for one that is no byte.
fn text_of(alloc: Global, units: &[u16]) -> Result<String, AllocError> {
    let mut text = String::new(alloc);
    for unit in units {
        match u8::try_from(*unit) {
            Ok(byte) => text.push(byte as char)?,
            Err(_) => text.push('?')?,
        }
    }
    Ok(text)
}

/// The name of an index among those of a `const`.
fn constant_at(bindings: &[ConstBinding], index: usize) -> Option<&[u16]> {
    let mut left = index;
    for binding in bindings {
        match binding {
            ConstBinding::One { name, .. } => {
                if left == 0 {
                    return Some(units_of(name));
                }
                left -= 1;
            }
            ConstBinding::Pattern { names, .. } => {
                if let Some(named) = names.as_slice().get(left) {
                    return Some(units_of(named));
                }
                left = left.saturating_sub(names.as_slice().len());
            }
        }
    }
    None
}

/// The one name that a node mentions, where it mentions one.
fn one_name(form: &Form) -> Option<&[u16]> {
    match form {
        Form::Name { name } => Some(name.units()),
        Form::AssignName { name, .. } => Some(units_of(name)),
        Form::UpdateName { name, .. } => Some(units_of(name)),
        Form::Function { name, .. } => Some(units_of(name.get())),
        _ => None,
    }
}

/// The name of an index among those that a node mentions.
fn name_at(form: &Form, index: usize) -> Option<&[u16]> {
    match form {
        Form::Let { bindings } => match bindings.as_slice().get(index) {
            Some(binding) => Some(units_of(&binding.name)),
            None => None,
        },
        Form::Const { bindings } => constant_at(bindings.as_slice(), index),
        _ => { if index == 0 { one_name(form) } else { None } }
    }
}

/// A name and its place as text.
fn put_name(
    alloc: Global,
    name: &str,
    place: Option<SlotPlace>,
    out: &mut String,
) -> Result<(), AllocError> {
    out.push_str(name)?;
    match place {
        Some(place) => {
            let how = if place.constant { "const" } else { "let" };
            out.push_str(format!(in alloc; " {} {} {how};", place.hops, place.slot)?.as_str())
        }
        None => out.push_str(" none;"),
    }
}

/// The names of a node with their places, of which each has to be what a look-up of the name gives.
fn put_node(
    alloc: Global,
    scopes: &Scopes,
    node: u32,
    form: &Form,
    out: &mut String,
) -> Result<(), AllocError>
    requires { node < length scopes.now.nodes }
{
    let places = scopes.places_of(node);
    for (index, found) in places.iter().enumerate() {
        let Some(name) = name_at(form, index) else {
            return out.push_str("no name;");
        };
        let name = text_of(alloc, name)?;
        if *found != scopes.slot_of(node, name.as_bytes()) {
            out.push_str("another place;")?;
        }
        if let Ok(index) = u32::try_from(index) {
            if *found != scopes.place_of_name(node, index) {
                out.push_str("another place;")?;
            }
        }
        put_name(alloc, name.as_str(), *found, out)?;
    }
    match name_at(form, places.len()) {
        Some(_) => out.push_str("no place;"),
        None => Ok(()),
    }
}

/// The names of all nodes.
fn put_nodes(
    alloc: Global,
    tree: &Tree,
    scopes: &Scopes,
    out: &mut String,
) -> Result<(), AllocError>
    requires { length scopes.now.nodes ≡ length tree.now.nodes }
{
    for (number, node) in tree.nodes.as_slice().iter().enumerate() {
        if number < u32::MAX as usize {
            put_node(alloc, scopes, number as u32, &node.form, out)?;
        }
    }
    Ok(())
}

/// The names of all nodes of a source with their places, or why it has no scopes.
fn names_of(alloc: Global, source: &str) -> Result<String, AllocError> {
    let mut out = String::new(alloc);
    match tree_of(alloc, source.as_bytes())? {
        Some(tree) => match scopes_of(alloc, &tree)? {
            Ok(scopes) => put_nodes(alloc, &tree, &scopes, &mut out)?,
            Err(fault) => out.push_str(fault.as_str())?,
        },
        None => out.push_str("no tree")?,
    }
    Ok(out)
}

/// The first row whose names are resolved otherwise, and how.
fn first_misresolved(alloc: Global) -> Result<String, AllocError> {
    for row in ROWS.split_terminator('¶') {
        let Some((source, wanted)) = row.split_once('→') else {
            return String::from_str(alloc, row);
        };
        let names = names_of(alloc, source)?;
        if names.as_str() != wanted {
            return format!(in alloc; "{source} {names}");
        }
    }
    Ok(String::new(alloc))
}

#[test]
fn resolves_names(rt: HostRuntime) -> Result<(), Fail> {
    assert_eq!(rt; first_misresolved(rt.alloc())?.as_str(), "");
    Ok(())
}

/// The first source of a table of which a name is resolved otherwise than a look-up of it says.
fn first_unlike(alloc: Global, rows: &'static str) -> Result<Option<&'static str>, AllocError> {
    for row in rows.split_terminator('¶') {
        let marked = match row.split_once('→') {
            Some((marked, _)) => marked,
            None => row,
        };
        let (source, _) = unmarked(alloc, marked)?;
        let names = names_of(alloc, source.as_str())?;
        for wrong in ["no name", "no place", "another place", "no tree", "("] {
            if names.as_str().find(wrong).is_some() {
                return Ok(Some(row));
            }
        }
    }
    Ok(None)
}

#[test]
fn resolves_names_as_look_ups_do(rt: HostRuntime) -> Result<(), Fail> {
    assert_eq!(rt; first_unlike(rt.alloc(), places::ROWS)?, None);
    assert_eq!(rt; first_unlike(rt.alloc(), chains::ROWS)?, None);
    assert_eq!(rt; first_unlike(rt.alloc(), faults::FINE)?, None);
    Ok(())
}
