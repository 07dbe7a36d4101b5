//! Names with their places, from the node at a mark, by the innermost scope that holds them.

ghost use Rattle.std.specs.Prelude.{◌<◌, length};
ghost use Rattle.snap_ast.specs.Lawful.{Lawful};

use super::{node_at, scopes_of, tree_of, unmarked};
use snap_ast::Tree;
use snap_scope::Scopes;
use std::alloc::{AllocError, Global};
use std::test::Fail;

/// Sources, and behind `→` a name and its place from the last node that begins at the mark: how many scopes lie
/// between, the slot, and how it was declared. Each row has `¶` at its end.
pub(super) const ROWS: &str = "\
|;→a none¶\
let a; |a;→a 0 0 let¶\
let a, b; |b;→b 0 1 let¶\
let a; const b = 1; |b;→b 0 1 const¶\
const { a, b } = {}; |b;→b 0 1 const¶\
const a = 1, { b, c } = {}, d = 2; |d;→d 0 3 const¶\
const a = 1, { b, c } = {}, d = 2; |d;→c 0 2 const¶\
function f() {} let a; |a;→f 0 0 let¶\
let a; function f() {} |f;→f 0 1 let¶\
|a; let a;→a 0 0 let¶\
{ let a; } |a;→a none¶\
function f(p) { let a; } |f;→p none¶\
if (|a) { let a; }→a none¶\
const f = |function () {};→f 0 0 const¶\
|function f(p) { let a; }→p none¶\
|{ let a; }→a none¶\
function f(p) { |p; }→p 0 0 let¶\
function f(p, q) { let a; |a; }→a 0 2 let¶\
function f(p, q) { const a = 1; |q; }→q 0 1 let¶\
function f() { |f; }→f 0 0 let¶\
function f(p) { |f; }→f 1 0 let¶\
const f = function (p) { return |p; };→p 0 0 let¶\
const f = function (p) { return |p; };→f 1 0 const¶\
(p) => |p;→p 0 0 let¶\
p => { const a = 1; return |a; };→a 0 1 const¶\
() => { let a; return |a; };→a 0 0 let¶\
let a; () => |a;→a 0 0 let¶\
function f(p) { function g() { |p; } }→p 0 0 let¶\
function f(p) { function g(q) { |p; } }→g 1 1 let¶\
{ let a; |a; }→a 0 0 let¶\
let a; { |a; }→a 0 0 let¶\
let a; { let b; |a; }→a 1 0 let¶\
const a = 1; { let a; |a; }→a 0 0 let¶\
let a; { const a = 1; { |a; } }→a 0 0 const¶\
{ function f() {} |f; }→f 0 0 let¶\
if (1) { const a = 1; |a; } else { let a; }→a 0 0 const¶\
try { let a; |a; } finally { let b; }→b none¶\
try { let a; } finally { let b; |b; }→a none¶\
for (let i = 0; |i < 3; i++) ;→i 0 0 let¶\
for (let i = |0; i < 3; i++) ;→i 0 0 let¶\
for (let i = 0, j = 1; i < 3; i++) |j;→j 0 1 let¶\
for (let i = 0; i < 3; |i++) ;→i 0 0 let¶\
for (const x of [1]) |x;→x 0 0 const¶\
for (let x of [1]) |x;→x 0 0 let¶\
for (const x of |x) ;→x 0 0 const¶\
for (|i; i < 3; i++) ;→i none¶\
const i = 1; for (let i = 0; ; ) { |i; }→i 0 0 let¶\
for (const i of [1]) { let i; |i; }→i 0 0 let¶\
let a; for (const x of [1]) { let b; |a; }→a 2 0 let¶\
while (|a) { let a; }→a none¶\
try {} catch (e) { |e; }→e 0 0 let¶\
try {} catch (e) { let a; |e; }→e 1 0 let¶\
try { |e; } catch (e) {}→e none¶\
try {} catch (e) {} finally { |e; }→e none¶\
try {} catch (e) |{}→e 0 0 let¶\
try {} catch { |e; }→e none¶\
const e = 1; try {} catch (e) { |e; }→e 0 0 let¶\
try {} catch (e) { { const e = 1; |e; } }→e 0 0 const¶\
function f(p) { function g(q) { |p; } }→p 1 0 let¶\
{ let b; (q) => |b; }→b 1 0 let¶\
for (const x of []) (q) => |x;→x 1 0 const¶\
try {} catch (e) { (q) => |e; }→e 1 0 let¶\
function f(p) { { let b; |p; } }→p 1 0 let¶\
{ let a; { let b; |a; } }→a 1 0 let¶\
for (let i = 0; ; ) { let b; |i; }→i 1 0 let¶\
try {} catch (e) { { let b; |e; } }→e 1 0 let¶\
(p) => { for (let i = 0; ; ) |p; };→p 1 0 let¶\
{ let b; for (const x of []) |b; }→b 1 0 let¶\
for (const x of []) for (let i = 0; ; ) |x;→x 1 0 const¶\
try {} catch (e) { for (let i = 0; ; ) |e; }→e 1 0 let¶\
function f(p) { try {} catch (e) { |p; } }→p 1 0 let¶\
{ const b = 1; try {} catch (e) { |b; } }→b 1 0 const¶\
for (let i = 0; ; ) try {} catch (e) { |i; }→i 1 0 let¶\
try {} catch (d) { try {} catch (e) { |d; } }→d 1 0 let¶\
let s; function f(p) { for (const x of []) { let b; try {} catch (e) { |s; } } }→s 4 0 let¶\
let s; function f(p) { for (const x of []) { let b; try {} catch (e) { |s; } } }→f 4 1 let¶\
let s; function f(p) { for (const x of []) { let b; try {} catch (e) { |s; } } }→p 3 0 let¶\
let s; function f(p) { for (const x of []) { let b; try {} catch (e) { |s; } } }→x 2 0 const¶\
let s; function f(p) { for (const x of []) { let b; try {} catch (e) { |s; } } }→b 1 0 let¶\
let s; function f(p) { for (const x of []) { let b; try {} catch (e) { |s; } } }→e 0 0 let¶\
";

/// A name and its place from a node.
fn place(alloc: Global, scopes: &Scopes, node: u32, name: &str) -> Result<String, AllocError>
    requires { node < length scopes.now.nodes }
{
    match scopes.slot_of(node, name.as_bytes()) {
        Some(place) => {
            let how = if place.constant { "const" } else { "let" };
            format!(in alloc; "{name} {} {} {how}", place.hops, place.slot)
        }
        None => format!(in alloc; "{name} none"),
    }
}

/// The same from the last node of a tree that begins at a place.
fn place_at(alloc: Global, tree: &Tree, at: usize, name: &str) -> Result<String, AllocError>
    requires { Lawful tree.now }
{
    let Some(node) = node_at(tree, at) else {
        return String::from_str(alloc, "no node");
    };
    match scopes_of(alloc, tree)? {
        Ok(scopes) => place(alloc, &scopes, node, name),
        Err(fault) => Ok(fault),
    }
}

/// Whether a name has this place from the node at the mark.
fn is_placed(alloc: Global, marked: &str, wanted: &str) -> Result<bool, AllocError> {
    let Some((name, _)) = wanted.split_once(' ') else {
        return Ok(false);
    };
    let (source, at) = unmarked(alloc, marked)?;
    match tree_of(alloc, source.as_bytes())? {
        Some(tree) => Ok(place_at(alloc, &tree, at, name)?.as_str() == wanted),
        None => Ok(false),
    }
}

/// The first row whose name is found elsewhere.
fn first_misplaced(alloc: Global) -> Result<Option<&'static str>, AllocError> {
    for row in ROWS.split_terminator('¶') {
        let Some((source, wanted)) = row.split_once('→') else {
            return Ok(Some(row));
        };
        if !is_placed(alloc, source, wanted)? {
            return Ok(Some(row));
        }
    }
    Ok(None)
}

#[test]
fn finds_names(rt: HostRuntime) -> Result<(), Fail> {
    assert_eq!(rt; first_misplaced(rt.alloc())?, None);
    Ok(())
}
