//! Chains of scopes round nodes, and the scopes that nodes make.

ghost use Rattle.std.specs.Prelude.{◌<◌, length};
ghost use Rattle.snap_ast.specs.Lawful.{Lawful};

use super::{node_at, put_need, scopes_of, tree_of, unmarked};
use snap_ast::Tree;
use snap_scope::Scopes;
use std::alloc::{AllocError, Global};
use std::test::Fail;

/// Sources, and behind `→` the scopes round the last node that begins at the mark, innermost first, and behind
/// `;` the scope that it makes. Each row has `¶` at its end.
pub(super) const ROWS: &str = "\
|;→Script 0 ;¶\
let a, b; |;→Script 2 ;¶\
|{ let a, b; }→Script 0 ;Block 2 ¶\
|{}→Script 0 ;¶\
|function f(p) { let a; }→Script 1 ;Function 2 ¶\
|function f() {}→Script 1 ;¶\
|for (let i = 0, j; ; ) ;→Script 0 ;Loop 2 ¶\
|for (; ; ) ;→Script 0 ;¶\
|for (const x of []) ;→Script 0 ;Loop 1 ¶\
|while (a) ;→Script 0 ;¶\
|try {} catch (e) {}→Script 0 ;Catch 1 ¶\
|try {} catch {}→Script 0 ;¶\
|try {} finally {}→Script 0 ;¶\
try |{ let a; } catch (e) { let b; }→Script 0 ;Block 1 ¶\
try {} catch (e) |{ let b; }→Catch 1 Script 0 ;Block 1 ¶\
try {} catch (e) {} finally |{ let c; }→Script 0 ;Block 1 ¶\
let s; const f = (p, q) => |p;→Function 2 Script 2 ;¶\
const f = |p => { const a = 1, { b, c } = p; };→Script 1 ;Function 4 ¶\
const f = |function (p, q) { function g() {} };→Script 1 ;Function 3 ¶\
let a; { let b; for (const x of []) { let c; (|p => p); } }→Block 1 Loop 1 Block 1 Script 1 ;Function 1 ¶\
let s; function f(p) { for (const x of []) { let b; try {} catch (e) { |s; } } }→Catch 1 Block 1 Loop 1 Function 1 Script 2 ;¶\
";

/// The scopes round a node, innermost first, and behind `;` the scope that it makes.
fn chain(alloc: Global, scopes: &Scopes, node: u32) -> Result<String, AllocError>
    requires { node < length scopes.now.nodes }
{
    let mut out = String::new(alloc);
    for need in scopes.chain_of(node) {
        put_need(alloc, *need, &mut out)?;
    }
    out.push(';')?;
    if let Some(need) = scopes.made_by(node) {
        put_need(alloc, need, &mut out)?;
    }
    Ok(out)
}

/// The same of the last node of a tree that begins at a place.
fn chain_at(alloc: Global, tree: &Tree, at: usize) -> Result<String, AllocError>
    requires { Lawful tree.now }
{
    let Some(node) = node_at(tree, at) else {
        return String::from_str(alloc, "no node");
    };
    match scopes_of(alloc, tree)? {
        Ok(scopes) => chain(alloc, &scopes, node),
        Err(fault) => Ok(fault),
    }
}

/// Whether a source is answered so.
fn is_answered(alloc: Global, marked: &str, wanted: &str) -> Result<bool, AllocError> {
    let (source, at) = unmarked(alloc, marked)?;
    match tree_of(alloc, source.as_bytes())? {
        Some(tree) => Ok(chain_at(alloc, &tree, at)?.as_str() == wanted),
        None => Ok(false),
    }
}

/// The first row that is answered otherwise.
fn first_misanswered(alloc: Global) -> Result<Option<&'static str>, AllocError> {
    for row in ROWS.split_terminator('¶') {
        let Some((source, wanted)) = row.split_once('→') else {
            return Ok(Some(row));
        };
        if !is_answered(alloc, source, wanted)? {
            return Ok(Some(row));
        }
    }
    Ok(None)
}

#[test]
fn gives_chains(rt: HostRuntime) -> Result<(), Fail> {
    assert_eq!(rt; first_misanswered(rt.alloc())?, None);
    Ok(())
}

/// The scope of the script of a source, as text.
fn top(alloc: Global, source: &str) -> Result<String, AllocError> {
    let mut out = String::new(alloc);
    if let Some(tree) = tree_of(alloc, source.as_bytes())? {
        if let Ok(scopes) = scopes_of(alloc, &tree)? {
            put_need(alloc, scopes.top(), &mut out)?;
        }
    }
    Ok(out)
}

#[test]
fn gives_the_scope_of_the_script(rt: HostRuntime) -> Result<(), Fail> {
    assert_eq!(rt; top(rt.alloc(), "")?.as_str(), "Script 0 ");
    let source = "let a; const { b, c } = a; { let d; } function f() {}";
    assert_eq!(rt; top(rt.alloc(), source)?.as_str(), "Script 4 ");
    Ok(())
}
