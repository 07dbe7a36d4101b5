//! Early errors with their places. Node.js 20 says the same of each source, read as strict, but where a comment says
//! otherwise.

use super::{scopes_of, tree_of, unmarked};
use std::alloc::{AllocError, Global};
use std::test::Fail;

/// Sources with an early error at the mark, which `→` tells, each row with `¶` at its end. Where a function is the later
/// name, Node.js tells the first byte of its statement.
const FAULTS: &str = "\
let a; let |a;→Duplicate¶\
let a, |a;→Duplicate¶\
let a; const |a = 1;→Duplicate¶\
const a = 1, |a = 2;→Duplicate¶\
const { a, |a } = {};→Duplicate¶\
const { a } = {}, b = 1, { c, |b } = {};→Duplicate¶\
function f() {} let |f;→Duplicate¶\
let f; function |f() {}→Duplicate¶\
function f(a, |a) {}→Duplicate¶\
(a, b, |a) => 1;→Duplicate¶\
(function (a, |a) {});→Duplicate¶\
function f(a) { let |a; }→Duplicate¶\
a => { const |a = 1; };→Duplicate¶\
{ let a; let |a; }→Duplicate¶\
{ function f() {} function |f() {} }→Duplicate¶\
{ let f; function |f() {} }→Duplicate¶\
for (let i = 0, |i = 1; ; ) ;→Duplicate¶\
try {} catch (e) { let |e; }→Duplicate¶\
try {} catch (e) { function |e() {} }→Duplicate¶\
try {} catch (e) { const { a, |e } = {}; }→Duplicate¶\
try {} catch (e) { let a; const |a = 1; }→Duplicate¶\
|1 = 2;→BadTarget¶\
|'a' = 1;→BadTarget¶\
|null = 1;→BadTarget¶\
|a + (b) = c;→BadTarget¶\
a = |b + c = d;→BadTarget¶\
|typeof a = 1;→BadTarget¶\
a => |1 = 2;→BadTarget¶\
|a || b = c;→BadTarget¶\
|new X = 1;→BadTarget¶\
|1++;→BadTarget¶\
--|1;→BadTarget¶\
++|-a;→BadTarget¶\
++|a++;→BadTarget¶\
|break;→StrayJump¶\
|continue;→StrayJump¶\
|return;→StrayJump¶\
{ |return 1; }→StrayJump¶\
if (a) |break;→StrayJump¶\
function f() { |break; }→StrayJump¶\
while (a) { () => { |break; }; }→StrayJump¶\
while (a) { function f() { |continue; } }→StrayJump¶\
for (; ; ) (function () { |break; });→StrayJump¶\
for (const x of [() => { |break; }]) ;→StrayJump¶\
try { |continue; } finally {}→StrayJump¶\
";

/// The same, where Node.js has no early error: two functions of one name, or a function of the name of a parameter,
/// at the top of a script or function; a call as a target, which throws when it runs; a pattern that assigns.
const OWN_FAULTS: &str = "\
function f() {} function |f() {}→Duplicate¶\
function f(a) { function |a() {} }→Duplicate¶\
function f() { function g() {} function |g() {} }→Duplicate¶\
|f() = 1;→BadTarget¶\
|f()++;→BadTarget¶\
++|f();→BadTarget¶\
|[a] = b;→BadTarget¶\
";

/// Sources with several early errors, of which the one at the mark is told. Node.js tells the same one.
const SEVERAL: &str = "\
|break; { let b; let b; }→StrayJump¶\
{ let b; let |b; break; }→Duplicate¶\
|1 = () => { break; };→BadTarget¶\
a => { |break; 1 = 2; };→StrayJump¶\
if (|1 = 2) break;→BadTarget¶\
if (a) |break; 1 = 2;→StrayJump¶\
a = [|1++, 2++];→BadTarget¶\
let a, b, |b, a;→Duplicate¶\
let a, |a, a;→Duplicate¶\
(a, b, |b, a) => { break; };→Duplicate¶\
function f(a, |a) { let a; }→Duplicate¶\
try {} catch (e) { let b, |b, e; }→Duplicate¶\
for (let i = 0, |i = 1; ; ) { let a, a; }→Duplicate¶\
{ |return; } while (a) { continue; } break;→StrayJump¶\
while (a) { break; } |continue; break;→StrayJump¶\
";

/// The same, where Node.js tells the one that it comes to first in the source: here the names of the script come
/// before all else, and those of a block, function or catch before what stands in it.
const OWN_SEVERAL: &str = "\
break; let a; let |a;→Duplicate¶\
1 = 2; function f() {} let |f;→Duplicate¶\
{ let b, b; } let a, |a;→Duplicate¶\
{ break; let b; let |b; }→Duplicate¶\
function f(a) { 1 = 2; let |a; }→Duplicate¶\
try { break; } catch (e) { let |e; }→Duplicate¶\
try {} catch (e) { let |e, b, b; }→Duplicate¶\
";

/// Sources without an early error, each with `¶` at its end.
pub(super) const FINE: &str = "\
let a; { let a; }¶\
let a; function f(a) {}¶\
for (let i = 0; ; ) { let i; }¶\
for (const x of []) { let x; }¶\
try {} catch (e) { { let e; } }¶\
try { let e; } catch (e) {} finally { let e; }¶\
try { let a; } catch (e) { let a; } finally { let a; }¶\
function f(f) {}¶\
function f() { let f; }¶\
let a; try {} catch (a) {}¶\
a => { { let a; } };¶\
const f = function (a) { const g = a => a; };¶\
a = 1;¶\
a.b = 1;¶\
a[0] += 1;¶\
f().a = 1;¶\
a.b++;¶\
--a[0];¶\
new X().a = 1;¶\
while (a) break;¶\
for (; ; ) continue;¶\
for (let i = 0; ; ) { break; }¶\
for (const x of []) { if (x) continue; }¶\
function f() { return; }¶\
() => { return; };¶\
(function () { return 1; });¶\
function f() { while (a) { return; } }¶\
while (a) { () => { while (b) break; }; }¶\
while (a) { function f() { return; } }¶\
() => { { return; } };¶\
for (; ; ) { try { break; } finally { continue; } }¶\
";

/// Whether a source has this early error, as text, or none where this is empty.
fn tells(alloc: Global, source: &str, wanted: &str) -> Result<bool, AllocError> {
    let Some(tree) = tree_of(alloc, source.as_bytes())? else {
        return Ok(false);
    };
    Ok(match scopes_of(alloc, &tree)? {
        Ok(_) => wanted.is_empty(),
        Err(fault) => fault.as_str() == wanted,
    })
}

/// Whether a source has an early error of this kind at the mark.
fn tells_at_mark(alloc: Global, marked: &str, kind: &str) -> Result<bool, AllocError> {
    let (source, at) = unmarked(alloc, marked)?;
    let wanted = format!(in alloc; "{kind}({at})")?;
    tells(alloc, source.as_str(), wanted.as_str())
}

/// The first row whose early error is another.
fn first_mistold(alloc: Global, rows: &'static str) -> Result<Option<&'static str>, AllocError> {
    for row in rows.split_terminator('¶') {
        let Some((marked, kind)) = row.split_once('→') else {
            return Ok(Some(row));
        };
        if !tells_at_mark(alloc, marked, kind)? {
            return Ok(Some(row));
        }
    }
    Ok(None)
}

#[test]
fn tells_early_errors(rt: HostRuntime) -> Result<(), Fail> {
    assert_eq!(rt; first_mistold(rt.alloc(), FAULTS)?, None);
    assert_eq!(rt; first_mistold(rt.alloc(), OWN_FAULTS)?, None);
    Ok(())
}

#[test]
fn tells_the_first_of_several(rt: HostRuntime) -> Result<(), Fail> {
    assert_eq!(rt; first_mistold(rt.alloc(), SEVERAL)?, None);
    assert_eq!(rt; first_mistold(rt.alloc(), OWN_SEVERAL)?, None);
    Ok(())
}

/// The first source that is refused.
fn first_refused(alloc: Global) -> Result<Option<&'static str>, AllocError> {
    for source in FINE.split_terminator('¶') {
        if !tells(alloc, source, "")? {
            return Ok(Some(source));
        }
    }
    Ok(None)
}

#[test]
fn accepts_the_others(rt: HostRuntime) -> Result<(), Fail> {
    assert_eq!(rt; first_refused(rt.alloc())?, None);
    Ok(())
}
