//! Sources beside what Node.js says of each: `+` where `new vm.Script("'use strict';" + source)` is
//! made, `-` where it is refused. `node bench/beside_node.js` asks it again.

use snap_parse::{SourceFault, parse};
use std::alloc::{AllocError, Global};
use std::test::Fail;

/// The source has a tree.
fn has_tree(alloc: Global, source: &str) -> Result<bool, AllocError> {
    match parse(alloc, source.as_bytes()) {
        Ok(_) => Ok(true),
        Err(SourceFault::NoMemory) => Err(AllocError),
        Err(_) => Ok(false),
    }
}

/// Sources that have a tree exactly where Node.js takes them.
const SAME: &str = "\
+a¶\
+a;¶\
+a;;¶\
+;¶\
+{}¶\
+{;}¶\
+{a}¶\
+{a;b}¶\
+a\nb¶\
+a\n+b¶\
+a\n(b)¶\
+a\n[b]¶\
+a\n++b¶\
+a\n--b¶\
+a\n.b¶\
+let a¶\
+let a = 1¶\
+let a, b¶\
+let a = 1, b = 2;¶\
+let a\nlet b¶\
+const a = 1¶\
+const { a } = b¶\
+const { a, b } = c¶\
+const { a, } = b¶\
+const a = 1, { b } = c¶\
+function f() {}¶\
+function f(a) {}¶\
+function f(a, b) { a }¶\
+function f(a,) {}¶\
+function f() {} function g() {}¶\
+function f() { return }¶\
+function f() { return a }¶\
+function f() { return\na }¶\
+function f() { return; }¶\
+if (a) b¶\
+if (a) b; else c¶\
+if (a) {} else {}¶\
+if (a) ; else if (b) ; else ;¶\
+if (a) if (b) c; else d¶\
+while (a) b¶\
+while (a) { b }¶\
+while (a) break¶\
+while (a) continue¶\
+while (a) { break; }¶\
+for (;;) { break }¶\
+for (a; b; c) ;¶\
+for (a;;) ;¶\
+for (; a;) ;¶\
+for (;; a) ;¶\
+for (let i = 0; i < 3; i++) ;¶\
+for (let i, j; ; ) ;¶\
+for (let a of b) ;¶\
+for (const a of b) { a }¶\
+for (let of of xs) ;¶\
+throw a¶\
+throw a + b;¶\
+try {} catch {}¶\
+try {} catch (e) {}¶\
+try {} finally {}¶\
+try {} catch {} finally {}¶\
+try {} catch (e) { e } finally { }¶\
+x => x¶\
+x => x + 1¶\
+x => {}¶\
+x => { return x }¶\
+() => 1¶\
+(a, b) => a¶\
+(a, b,) => a¶\
+() => {}¶\
+x => y => z¶\
+(x) => ({})¶\
+f(x => x)¶\
+[x => x]¶\
+a = b¶\
+a = b = c¶\
+a += b¶\
+a -= b¶\
+a *= b¶\
+a /= b¶\
+a %= b¶\
+a <<= b¶\
+a >>= b¶\
+a >>>= b¶\
+a &= b¶\
+a ^= b¶\
+a |= b¶\
+a.b = c¶\
+a[b] = c¶\
+a.b.c += d¶\
+a ? b : c¶\
+a ? b : c ? d : e¶\
+a ? b = c : d = e¶\
+a || b && c¶\
+a | b ^ c & d¶\
+a === b !== c¶\
+a < b > c <= d >= e¶\
+a << b >> c >>> d¶\
+a + b - c¶\
+a * b / c % d¶\
+a - -b¶\
+a + +b¶\
+a - (b - c)¶\
+!a¶\
+~a¶\
+-a¶\
++a¶\
+typeof a¶\
+delete a.b¶\
+delete a[b]¶\
+typeof typeof a¶\
+!!a¶\
+-a++¶\
+a++¶\
+a--¶\
+++a¶\
+--a¶\
+a.b++¶\
+++a.b¶\
+a[b]--¶\
+a.b¶\
+a.if¶\
+a.b.c¶\
+a[b]¶\
+a[b][c]¶\
+a()¶\
+a(b)¶\
+a(b, c)¶\
+a(b, c,)¶\
+a.b()¶\
+a()()¶\
+a().b¶\
+new A¶\
+new A()¶\
+new A(b, c)¶\
+new A.B¶\
+new A.B()¶\
+new A().b¶\
+new (a())¶\
+new (a.b)()¶\
+yield_ => 1¶\
+new A[b]¶\
+(a)¶\
+((a))¶\
+(((a + b)))¶\
+(a)(b)¶\
+(a).b¶\
+(a, b) => { }¶\
+0¶\
+7¶\
+0x1F¶\
+'a'¶\
+\"a\"¶\
+''¶\
+true¶\
+false¶\
+null¶\
+undefined¶\
+[]¶\
+[a]¶\
+[a, b]¶\
+[a, b,]¶\
+[[]]¶\
+({})¶\
+({ a })¶\
+({ a, b })¶\
+({ a, })¶\
+({ a: b })¶\
+({ 'a': b })¶\
+({ 1: b })¶\
+({ [a]: b })¶\
+({ if: b })¶\
+({ a: { b: c } })¶\
+(function () {})¶\
+(function (a) { return a })¶\
+a = function () {}¶\
+a = { }¶\
+f(function () {})¶\
+/* a */ b // c¶\
+a /* \n */ ++\nb¶\
+a => {}\n(b)¶\
+var_ = 1¶\
+'\\x41\\u0042\\n'¶\
+a\n/b/c¶\
+a\t/* b\nc */(d)¶\
+x = { __proto__: a }¶\
+'\\v\\0'¶\
+new A()()¶\
-a b¶\
-a ++ b¶\
-1 2¶\
-(¶\
-)¶\
-[¶\
-]¶\
-{¶\
-}¶\
-(a¶\
-a)¶\
-[a¶\
-{a¶\
-a +¶\
-+¶\
-a ? b¶\
-a ? b :¶\
-a :¶\
-= a¶\
-a.¶\
-a..b¶\
-a[¶\
-a[]¶\
-a(¶\
-a(,)¶\
-a(b,,c)¶\
-,¶\
-a, ¶\
-[,a¶\
-({ ,})¶\
-({ a b })¶\
-({ a: })¶\
-({ [a] })¶\
-({ 'a' })¶\
-({ 1 })¶\
-({ if })¶\
-let¶\
-let 1¶\
-let let¶\
-let a b¶\
-let a =¶\
-const a¶\
-const¶\
-const { a }¶\
-const { } =¶\
-const { a b } = c¶\
-const { a: } = b¶\
-function¶\
-function f¶\
-function f(¶\
-function f()¶\
-function f() {¶\
-function () {}¶\
-function f(1) {}¶\
-function f(a b) {}¶\
-function f(,) {}¶\
-if¶\
-if (a)¶\
-if a b¶\
-if () a¶\
-if (a) else b¶\
-if (a) let b¶\
-if (a) const b = 1¶\
-else¶\
-while¶\
-while (a)¶\
-while () a¶\
-while (a) let b¶\
-for¶\
-for (¶\
-for (;;)¶\
-for (;) ;¶\
-for (a;b) ;¶\
-for (a\nb;c) ;¶\
-for (const a = 1;;) let b¶\
-for (a of) ;¶\
-for (let a of b, c) ;¶\
-for (let a of b) let c¶\
-break a b¶\
-return return¶\
-throw¶\
-throw\na¶\
-throw ;¶\
-try¶\
-try {}¶\
-try {} catch¶\
-try {} catch () {}¶\
-try {} catch (e¶\
-try a catch (e) {}¶\
-catch {}¶\
-finally {}¶\
-x =>¶\
-=> x¶\
-x\n=> x¶\
-(x)\n=> x¶\
-x => {} (1)¶\
-x => {} + 1¶\
-a + x => x¶\
-(x + y) => z¶\
-(1) => a¶\
-(a) = ¶\
-a++ ++¶\
-a ++ --¶\
-a++b¶\
-++¶\
-new¶\
-new.a b¶\
-new ()¶\
-delete¶\
-typeof¶\
-!¶\
-a b c¶\
-1a¶\
-'a¶\
-\"a¶\
-01¶\
-a\\u{}¶\
-@¶\
-#¶\
-a ? b : c : d¶\
-(function) ¶\
-(function (1) {})¶\
-a === ¶\
-a =! = b¶\
-...¶\
-(...)¶\
-new.target_¶\
-'\\8'¶\
-a = ¶\
";

/// Sources that Node.js takes and that have no tree, since the language lacks what they use: other
/// declarations and statements, the comma operator, `**`, `==`, `?.`, templates, classes, generators,
/// patterns but that of a `const`, values of parameters, `this`, numbers with a point, elements that are
/// left out, functions with a name as a value, a `new` behind a `new`, and parentheses round a target.
const NARROWER: &str = "\
+var a¶\
+var a = 1, b¶\
+let [a] = b¶\
+let { a } = b¶\
+const [a] = b¶\
+const { a: b } = c¶\
+const { a = 1 } = b¶\
+const { ...a } = b¶\
+class A {}¶\
+a => [b, c], d¶\
+a, b¶\
+a ** b¶\
+a == b¶\
+a != b¶\
+a ?? b¶\
+a?.b¶\
+a &&= b¶\
+a ||= b¶\
+a ??= b¶\
+a **= b¶\
+a in b¶\
+a instanceof b¶\
+void a¶\
+this¶\
+this.a¶\
+`a`¶\
+a`b`¶\
+/a/¶\
+1.5¶\
+1e3¶\
+1n¶\
+0b1¶\
+0o7¶\
+.5¶\
+'\\u{41}'¶\
+do a; while (b)¶\
+switch (a) {}¶\
+a: b¶\
+a: while (b) break a¶\
+debugger¶\
+with_ = async () => 1¶\
+async function f() {}¶\
+function* f() {}¶\
+function f(a = 1) {}¶\
+function f(...a) {}¶\
+function f({ a }) {}¶\
+(a = 1) => a¶\
+(...a) => a¶\
+({ a }) => a¶\
+for (a of b) ;¶\
+for (a in b) ;¶\
+for (let a in b) ;¶\
+for (let [a] of b) ;¶\
+for (const a = 1; ;) ;¶\
+for (var a = 1; ;) ;¶\
+(function f() {})¶\
+a(...b)¶\
+[...a]¶\
+({ ...a })¶\
+({ a() {} })¶\
+({ get a() { return 1 } })¶\
+({ async a() {} })¶\
+[a, , b]¶\
+[,]¶\
+[, a]¶\
+const { } = a¶\
+({ 'use': 1 }).a?.[b]¶\
+a = class {}¶\
+try {} catch ({ a }) {}¶\
+delete a()¶\
+delete 1¶\
+delete (a.b)¶\
+(a) = 1¶\
+(a)++¶\
+++(a)¶\
+(a.b) = 1¶\
+(a.b)++¶\
+new new A()()¶\
+new new A()¶\
+é¶\
+a\\u0062¶\
+'é'¶\
+import('a')¶\
+(a, b)¶\
";

/// Sources that have a tree whatever Node.js says of them: names that are declared twice, jumps that
/// stray and what is no target are faults of the tree, and are judged after it.
const TREE_ALONE: &str = "\
-let a; let a¶\
-let a; const a = 1¶\
-const a = 1, a = 2¶\
-function f() { let a; let a }¶\
-let f; function f() {}¶\
-(a, a) => 1¶\
-function f(a, a) {}¶\
-try {} catch (e) { let e }¶\
-break¶\
-continue¶\
-{ break }¶\
-while (a) { () => { break } }¶\
-if (a) continue¶\
-a + b = c¶\
--a = b¶\
+a() = b¶\
-1 = a¶\
-a++ = b¶\
+a()++¶\
+++a()¶\
-1++¶\
-++1¶\
---a--¶\
--a++ = b¶\
+[a] = b¶\
+({ a } = b)¶\
-for (let a, a;;) ;¶\
-++a++¶\
-return¶\
-return a¶\
-a + b += c¶\
-!a = b¶\
-{ continue }¶\
-function f() { break }¶\
";

/// Whether a row is judged so: whether its source has a tree, where Node.js takes it and where it refuses it.
fn is_judged(alloc: Global, row: &str, taken: bool, refused: bool) -> Result<bool, AllocError> {
    if let Some(source) = row.strip_prefix('+') {
        return Ok(has_tree(alloc, source)? == taken);
    }
    match row.strip_prefix('-') {
        Some(source) => Ok(has_tree(alloc, source)? == refused),
        None => Ok(false),
    }
}

/// The first row that is judged otherwise, where the sources that Node.js takes are to have a tree or not, and those
/// that it refuses.
fn first_misjudged(
    alloc: Global,
    rows: &'static str,
    taken: bool,
    refused: bool,
) -> Result<Option<&'static str>, AllocError> {
    for row in rows.split_terminator('¶') {
        if !is_judged(alloc, row, taken, refused)? {
            return Ok(Some(row));
        }
    }
    Ok(None)
}

#[test]
fn same_as_node(rt: HostRuntime) -> Result<(), Fail> {
    assert_eq!(rt; first_misjudged(rt.alloc(), SAME, true, false)?, None);
    Ok(())
}

#[test]
fn narrower_than_node(rt: HostRuntime) -> Result<(), Fail> {
    assert_eq!(rt; first_misjudged(rt.alloc(), NARROWER, false, false)?, None);
    Ok(())
}

#[test]
fn trees_whatever_node_says(rt: HostRuntime) -> Result<(), Fail> {
    assert_eq!(rt; first_misjudged(rt.alloc(), TREE_ALONE, true, true)?, None);
    Ok(())
}
