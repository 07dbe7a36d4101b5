//! Sources with their node tables, one at least for each production, and sources that have none.
//! Each row was written by hand from the grammar: the statements, then each node with the place of
//! its phrase, its production, its children's numbers and the names with their places.

use super::answer;
use std::alloc::{AllocError, Global};
use std::test::Fail;

/// Sources, and behind `→` what they are, each row with `¶` at its end.
const TREES: &str = "\
→[]¶\
a;→[0] | 0 Expression 1 | 0 Name a¶\
let a, b = 1;→[0] | 0 Let a@4 b@7=1 | 11 Number 1¶\
const a = 1, { b, c } = d;→[0] | 0 Const a@6=1 {b@15 c@18}=2 | 10 Number 1 | 24 Name d¶\
const { b, } = d→[0] | 0 Const {b@8}=1 | 15 Name d¶\
function f(a, b) { ; }→[0] | 0 Function f@9 (a@11 b@14) [1] | 19 Empty¶\
function f() {}→[0] | 0 Function f@9 () []¶\
{ ; }→[0] | 0 Block [1] | 2 Empty¶\
;→[0] | 0 Empty¶\
if (a) ;→[0] | 0 If 1 2 | 4 Name a | 7 Empty¶\
if (a) ; else ;→[0] | 0 IfElse 1 2 3 | 4 Name a | 7 Empty | 14 Empty¶\
if (a) if (b) ; else ;→[0] | 0 If 1 2 | 4 Name a | 7 IfElse 3 4 5 | 11 Name b | 14 Empty | 21 Empty¶\
while (a) ;→[0] | 0 While 1 2 | 7 Name a | 10 Empty¶\
for (;;) ;→[0] | 0 For - - - 1 | 9 Empty¶\
for (a; b; c) ;→[0] | 0 For 1 2 3 4 | 5 Name a | 8 Name b | 11 Name c | 14 Empty¶\
for (; b;) ;→[0] | 0 For - 1 - 2 | 7 Name b | 11 Empty¶\
for (let i = 0, j; i; ) ;→[0] | 0 ForLet i@9=1 j@16 2 - 3 | 13 Number 0 | 19 Name i | 24 Empty¶\
for (const x of y) ;→[0] | 0 ForOf const x@11 1 2 | 16 Name y | 19 Empty¶\
for (let x of y) ;→[0] | 0 ForOf let x@9 1 2 | 14 Name y | 17 Empty¶\
for (let of of xs) ;→[0] | 0 ForOf let of@9 1 2 | 15 Name xs | 19 Empty¶\
break;→[0] | 0 Break¶\
continue;→[0] | 0 Continue¶\
break\n;→[0] | 0 Break¶\
return;→[0] | 0 Return -¶\
return a;→[0] | 0 Return 1 | 7 Name a¶\
return\na;→[0 1] | 0 Return - | 7 Expression 2 | 7 Name a¶\
throw a;→[0] | 0 Throw 1 | 6 Name a¶\
try {} catch {}→[0] | 0 TryCatch 1 2 - | 4 Block [] | 13 Block []¶\
try {} catch {} finally {}→[0] | 0 TryCatch 1 2 3 | 4 Block [] | 13 Block [] | 24 Block []¶\
try {} catch (e) {}→[0] | 0 TryCatchName 1 e@14 2 - | 4 Block [] | 17 Block []¶\
try {} catch (e) {} finally { ; }→[0] | 0 TryCatchName 1 e@14 2 3 | 4 Block [] | 17 Block [] | 28 Block [4] | 30 Empty¶\
try {} finally {}→[0] | 0 TryFinally 1 2 | 4 Block [] | 15 Block []¶\
x => x→[0] | 0 Expression 1 | 0 ArrowValue (x@0) 2 | 5 Name x¶\
(a, b) => a→[0] | 0 Expression 1 | 0 ArrowValue (a@1 b@4) 2 | 10 Name a¶\
() => 1→[0] | 0 Expression 1 | 0 ArrowValue () 2 | 6 Number 1¶\
x => { ; }→[0] | 0 Expression 1 | 0 ArrowBody (x@0) [2] | 7 Empty¶\
((a) => b)→[0] | 0 Expression 1 | 1 ArrowValue (a@2) 2 | 8 Name b¶\
a += 1→[0] | 0 Expression 1 | 0 AssignName a@0 Add 2 | 5 Number 1¶\
a = b = 1→[0] | 0 Expression 1 | 0 AssignName a@0 Plain 2 | 4 AssignName b@4 Plain 3 | 8 Number 1¶\
a.b >>>= 1→[0] | 0 Expression 1 | 0 Assign 2 UShr 4 | 0 Member 3 b | 0 Name a | 9 Number 1¶\
a + b = c→[0] | 0 Expression 1 | 0 Assign 2 Plain 5 | 0 Binary Add 3 4 | 0 Name a | 4 Name b | 8 Name c¶\
a ? b : c→[0] | 0 Expression 1 | 0 Conditional 2 3 4 | 0 Name a | 4 Name b | 8 Name c¶\
a - b - c→[0] | 0 Expression 1 | 0 Binary Sub 2 5 | 0 Binary Sub 3 4 | 0 Name a | 4 Name b | 8 Name c¶\
a||b&&c|d^e&f===g<h<<i+j*k→[0] | 0 Expression 1 | 0 Binary Or 2 3 | 0 Name a | 3 Binary And 4 5 | 3 Name b | 6 Binary BitOr 6 7 | 6 Name c | 8 Binary BitXor 8 9 | 8 Name d | 10 Binary BitAnd 10 11 | 10 Name e | 12 Binary Same 12 13 | 12 Name f | 16 Binary Less 14 15 | 16 Name g | 18 Binary Shl 16 17 | 18 Name h | 21 Binary Add 18 19 | 21 Name i | 23 Binary Mul 20 21 | 23 Name j | 25 Name k¶\
a*b+c<<d<e===f&g^h|i&&j||k→[0] | 0 Expression 1 | 0 Binary Or 2 21 | 0 Binary And 3 20 | 0 Binary BitOr 4 19 | 0 Binary BitXor 5 18 | 0 Binary BitAnd 6 17 | 0 Binary Same 7 16 | 0 Binary Less 8 15 | 0 Binary Shl 9 14 | 0 Binary Add 10 13 | 0 Binary Mul 11 12 | 0 Name a | 2 Name b | 4 Name c | 7 Name d | 9 Name e | 13 Name f | 15 Name g | 17 Name h | 19 Name i | 22 Name j | 25 Name k¶\
-a→[0] | 0 Expression 1 | 0 Unary Minus 2 | 1 Name a¶\
-a++→[0] | 0 Expression 1 | 0 Unary Minus 2 | 1 UpdateName Increment postfix a@1¶\
typeof !~+a→[0] | 0 Expression 1 | 0 Unary TypeOf 2 | 7 Unary Not 3 | 8 Unary BitNot 4 | 9 Unary Plus 5 | 10 Name a¶\
delete a.b→[0] | 0 Expression 1 | 0 Unary Delete 2 | 7 Member 3 b | 7 Name a¶\
a++→[0] | 0 Expression 1 | 0 UpdateName Increment postfix a@0¶\
--a→[0] | 0 Expression 1 | 0 UpdateName Decrement prefix a@2¶\
a.b++→[0] | 0 Expression 1 | 0 Update Increment postfix 2 | 0 Member 3 b | 0 Name a¶\
++-a→[0] | 0 Expression 1 | 0 Update Increment prefix 2 | 2 Unary Minus 3 | 3 Name a¶\
++a++→[0] | 0 Expression 1 | 0 Update Increment prefix 2 | 2 UpdateName Increment postfix a@2¶\
a\n++b→[0 2] | 0 Expression 1 | 0 Name a | 2 Expression 3 | 2 UpdateName Increment prefix b@4¶\
a.if→[0] | 0 Expression 1 | 0 Member 2 if | 0 Name a¶\
a[b]→[0] | 0 Expression 1 | 0 Index 2 3 | 0 Name a | 2 Name b¶\
f(a, b,)→[0] | 0 Expression 1 | 0 Call 2 [3 4] | 0 Name f | 2 Name a | 5 Name b¶\
const f = function () { return 1 }\n(2)→[0] | 0 Const f@6=1 | 10 Call 2 [5] | 10 FunctionValue () [3] | 24 Return 4 | 31 Number 1 | 36 Number 2¶\
new X→[0] | 0 Expression 1 | 0 New 2 [] | 4 Name X¶\
new a.B(1).c→[0] | 0 Expression 1 | 0 Member 2 c | 0 New 3 [5] | 4 Member 4 B | 4 Name a | 8 Number 1¶\
new (f())()→[0] | 0 Expression 1 | 0 New 2 [] | 5 Call 3 [] | 5 Name f¶\
0xff→[0] | 0 Expression 1 | 0 Number 255¶\
'a\\x41'→[0] | 0 Expression 1 | 0 Text aA¶\
[true, false, null, undefined,]→[0] | 0 Expression 1 | 0 Array [2 3 4 5] | 1 Bool true | 7 Bool false | 14 Null | 20 Undefined¶\
[]→[0] | 0 Expression 1 | 0 Array []¶\
({ a, 'b': 1, 2: c, [d]: e, if: f })→[0] | 0 Expression 1 | 1 Object a=2 'b'=3 2=4 [5]=6 if=7 | 3 Name a | 11 Number 1 | 17 Name c | 21 Name d | 25 Name e | 32 Name f¶\
({})→[0] | 0 Expression 1 | 1 Object¶\
(function (a) { ; })→[0] | 0 Expression 1 | 1 FunctionValue (a@11) [2] | 16 Empty¶\
(a + b) * c→[0] | 0 Expression 1 | 0 Binary Mul 2 5 | 1 Binary Add 3 4 | 1 Name a | 5 Name b | 10 Name c¶\
a * (b + c)→[0] | 0 Expression 1 | 0 Binary Mul 2 3 | 0 Name a | 5 Binary Add 4 5 | 5 Name b | 9 Name c¶\
((a).b)(c)→[0] | 0 Expression 1 | 0 Call 2 [4] | 1 Member 3 b | 2 Name a | 8 Name c¶\
((a) ? (b) : (c))→[0] | 0 Expression 1 | 1 Conditional 2 3 4 | 2 Name a | 8 Name b | 14 Name c¶\
";

/// Sources, and behind `→` why they have no tree, each row with `¶` at its end.
const FAULTS: &str = "\
throw\n1;→Syntax(6)¶\
let 1;→Syntax(4)¶\
a b→Syntax(2)¶\
{→Syntax(1)¶\
f(→Syntax(2)¶\
'a→Lex(Unclosed(0))¶\
a # b→Lex(BadByte(2))¶\
9007199254740992→Lex(BigLiteral(0))¶\
(a) = 1→Syntax(4)¶\
(a)++→Syntax(3)¶\
++(a)→Syntax(5)¶\
a++ ++→Syntax(4)¶\
delete a→Syntax(8)¶\
delete (a.b)→Syntax(12)¶\
x => {} (1)→Syntax(8)¶\
(x)\n=> x→Syntax(4)¶\
new new X()()→Syntax(4)¶\
for (const x = 1;;) ;→Syntax(5)¶\
[,]→Syntax(1)¶\
({,})→Syntax(2)¶\
f(,)→Syntax(2)¶\
(function (,) {})→Syntax(11)¶\
for (a\n;b\n) ;→Syntax(10)¶\
if (a) let b;→Syntax(7)¶\
if (a) else ;→Syntax(7)¶\
";

/// The first row that is answered otherwise.
fn first_misanswered(
    alloc: Global,
    rows: &'static str,
) -> Result<Option<&'static str>, AllocError> {
    for row in rows.split_terminator('¶') {
        let Some((source, wanted)) = row.split_once('→') else {
            return Ok(Some(row));
        };
        if answer(alloc, source.as_bytes())?.as_str() != wanted {
            return Ok(Some(row));
        }
    }
    Ok(None)
}

#[test]
fn gives_trees(rt: HostRuntime) -> Result<(), Fail> {
    assert_eq!(rt; first_misanswered(rt.alloc(), TREES)?, None);
    Ok(())
}

#[test]
fn tells_faults(rt: HostRuntime) -> Result<(), Fail> {
    assert_eq!(rt; first_misanswered(rt.alloc(), FAULTS)?, None);
    Ok(())
}
