//! Operators beside what Node.js gives of the same values: `node bench/operators.js` asks it again.
//!
//! A row is a question and its answer. A node is written as # with its number. The profile differs from Node.js
//! in three ways, and each has a table of its own:
//!
//! - it has no -0 and gives 0 there (`MINUS_ZERO`);
//! - a result that is no safe integer, as a fraction, an infinity or NaN, stops evaluation with `NotSafeInteger`
//!   (`NOT_SAFE`);
//! - undefined, a text and a node are never converted to a number, nor a node to a text: evaluation stops with
//!   `NotInProfile` (`NOT_IN_PROFILE`).

ghost use Rattle.std.specs.Prelude.{length};
ghost use Rattle.snap_action.specs.Gives.{Owns, cut_of};
ghost use Rattle.snap_graph.specs.Values.{IsValue};

use super::samples::{binary_op, operand_of, unary_op};
use heap_words::{Refused, is_value_of, last_node, value_of};
use snap_action::Abrupt;
use snap_apply::{apply_binary, apply_unary};
use snap_base::Stop;
use snap_graph::Value;
use snap_oper::{BinaryOp, OperFault, UnaryOp, binary, unary};
use snap_store::{PlainStore, Store};
use snap_text::OwnKeys;
use std::alloc::Global;
use std::test::Fail;

/// Node.js gives these answers.
const SAME: &str = "\
1 + 2 = 3
7 + 2 = 9
7 + -2 = 5
-7 + 2 = -5
-7 + -2 = -9
6 + 3 = 9
6 + -3 = 3
-6 + 3 = -3
0 + 5 = 5
5 + 0 = 5
0 + 0 = 0
0 + -5 = -5
-5 + 0 = -5
9007199254740991 + -1 = 9007199254740990
-9007199254740991 + 1 = -9007199254740990
-9007199254740991 + 9007199254740991 = 0
94906265 + 94906265 = 189812530
94906266 + 94906266 = 189812532
94906266 + -94906266 = 0
3037000500 + 3037000500 = 6074001000
4503599627370496 + 2 = 4503599627370498
4503599627370495 + 2 = 4503599627370497
true + 2 = 3
2 + true = 3
null + 3 = 3
3 + null = 3
2 + false = 2
true + true = 2
1 - 2 = -1
7 - 2 = 5
7 - -2 = 9
-7 - 2 = -9
-7 - -2 = -5
6 - 3 = 3
6 - -3 = 9
-6 - 3 = -9
0 - 5 = -5
5 - 0 = 5
0 - 0 = 0
0 - -5 = 5
-5 - 0 = -5
9007199254740991 - 1 = 9007199254740990
-9007199254740991 - -1 = -9007199254740990
9007199254740991 - 9007199254740991 = 0
9007199254740991 - 9007199254740990 = 1
1 - 9007199254740991 = -9007199254740990
94906265 - 94906265 = 0
94906266 - 94906266 = 0
94906266 - -94906266 = 189812532
3037000500 - 3037000500 = 0
4503599627370496 - 2 = 4503599627370494
4503599627370495 - 2 = 4503599627370493
true - 2 = -1
2 - true = 1
null - 3 = -3
3 - null = 3
2 - false = 2
true - true = 0
1 * 2 = 2
7 * 2 = 14
7 * -2 = -14
-7 * 2 = -14
-7 * -2 = 14
6 * 3 = 18
6 * -3 = -18
-6 * 3 = -18
0 * 5 = 0
5 * 0 = 0
0 * 0 = 0
9007199254740991 * 1 = 9007199254740991
9007199254740991 * -1 = -9007199254740991
-9007199254740991 * 1 = -9007199254740991
-9007199254740991 * -1 = 9007199254740991
1 * 9007199254740991 = 9007199254740991
94906265 * 94906265 = 9007199136250225
4503599627370495 * 2 = 9007199254740990
true * 2 = 2
2 * true = 2
null * 3 = 0
3 * null = 0
2 * false = 0
true * true = 1
6 / 3 = 2
6 / -3 = -2
-6 / 3 = -2
0 / 5 = 0
9007199254740991 / 1 = 9007199254740991
9007199254740991 / -1 = -9007199254740991
-9007199254740991 / 1 = -9007199254740991
-9007199254740991 / -1 = 9007199254740991
9007199254740991 / 9007199254740991 = 1
-9007199254740991 / 9007199254740991 = -1
94906265 / 94906265 = 1
94906266 / 94906266 = 1
94906266 / -94906266 = -1
3037000500 / 3037000500 = 1
4503599627370496 / 2 = 2251799813685248
2 / true = 2
null / 3 = 0
true / true = 1
1 % 2 = 1
7 % 2 = 1
7 % -2 = 1
-7 % 2 = -1
-7 % -2 = -1
6 % 3 = 0
6 % -3 = 0
0 % 5 = 0
0 % -5 = 0
9007199254740991 % 1 = 0
9007199254740991 % -1 = 0
9007199254740991 % 9007199254740991 = 0
9007199254740991 % 9007199254740990 = 1
1 % 9007199254740991 = 1
94906265 % 94906265 = 0
94906266 % 94906266 = 0
94906266 % -94906266 = 0
3037000500 % 3037000500 = 0
4503599627370496 % 2 = 0
4503599627370495 % 2 = 1
true % 2 = 1
2 % true = 0
null % 3 = 0
true % true = 0
5 & 3 = 1
-1 & 255 = 255
4294967296 & 5 = 0
2147483648 & 1 = 0
-2147483649 & -1 = 2147483647
9007199254740991 & 9007199254740991 = -1
-9007199254740991 & 1 = 1
4294967295 & -1 = -1
-4294967297 & 3 = 3
true & 3 = 1
null & 7 = 0
6 & false = 0
5 ^ 3 = 6
-1 ^ 255 = -256
4294967296 ^ 5 = 5
2147483648 ^ 1 = -2147483647
-2147483649 ^ -1 = -2147483648
9007199254740991 ^ 9007199254740991 = 0
-9007199254740991 ^ 1 = 0
4294967295 ^ -1 = 0
-4294967297 ^ 3 = -4
true ^ 3 = 2
null ^ 7 = 7
6 ^ false = 6
5 | 3 = 7
-1 | 255 = -1
4294967296 | 5 = 5
2147483648 | 1 = -2147483647
-2147483649 | -1 = -1
9007199254740991 | 9007199254740991 = -1
-9007199254740991 | 1 = 1
4294967295 | -1 = -1
-4294967297 | 3 = -1
true | 3 = 3
null | 7 = 7
6 | false = 6
1 << 0 = 1
1 << 31 = -2147483648
1 << 32 = 1
1 << 33 = 2
1 << 63 = -2147483648
1 << -1 = -2147483648
-1 << 0 = -1
-1 << 1 = -2
-1 << 31 = -2147483648
-1 << 32 = -1
-4 << 1 = -8
5 << 1 = 10
2147483648 << 1 = 0
4294967296 << 1 = 0
4294967297 << 1 = 2
-2147483648 << 0 = -2147483648
-2147483649 << 4 = -16
-9007199254740991 << 4 = 16
9007199254740991 << 4 = -16
3 << 4294967297 = 6
3 << 4294967327 = -2147483648
true << 1 = 2
-1 << null = -1
8 << true = 16
1 >> 0 = 1
1 >> 31 = 0
1 >> 32 = 1
1 >> 33 = 0
1 >> 63 = 0
1 >> -1 = 0
-1 >> 0 = -1
-1 >> 1 = -1
-1 >> 31 = -1
-1 >> 32 = -1
-4 >> 1 = -2
5 >> 1 = 2
2147483648 >> 1 = -1073741824
4294967296 >> 1 = 0
4294967297 >> 1 = 0
-2147483648 >> 0 = -2147483648
-2147483649 >> 4 = 134217727
-9007199254740991 >> 4 = 0
9007199254740991 >> 4 = -1
3 >> 4294967297 = 1
3 >> 4294967327 = 0
true >> 1 = 0
-1 >> null = -1
8 >> true = 4
1 >>> 0 = 1
1 >>> 31 = 0
1 >>> 32 = 1
1 >>> 33 = 0
1 >>> 63 = 0
1 >>> -1 = 0
-1 >>> 0 = 4294967295
-1 >>> 1 = 2147483647
-1 >>> 31 = 1
-1 >>> 32 = 4294967295
-4 >>> 1 = 2147483646
5 >>> 1 = 2
2147483648 >>> 1 = 1073741824
4294967296 >>> 1 = 0
4294967297 >>> 1 = 0
-2147483648 >>> 0 = 2147483648
-2147483649 >>> 4 = 134217727
-9007199254740991 >>> 4 = 0
9007199254740991 >>> 4 = 268435455
3 >>> 4294967297 = 1
3 >>> 4294967327 = 0
true >>> 1 = 0
-1 >>> null = 4294967295
8 >>> true = 4
1 < 2 = true
2 < 1 = false
2 < 2 = false
-1 < 0 = true
-2 < -1 = true
10 < 9 = false
-9007199254740991 < 9007199254740991 = true
'10' < '9' = true
'a' < 'b' = true
'a' < 'a' = false
'a' < 'ab' = true
'ab' < 'b' = true
'' < 'a' = true
'' < '' = false
'Z' < 'a' = true
'é' < 'z' = false
'😀' < '｡' = true
'😀' < '😁' = true
true < 0 = false
null < 1 = true
null < null = false
false < null = false
1 < true = false
1 > 2 = false
2 > 1 = true
2 > 2 = false
-1 > 0 = false
-2 > -1 = false
10 > 9 = true
-9007199254740991 > 9007199254740991 = false
'10' > '9' = false
'a' > 'b' = false
'a' > 'a' = false
'a' > 'ab' = false
'ab' > 'b' = false
'' > 'a' = false
'' > '' = false
'Z' > 'a' = false
'é' > 'z' = true
'😀' > '｡' = false
'😀' > '😁' = false
true > 0 = true
null > 1 = false
null > null = false
false > null = false
1 > true = false
1 <= 2 = true
2 <= 1 = false
2 <= 2 = true
-1 <= 0 = true
-2 <= -1 = true
10 <= 9 = false
-9007199254740991 <= 9007199254740991 = true
'10' <= '9' = true
'a' <= 'b' = true
'a' <= 'a' = true
'a' <= 'ab' = true
'ab' <= 'b' = true
'' <= 'a' = true
'' <= '' = true
'Z' <= 'a' = true
'é' <= 'z' = false
'😀' <= '｡' = true
'😀' <= '😁' = true
true <= 0 = false
null <= 1 = true
null <= null = true
false <= null = true
1 <= true = true
1 >= 2 = false
2 >= 1 = true
2 >= 2 = true
-1 >= 0 = false
-2 >= -1 = false
10 >= 9 = true
-9007199254740991 >= 9007199254740991 = false
'10' >= '9' = false
'a' >= 'b' = false
'a' >= 'a' = true
'a' >= 'ab' = false
'ab' >= 'b' = false
'' >= 'a' = false
'' >= '' = true
'Z' >= 'a' = false
'é' >= 'z' = true
'😀' >= '｡' = false
'😀' >= '😁' = false
true >= 0 = true
null >= 1 = false
null >= null = true
false >= null = true
1 >= true = true
1 === 1 = true
1 === 2 = false
1 === -1 = false
'1' === 1 = false
1 === '1' = false
'a' === 'a' = true
'a' === 'b' = false
'a' === 'aa' = false
'ab' === 'ba' = false
'' === '' = true
'' === 0 = false
null === undefined = false
undefined === undefined = true
null === null = true
null === 0 = false
undefined === 'undefined' = false
true === true = true
true === false = false
false === false = true
true === 1 = false
0 === false = false
#70 === #70 = true
#70 === #71 = false
#70 === null = false
#70 === 70 = false
'#70' === #70 = false
9007199254740991 === 9007199254740991 = true
9007199254740991 === 9007199254740990 = false
1 !== 1 = false
1 !== 2 = true
1 !== -1 = true
'1' !== 1 = true
1 !== '1' = true
'a' !== 'a' = false
'a' !== 'b' = true
'a' !== 'aa' = true
'ab' !== 'ba' = true
'' !== '' = false
'' !== 0 = true
null !== undefined = true
undefined !== undefined = false
null !== null = false
null !== 0 = true
undefined !== 'undefined' = true
true !== true = false
true !== false = true
false !== false = false
true !== 1 = true
0 !== false = true
#70 !== #70 = false
#70 !== #71 = true
#70 !== null = true
#70 !== 70 = true
'#70' !== #70 = true
9007199254740991 !== 9007199254740991 = false
9007199254740991 !== 9007199254740990 = true
'a' + 'b' = 'ab'
'' + '' = ''
'' + 'a' = 'a'
'1' + 2 = '12'
1 + '2' = '12'
'1' + '2' = '12'
'a' + undefined = 'aundefined'
undefined + 'a' = 'undefineda'
'a' + null = 'anull'
null + 'a' = 'nulla'
'a' + true = 'atrue'
false + 'a' = 'falsea'
'a' + -12 = 'a-12'
9007199254740991 + '' = '9007199254740991'
-9007199254740991 + 'x' = '-9007199254740991x'
'0' + 0 = '00'
'é' + '😀' = 'é😀'
'#70' + 'a' = '#70a'
'1' + 1 = '11'
1 + '1' = '11'
'1' + '1' = '11'
5 + '' = '5'
'1' < '1' = false
'1' >= '1' = true
+ 0 = 0
+ 1 = 1
+ -1 = -1
+ 5 = 5
+ -6 = -6
+ 2147483647 = 2147483647
+ 2147483648 = 2147483648
+ -2147483648 = -2147483648
+ -2147483649 = -2147483649
+ 4294967295 = 4294967295
+ 4294967296 = 4294967296
+ 9007199254740991 = 9007199254740991
+ -9007199254740991 = -9007199254740991
+ true = 1
+ false = 0
+ null = 0
- 1 = -1
- -1 = 1
- 5 = -5
- -6 = 6
- 2147483647 = -2147483647
- 2147483648 = -2147483648
- -2147483648 = 2147483648
- -2147483649 = 2147483649
- 4294967295 = -4294967295
- 4294967296 = -4294967296
- 9007199254740991 = -9007199254740991
- -9007199254740991 = 9007199254740991
- true = -1
~ 0 = -1
~ 1 = -2
~ -1 = 0
~ 5 = -6
~ -6 = 5
~ 2147483647 = -2147483648
~ 2147483648 = 2147483647
~ -2147483648 = 2147483647
~ -2147483649 = -2147483648
~ 4294967295 = 0
~ 4294967296 = -1
~ 9007199254740991 = 0
~ -9007199254740991 = -2
~ true = -2
~ false = -1
~ null = -1
! 0 = true
! 1 = false
! -1 = false
! 5 = false
! -6 = false
! 2147483647 = false
! 2147483648 = false
! -2147483648 = false
! -2147483649 = false
! 4294967295 = false
! 4294967296 = false
! 9007199254740991 = false
! -9007199254740991 = false
! true = false
! false = true
! null = true
! undefined = true
! '' = true
! 'a' = false
! '0' = false
! '1' = false
! #70 = false
";

/// Node.js gives -0, which the profile does not have: 0 stands for it.
const MINUS_ZERO: &str = "\
0 * -5 = 0
-5 * 0 = 0
0 / -5 = 0
-6 % 3 = 0
-9007199254740991 % 1 = 0
-9007199254740991 % -1 = 0
-9007199254740991 % 9007199254740991 = 0
- 0 = 0
- false = 0
- null = 0
";

/// Node.js gives a fraction, a number that is no safe integer, an infinity or NaN.
const NOT_SAFE: &str = "\
9007199254740991 + 1 = NotSafeInteger
-9007199254740991 + -1 = NotSafeInteger
9007199254740991 + 9007199254740991 = NotSafeInteger
9007199254740991 + 9007199254740990 = NotSafeInteger
1 + 9007199254740991 = NotSafeInteger
9007199254740991 - -1 = NotSafeInteger
-9007199254740991 - 1 = NotSafeInteger
-9007199254740991 - 9007199254740991 = NotSafeInteger
9007199254740991 * 9007199254740991 = NotSafeInteger
-9007199254740991 * 9007199254740991 = NotSafeInteger
9007199254740991 * 9007199254740990 = NotSafeInteger
94906266 * 94906266 = NotSafeInteger
94906266 * -94906266 = NotSafeInteger
3037000500 * 3037000500 = NotSafeInteger
4503599627370496 * 2 = NotSafeInteger
1 / 2 = NotSafeInteger
7 / 2 = NotSafeInteger
7 / -2 = NotSafeInteger
-7 / 2 = NotSafeInteger
-7 / -2 = NotSafeInteger
5 / 0 = NotSafeInteger
0 / 0 = NotSafeInteger
-5 / 0 = NotSafeInteger
9007199254740991 / 9007199254740990 = NotSafeInteger
1 / 9007199254740991 = NotSafeInteger
4503599627370495 / 2 = NotSafeInteger
true / 2 = NotSafeInteger
3 / null = NotSafeInteger
2 / false = NotSafeInteger
5 % 0 = NotSafeInteger
0 % 0 = NotSafeInteger
-5 % 0 = NotSafeInteger
3 % null = NotSafeInteger
2 % false = NotSafeInteger
";

/// Node.js converts undefined, a text or a node to a number, or a node to a text, and goes on.
const NOT_IN_PROFILE: &str = "\
undefined + 1 = NotInProfile
1 + undefined = NotInProfile
undefined + undefined = NotInProfile
null + undefined = NotInProfile
#70 + 1 = NotInProfile
1 + #70 = NotInProfile
#70 + #71 = NotInProfile
'a' + #70 = NotInProfile
#70 + 'a' = NotInProfile
undefined - 1 = NotInProfile
1 - undefined = NotInProfile
undefined - undefined = NotInProfile
'1' - 1 = NotInProfile
1 - '1' = NotInProfile
'1' - '1' = NotInProfile
null - undefined = NotInProfile
#70 - 1 = NotInProfile
1 - #70 = NotInProfile
#70 - #71 = NotInProfile
'a' - #70 = NotInProfile
#70 - 'a' = NotInProfile
5 - '' = NotInProfile
undefined * 1 = NotInProfile
1 * undefined = NotInProfile
undefined * undefined = NotInProfile
'1' * 1 = NotInProfile
1 * '1' = NotInProfile
'1' * '1' = NotInProfile
null * undefined = NotInProfile
#70 * 1 = NotInProfile
1 * #70 = NotInProfile
#70 * #71 = NotInProfile
'a' * #70 = NotInProfile
#70 * 'a' = NotInProfile
5 * '' = NotInProfile
undefined / 1 = NotInProfile
1 / undefined = NotInProfile
undefined / undefined = NotInProfile
'1' / 1 = NotInProfile
1 / '1' = NotInProfile
'1' / '1' = NotInProfile
null / undefined = NotInProfile
#70 / 1 = NotInProfile
1 / #70 = NotInProfile
#70 / #71 = NotInProfile
'a' / #70 = NotInProfile
#70 / 'a' = NotInProfile
5 / '' = NotInProfile
undefined % 1 = NotInProfile
1 % undefined = NotInProfile
undefined % undefined = NotInProfile
'1' % 1 = NotInProfile
1 % '1' = NotInProfile
'1' % '1' = NotInProfile
null % undefined = NotInProfile
#70 % 1 = NotInProfile
1 % #70 = NotInProfile
#70 % #71 = NotInProfile
'a' % #70 = NotInProfile
#70 % 'a' = NotInProfile
5 % '' = NotInProfile
undefined & 1 = NotInProfile
1 & undefined = NotInProfile
undefined & undefined = NotInProfile
'1' & 1 = NotInProfile
1 & '1' = NotInProfile
'1' & '1' = NotInProfile
null & undefined = NotInProfile
#70 & 1 = NotInProfile
1 & #70 = NotInProfile
#70 & #71 = NotInProfile
'a' & #70 = NotInProfile
#70 & 'a' = NotInProfile
5 & '' = NotInProfile
undefined | 1 = NotInProfile
1 | undefined = NotInProfile
undefined | undefined = NotInProfile
'1' | 1 = NotInProfile
1 | '1' = NotInProfile
'1' | '1' = NotInProfile
null | undefined = NotInProfile
#70 | 1 = NotInProfile
1 | #70 = NotInProfile
#70 | #71 = NotInProfile
'a' | #70 = NotInProfile
#70 | 'a' = NotInProfile
5 | '' = NotInProfile
undefined << 1 = NotInProfile
1 << undefined = NotInProfile
undefined << undefined = NotInProfile
'1' << 1 = NotInProfile
1 << '1' = NotInProfile
'1' << '1' = NotInProfile
null << undefined = NotInProfile
#70 << 1 = NotInProfile
1 << #70 = NotInProfile
#70 << #71 = NotInProfile
'a' << #70 = NotInProfile
#70 << 'a' = NotInProfile
5 << '' = NotInProfile
undefined >>> 1 = NotInProfile
1 >>> undefined = NotInProfile
undefined >>> undefined = NotInProfile
'1' >>> 1 = NotInProfile
1 >>> '1' = NotInProfile
'1' >>> '1' = NotInProfile
null >>> undefined = NotInProfile
#70 >>> 1 = NotInProfile
1 >>> #70 = NotInProfile
#70 >>> #71 = NotInProfile
'a' >>> #70 = NotInProfile
#70 >>> 'a' = NotInProfile
5 >>> '' = NotInProfile
undefined < 1 = NotInProfile
1 < undefined = NotInProfile
undefined < undefined = NotInProfile
'1' < 1 = NotInProfile
1 < '1' = NotInProfile
null < undefined = NotInProfile
#70 < 1 = NotInProfile
1 < #70 = NotInProfile
#70 < #71 = NotInProfile
'a' < #70 = NotInProfile
#70 < 'a' = NotInProfile
5 < '' = NotInProfile
undefined >= 1 = NotInProfile
1 >= undefined = NotInProfile
undefined >= undefined = NotInProfile
'1' >= 1 = NotInProfile
1 >= '1' = NotInProfile
null >= undefined = NotInProfile
#70 >= 1 = NotInProfile
1 >= #70 = NotInProfile
#70 >= #71 = NotInProfile
'a' >= #70 = NotInProfile
#70 >= 'a' = NotInProfile
5 >= '' = NotInProfile
+ undefined = NotInProfile
+ '' = NotInProfile
+ 'a' = NotInProfile
+ '0' = NotInProfile
+ '1' = NotInProfile
+ #70 = NotInProfile
- undefined = NotInProfile
- '' = NotInProfile
- 'a' = NotInProfile
- '0' = NotInProfile
- '1' = NotInProfile
- #70 = NotInProfile
~ undefined = NotInProfile
~ '' = NotInProfile
~ 'a' = NotInProfile
~ '0' = NotInProfile
~ '1' = NotInProfile
~ #70 = NotInProfile
";

// Whether what an operator gives is the answer of a row.
fn is_given(alloc: Global, given: Result<Value, OperFault>, answer: &str) -> Result<bool, Refused> {
    match given {
        Ok(value) => is_value_of(alloc, &value, answer),
        Err(OperFault::Stopped(Stop::NotInProfile)) => Ok(answer == "NotInProfile"),
        Err(OperFault::Stopped(Stop::NotSafeInteger)) => Ok(answer == "NotSafeInteger"),
        Err(OperFault::Stopped(_)) => Ok(false),
        Err(OperFault::NoMemory) => Err(Refused::NoMemory),
    }
}

// Whether an operator between two values gives an answer, of the values and of what a store holds of them.
fn joins<S: Store>(
    alloc: Global,
    store: &mut S,
    words: (&str, &str, &str),
    answer: &str,
) -> Result<bool, Refused> {
    let Some(op) = binary_op(words.1) else {
        return Err(Refused::Row);
    };
    let words = (words.0, words.2);
    Ok(joins_plain(alloc, op, words, answer)? && joins_held(alloc, store, op, words, answer)?)
}

// Whether an operator between two values gives an answer.
fn joins_plain(
    alloc: Global,
    op: BinaryOp,
    words: (&str, &str),
    answer: &str,
) -> Result<bool, Refused> {
    let left = operand_of(alloc, words.0)?;
    let right = operand_of(alloc, words.1)?;
    is_given(alloc, binary(alloc, op, &left, &right), answer)
}

// Whether an operator between two values that a store holds gives an answer.
fn joins_held<S: Store>(
    alloc: Global,
    store: &mut S,
    op: BinaryOp,
    words: (&str, &str),
    answer: &str,
) -> Result<bool, Refused> {
    let last = last_node(store)?;
    let left = value_of(alloc, last, words.0)?;
    let right = value_of(alloc, last, words.1)?;
    joins_values(alloc, store, op, (&left, &right), answer)
}

// Whether an operator between two values gives an answer of what a store holds of them.
fn joins_values<S: Store>(
    alloc: Global,
    store: &mut S,
    op: BinaryOp,
    values: (&Value, &Value),
    answer: &str,
) -> Result<bool, Refused>
    requires left { IsValue (length (S.view store.old).nodes) values.0.now }
    requires right { IsValue (length (S.view store.old).nodes) values.1.now }
{
    let left = store.hold(values.0)?;
    let right = store.hold(values.1)?;
    let given = apply_binary(alloc, store, op, &left, &right);
    is_held_given(alloc, store, given, answer)
}

/// Whether what an operator gives of what a store holds is the answer of a row.
pub(crate) fn is_held_given<S: Store>(
    alloc: Global,
    store: &S,
    given: Result<S::Held, Abrupt<S::Held>>,
    answer: &str,
) -> Result<bool, Refused>
    requires { Owns cut_of (S.owns store.now) (S.owns store.now) given }
{
    match given {
        Ok(held) => is_held_value(alloc, store, &held, answer),
        Err(Abrupt::Stopped(stop)) => is_given(alloc, Err(OperFault::Stopped(stop)), answer),
        Err(fault) => Err(Refused::from(fault)),
    }
}

// Whether what a store holds is the answer of a row.
fn is_held_value<S: Store>(
    alloc: Global,
    store: &S,
    held: &S::Held,
    answer: &str,
) -> Result<bool, Refused>
    requires { S.owns store.now held.now }
{
    let value = store.value(held)?;
    is_given(alloc, Ok(value), answer)
}

// Whether an operator in front of a value gives an answer, of the value and of what a store holds of it.
fn changes<S: Store>(
    alloc: Global,
    store: &mut S,
    sign: &str,
    word: &str,
    answer: &str,
) -> Result<bool, Refused> {
    let Some(op) = unary_op(sign) else {
        return Err(Refused::Row);
    };
    Ok(changes_plain(alloc, op, word, answer)? && changes_held(alloc, store, op, word, answer)?)
}

// Whether an operator in front of a value gives an answer.
fn changes_plain(alloc: Global, op: UnaryOp, word: &str, answer: &str) -> Result<bool, Refused> {
    let value = operand_of(alloc, word)?;
    is_given(alloc, unary(op, &value), answer)
}

// Whether an operator in front of a value that a store holds gives an answer.
fn changes_held<S: Store>(
    alloc: Global,
    store: &mut S,
    op: UnaryOp,
    word: &str,
    answer: &str,
) -> Result<bool, Refused> {
    let last = last_node(store)?;
    let value = value_of(alloc, last, word)?;
    let held = store.hold(&value)?;
    let given = apply_unary(store, op, &held);
    is_held_given(alloc, store, given, answer)
}

// Whether the operator of a row gives its answer.
fn is_answered<S: Store>(alloc: Global, store: &mut S, row: &str) -> Result<bool, Refused> {
    let Some((question, answer)) = row.split_once(" = ") else {
        return Err(Refused::Row);
    };
    let Some((first, rest)) = question.split_once(' ') else {
        return Err(Refused::Row);
    };
    match rest.split_once(' ') {
        Some((sign, right)) => joins(alloc, store, (first, sign, right), answer),
        None => changes(alloc, store, first, rest, answer),
    }
}

// The first row of a table that is not right.
fn first_wrong_of<S: Store>(
    alloc: Global,
    store: &mut S,
    table: &'static str,
) -> Result<Option<&'static str>, Refused> {
    for row in table.lines() {
        if !is_answered(alloc, store, row)? {
            return Ok(Some(row));
        }
    }
    Ok(None)
}

// Makes the nodes that rows name: ten are enough behind the 62 that are there from the start.
fn make_nodes<S: Store>(store: &mut S) -> Result<(), Refused> {
    for _turn in 0..10 {
        last_node(store)?;
    }
    Ok(())
}

// The first row that is not right.
fn first_wrong<S: Store>(alloc: Global, store: &mut S) -> Result<Option<&'static str>, Refused> {
    make_nodes(store)?;
    for table in [SAME, MINUS_ZERO, NOT_SAFE, NOT_IN_PROFILE] {
        let wrong = first_wrong_of(alloc, store, table)?;
        if wrong.is_some() {
            return Ok(wrong);
        }
    }
    Ok(None)
}

// The first row that is not right over a plain store.
fn first_wrong_of_plain(alloc: Global) -> Result<Option<&'static str>, Refused> {
    let mut store = PlainStore::new(alloc, OwnKeys::new(alloc))?;
    first_wrong(alloc, &mut store)
}

#[test]
fn gives_what_node_gives(rt: HostRuntime) -> Result<(), Fail> {
    assert_eq!(rt; first_wrong_of_plain(rt.alloc())?, None);
    Ok(())
}
