//! Sources with their tokens or faults, every byte alone, and sources as long as they may be.

ghost use Rattle.std.specs.Prelude.{◌≡◌, ◌+◌, ◌<◌, ◌≤◌, length, IfOk};

use snap_base::MOST_SOURCE_BYTES;
use snap_lex::{LexFault, Token, TokenKind, safe_number, text_units, tokens};
use std::alloc::{AllocError, Global};
use std::test::Fail;

/// A letter for a kind.
fn letter(kind: TokenKind) -> char {
    match kind {
        TokenKind::Name => 'N',
        TokenKind::Word => 'W',
        TokenKind::Number => 'D',
        TokenKind::Text => 'T',
        TokenKind::Mark => 'M',
    }
}

/// Adds a token: a `^` where a line end stands before it, its kind, and its bytes.
fn show(shown: &mut String, token: &Token) -> Result<(), AllocError> {
    if !shown.is_empty() {
        shown.push(' ')?;
    }
    if token.after_newline {
        shown.push('^')?;
    }
    shown.push(letter(token.kind))?;
    shown.push(':')?;
    for byte in token.text {
        shown.push(char::from(*byte))?;
    }
    Ok(())
}

/// The tokens of a source, or why it has none.
fn shown(alloc: Global, source: &[u8]) -> Result<String, AllocError>
    requires { length source.now ≤ MOST_SOURCE_BYTES }
{
    match tokens(alloc, source) {
        Ok(list) => {
            let mut shown = String::new(alloc);
            for token in &list {
                show(&mut shown, token)?;
            }
            Ok(shown)
        }
        Err(LexFault::BadByte(at)) => format!(in alloc; "BadByte {at}"),
        Err(LexFault::Unclosed(at)) => format!(in alloc; "Unclosed {at}"),
        Err(LexFault::BigLiteral(at)) => format!(in alloc; "BigLiteral {at}"),
        Err(LexFault::NoMemory) => Err(AllocError),
    }
}

/// Sources and behind `→` their tokens or why there are none, each row with `¶` at its end.
const CASES: &str = "\
→¶\
a→N:a¶\
of→N:of¶\
get→N:get¶\
async→N:async¶\
Let→N:Let¶\
lets→N:lets¶\
let→W:let¶\
_→N:_¶\
$→N:$¶\
a1$_B→N:a1$_B¶\
in instanceof→W:in W:instanceof¶\
inx→N:inx¶\
a.let→N:a M:. W:let¶\
a\\u0062→BadByte 1¶\
#a→BadByte 0¶\
a@b→BadByte 1¶\
a`b`→BadByte 1¶\
0→D:0¶\
7→D:7¶\
10→D:10¶\
01→BadByte 1¶\
00→BadByte 1¶\
08→BadByte 1¶\
0x0→D:0x0¶\
0XfF→D:0XfF¶\
0x→BadByte 1¶\
0xg→BadByte 1¶\
0x1g→BadByte 3¶\
0b1→BadByte 1¶\
0o7→BadByte 1¶\
1n→BadByte 1¶\
1e3→BadByte 1¶\
1_0→BadByte 1¶\
1$→BadByte 1¶\
1.5→BadByte 1¶\
1.→BadByte 1¶\
0.→BadByte 1¶\
1..a→BadByte 1¶\
1 .a→D:1 M:. N:a¶\
.5→M:. D:5¶\
1a→BadByte 1¶\
9007199254740991→D:9007199254740991¶\
9007199254740992→BigLiteral 0¶\
0x1fffffffffffff→D:0x1fffffffffffff¶\
0x20000000000000→BigLiteral 0¶\
0x0000000000000000001→D:0x0000000000000000001¶\
\x2099999999999999999999a→BigLiteral 1¶\
99999999999999999999→BigLiteral 0¶\
1+2→D:1 M:+ D:2¶\
-1→M:- D:1¶\
1-→D:1 M:-¶\
''→T:''¶\
\"\"→T:\"\"¶\
'a\"b'→T:'a\"b'¶\
\"it's\"→T:\"it's\"¶\
'a' 'b'→T:'a' T:'b'¶\
'a→Unclosed 0¶\
x 'a→Unclosed 2¶\
'a\nb'→Unclosed 0¶\
'a\rb'→Unclosed 0¶\
'\\'→Unclosed 0¶\
'\\''→T:'\\''¶\
'\\\\'→T:'\\\\'¶\
'\\b\\t\\n\\v\\f\\r\\0'→T:'\\b\\t\\n\\v\\f\\r\\0'¶\
'\\x41\\xfF\\u0041\\u00fF'→T:'\\x41\\xfF\\u0041\\u00fF'¶\
'\\a\\c\\/\\ \\~\\\"'→T:'\\a\\c\\/\\ \\~\\\"'¶\
'\\00'→BadByte 1¶\
'\\09'→BadByte 1¶\
'\\0a'→T:'\\0a'¶\
'\\1'→BadByte 1¶\
'\\9'→BadByte 1¶\
'a\\x4'→BadByte 2¶\
'\\xg0'→BadByte 1¶\
'\\u041'→BadByte 1¶\
'\\u0141'→BadByte 1¶\
'\\u{41}'→BadByte 1¶\
'\\uff00'→BadByte 1¶\
'\\\n'→BadByte 1¶\
'\\→BadByte 1¶\
'\\x→BadByte 1¶\
'\\u00→BadByte 1¶\
'a\tb'→T:'a\tb'¶\
'a\x01'→BadByte 2¶\
'a\x7f'→BadByte 2¶\
'//' x→T:'//' N:x¶\
\x20\t→¶\
\n→¶\
\na→^N:a¶\
a\r\nb→N:a ^N:b¶\
a\rb→N:a ^N:b¶\
a\n\rb c→N:a ^N:b N:c¶\
a//b\nc→N:a ^N:c¶\
a//→N:a¶\
//\x01→BadByte 2¶\
a/*b*/c→N:a N:c¶\
a/*\n*/c→N:a ^N:c¶\
a/*\r*/c→N:a ^N:c¶\
/**/→¶\
/***/a→N:a¶\
/*/→Unclosed 0¶\
a /*→Unclosed 2¶\
/* * /→Unclosed 0¶\
/*\x02*/→BadByte 2¶\
/*'*/'a'→T:'a'¶\
/*//*/a→N:a¶\
///*\na→^N:a¶\
a<!--b→N:a M:< M:! M:-- N:b¶\
-->→M:-- M:>¶\
a\x0bb→BadByte 1¶\
a\x0cb→BadByte 1¶\
a\x00→BadByte 1¶\
>>>=→M:>>>=¶\
>>>>=→M:>>> M:>=¶\
a=>b→N:a M:=> N:b¶\
====→M:=== M:=¶\
!===→M:!== M:=¶\
!=→M:! M:=¶\
==→M:= M:=¶\
**→M:* M:*¶\
&&=→M:&& M:=¶\
||=→M:|| M:=¶\
??→M:? M:?¶\
?.→M:? M:.¶\
...→M:. M:. M:.¶\
+++→M:++ M:+¶\
a--b→N:a M:-- N:b¶\
a/b/c→N:a M:/ N:b M:/ N:c¶\
a/=b→N:a M:/= N:b¶\
<<=>>=→M:<<= M:>>=¶\
({[]})→M:( M:{ M:[ M:] M:} M:)¶\
let x = 5; // five\nx++→W:let N:x M:= D:5 M:; ^N:x M:++¶\
>>>==\n>>>=<\n>>>=>\n>>>=!\n>>>=+\n>>>=-\n>>>=*\n>>>=/\n>>>=%\n>>>=&\n>>>=|\n>>>=^\n>>>=.\n>>>=?\n>>>=:\n====\n===<\n===>\n===!\n===+\n===-\n===*\n===/\n===%\n===&\n===|\n===^\n===.\n===?\n===:\n!===\n!==<\n!==>\n!==!\n!==+\n!==-\n!==*\n!==/\n!==%\n!==&\n!==|\n!==^\n!==.\n!==?\n!==:\n>>>=\n>>><\n>>>>\n>>>!\n>>>+\n>>>-\n>>>*\n>>>/\n>>>%\n>>>&\n>>>|\n>>>^\n>>>.\n>>>?\n>>>:\n<<==\n<<=<\n<<=>\n<<=!\n<<=+\n<<=-\n<<=*\n<<=/\n<<=%\n<<=&\n<<=|\n<<=^\n<<=.\n<<=?\n<<=:\n>>==\n>>=<\n>>=>\n>>=!\n>>=+\n>>=-\n>>=*\n>>=/\n>>=%\n>>=&\n>>=|\n>>=^\n>>=.\n>>=?\n>>=:\n=>=\n=><\n=>>\n=>!\n=>+\n=>-\n=>*\n=>/\n=>%\n=>&\n=>|\n=>^\n=>.\n=>?\n=>:\n++=\n++<\n++>\n++!\n+++\n++-\n++*\n++/\n++%\n++&\n++|\n++^\n++.\n++?\n++:\n--=\n--<\n-->\n--!\n--+\n---\n--*\n--/\n--%\n--&\n--|\n--^\n--.\n--?\n--:\n+==\n+=<\n+=>\n+=!\n+=+\n+=-\n+=*\n+=/\n+=%\n+=&\n+=|\n+=^\n+=.\n+=?\n+=:\n-==\n-=<\n-=>\n-=!\n-=+\n-=-\n-=*\n-=/\n-=%\n-=&\n-=|\n-=^\n-=.\n-=?\n-=:\n*==\n*=<\n*=>\n*=!\n*=+\n*=-\n*=*\n*=/\n*=%\n*=&\n*=|\n*=^\n*=.\n*=?\n*=:\n/==\n/=<\n/=>\n/=!\n/=+\n/=-\n/=*\n/=/\n/=%\n/=&\n/=|\n/=^\n/=.\n/=?\n/=:\n%==\n%=<\n%=>\n%=!\n%=+\n%=-\n%=*\n%=/\n%=%\n%=&\n%=|\n%=^\n%=.\n%=?\n%=:\n&==\n&=<\n&=>\n&=!\n&=+\n&=-\n&=*\n&=/\n&=%\n&=&\n&=|\n&=^\n&=.\n&=?\n&=:\n|==\n|=<\n|=>\n|=!\n|=+\n|=-\n|=*\n|=/\n|=%\n|=&\n|=|\n|=^\n|=.\n|=?\n|=:\n^==\n^=<\n^=>\n^=!\n^=+\n^=-\n^=*\n^=/\n^=%\n^=&\n^=|\n^=^\n^=.\n^=?\n^=:\n&&=\n&&<\n&&>\n&&!\n&&+\n&&-\n&&*\n&&/\n&&%\n&&&\n&&|\n&&^\n&&.\n&&?\n&&:\n||=\n||<\n||>\n||!\n||+\n||-\n||*\n||/\n||%\n||&\n|||\n||^\n||.\n||?\n||:\n<<=\n<<<\n<<>\n<<!\n<<+\n<<-\n<<*\n<</\n<<%\n<<&\n<<|\n<<^\n<<.\n<<?\n<<:\n>>=\n>><\n>>>\n>>!\n>>+\n>>-\n>>*\n>>/\n>>%\n>>&\n>>|\n>>^\n>>.\n>>?\n>>:\n<==\n<=<\n<=>\n<=!\n<=+\n<=-\n<=*\n<=/\n<=%\n<=&\n<=|\n<=^\n<=.\n<=?\n<=:\n>==\n>=<\n>=>\n>=!\n>=+\n>=-\n>=*\n>=/\n>=%\n>=&\n>=|\n>=^\n>=.\n>=?\n>=:\n{=\n{<\n{>\n{!\n{+\n{-\n{*\n{/\n{%\n{&\n{|\n{^\n{.\n{?\n{:\n}=\n}<\n}>\n}!\n}+\n}-\n}*\n}/\n}%\n}&\n}|\n}^\n}.\n}?\n}:\n(=\n(<\n(>\n(!\n(+\n(-\n(*\n(/\n(%\n(&\n(|\n(^\n(.\n(?\n(:\n)=\n)<\n)>\n)!\n)+\n)-\n)*\n)/\n)%\n)&\n)|\n)^\n).\n)?\n):\n[=\n[<\n[>\n[!\n[+\n[-\n[*\n[/\n[%\n[&\n[|\n[^\n[.\n[?\n[:\n]=\n]<\n]>\n]!\n]+\n]-\n]*\n]/\n]%\n]&\n]|\n]^\n].\n]?\n]:\n.=\n.<\n.>\n.!\n.+\n.-\n.*\n./\n.%\n.&\n.|\n.^\n..\n.?\n.:\n;=\n;<\n;>\n;!\n;+\n;-\n;*\n;/\n;%\n;&\n;|\n;^\n;.\n;?\n;:\n,=\n,<\n,>\n,!\n,+\n,-\n,*\n,/\n,%\n,&\n,|\n,^\n,.\n,?\n,:\n<=\n<<\n<>\n<!\n<+\n<-\n<*\n</\n<%\n<&\n<|\n<^\n<.\n<?\n<:\n>=\n><\n>>\n>!\n>+\n>-\n>*\n>/\n>%\n>&\n>|\n>^\n>.\n>?\n>:\n+=\n+<\n+>\n+!\n++\n+-\n+*\n+/\n+%\n+&\n+|\n+^\n+.\n+?\n+:\n-=\n-<\n->\n-!\n-+\n--\n-*\n-/\n-%\n-&\n-|\n-^\n-.\n-?\n-:\n*=\n*<\n*>\n*!\n*+\n*-\n**\n*/\n*%\n*&\n*|\n*^\n*.\n*?\n*:\n/=\n/<\n/>\n/!\n/+\n/-\n/%\n/&\n/|\n/^\n/.\n/?\n/:\n%=\n%<\n%>\n%!\n%+\n%-\n%*\n%/\n%%\n%&\n%|\n%^\n%.\n%?\n%:\n&=\n&<\n&>\n&!\n&+\n&-\n&*\n&/\n&%\n&&\n&|\n&^\n&.\n&?\n&:\n|=\n|<\n|>\n|!\n|+\n|-\n|*\n|/\n|%\n|&\n||\n|^\n|.\n|?\n|:\n^=\n^<\n^>\n^!\n^+\n^-\n^*\n^/\n^%\n^&\n^|\n^^\n^.\n^?\n^:\n!=\n!<\n!>\n!!\n!+\n!-\n!*\n!/\n!%\n!&\n!|\n!^\n!.\n!?\n!:\n~=\n~<\n~>\n~!\n~+\n~-\n~*\n~/\n~%\n~&\n~|\n~^\n~.\n~?\n~:\n?=\n?<\n?>\n?!\n?+\n?-\n?*\n?/\n?%\n?&\n?|\n?^\n?.\n??\n?:\n:=\n:<\n:>\n:!\n:+\n:-\n:*\n:/\n:%\n:&\n:|\n:^\n:.\n:?\n::\n==\n=<\n=>\n=!\n=+\n=-\n=*\n=/\n=%\n=&\n=|\n=^\n=.\n=?\n=:→M:>>>= M:= ^M:>>>= M:< ^M:>>>= M:> ^M:>>>= M:! ^M:>>>= M:+ ^M:>>>= M:- ^M:>>>= M:* ^M:>>>= M:/ ^M:>>>= M:% ^M:>>>= M:& ^M:>>>= M:| ^M:>>>= M:^ ^M:>>>= M:. ^M:>>>= M:? ^M:>>>= M:: ^M:=== M:= ^M:=== M:< ^M:=== M:> ^M:=== M:! ^M:=== M:+ ^M:=== M:- ^M:=== M:* ^M:=== M:/ ^M:=== M:% ^M:=== M:& ^M:=== M:| ^M:=== M:^ ^M:=== M:. ^M:=== M:? ^M:=== M:: ^M:!== M:= ^M:!== M:< ^M:!== M:> ^M:!== M:! ^M:!== M:+ ^M:!== M:- ^M:!== M:* ^M:!== M:/ ^M:!== M:% ^M:!== M:& ^M:!== M:| ^M:!== M:^ ^M:!== M:. ^M:!== M:? ^M:!== M:: ^M:>>>= ^M:>>> M:< ^M:>>> M:> ^M:>>> M:! ^M:>>> M:+ ^M:>>> M:- ^M:>>> M:* ^M:>>> M:/ ^M:>>> M:% ^M:>>> M:& ^M:>>> M:| ^M:>>> M:^ ^M:>>> M:. ^M:>>> M:? ^M:>>> M:: ^M:<<= M:= ^M:<<= M:< ^M:<<= M:> ^M:<<= M:! ^M:<<= M:+ ^M:<<= M:- ^M:<<= M:* ^M:<<= M:/ ^M:<<= M:% ^M:<<= M:& ^M:<<= M:| ^M:<<= M:^ ^M:<<= M:. ^M:<<= M:? ^M:<<= M:: ^M:>>= M:= ^M:>>= M:< ^M:>>= M:> ^M:>>= M:! ^M:>>= M:+ ^M:>>= M:- ^M:>>= M:* ^M:>>= M:/ ^M:>>= M:% ^M:>>= M:& ^M:>>= M:| ^M:>>= M:^ ^M:>>= M:. ^M:>>= M:? ^M:>>= M:: ^M:=> M:= ^M:=> M:< ^M:=> M:> ^M:=> M:! ^M:=> M:+ ^M:=> M:- ^M:=> M:* ^M:=> M:/ ^M:=> M:% ^M:=> M:& ^M:=> M:| ^M:=> M:^ ^M:=> M:. ^M:=> M:? ^M:=> M:: ^M:++ M:= ^M:++ M:< ^M:++ M:> ^M:++ M:! ^M:++ M:+ ^M:++ M:- ^M:++ M:* ^M:++ M:/ ^M:++ M:% ^M:++ M:& ^M:++ M:| ^M:++ M:^ ^M:++ M:. ^M:++ M:? ^M:++ M:: ^M:-- M:= ^M:-- M:< ^M:-- M:> ^M:-- M:! ^M:-- M:+ ^M:-- M:- ^M:-- M:* ^M:-- M:/ ^M:-- M:% ^M:-- M:& ^M:-- M:| ^M:-- M:^ ^M:-- M:. ^M:-- M:? ^M:-- M:: ^M:+= M:= ^M:+= M:< ^M:+= M:> ^M:+= M:! ^M:+= M:+ ^M:+= M:- ^M:+= M:* ^M:+= M:/ ^M:+= M:% ^M:+= M:& ^M:+= M:| ^M:+= M:^ ^M:+= M:. ^M:+= M:? ^M:+= M:: ^M:-= M:= ^M:-= M:< ^M:-= M:> ^M:-= M:! ^M:-= M:+ ^M:-= M:- ^M:-= M:* ^M:-= M:/ ^M:-= M:% ^M:-= M:& ^M:-= M:| ^M:-= M:^ ^M:-= M:. ^M:-= M:? ^M:-= M:: ^M:*= M:= ^M:*= M:< ^M:*= M:> ^M:*= M:! ^M:*= M:+ ^M:*= M:- ^M:*= M:* ^M:*= M:/ ^M:*= M:% ^M:*= M:& ^M:*= M:| ^M:*= M:^ ^M:*= M:. ^M:*= M:? ^M:*= M:: ^M:/= M:= ^M:/= M:< ^M:/= M:> ^M:/= M:! ^M:/= M:+ ^M:/= M:- ^M:/= M:* ^M:/= M:/ ^M:/= M:% ^M:/= M:& ^M:/= M:| ^M:/= M:^ ^M:/= M:. ^M:/= M:? ^M:/= M:: ^M:%= M:= ^M:%= M:< ^M:%= M:> ^M:%= M:! ^M:%= M:+ ^M:%= M:- ^M:%= M:* ^M:%= M:/ ^M:%= M:% ^M:%= M:& ^M:%= M:| ^M:%= M:^ ^M:%= M:. ^M:%= M:? ^M:%= M:: ^M:&= M:= ^M:&= M:< ^M:&= M:> ^M:&= M:! ^M:&= M:+ ^M:&= M:- ^M:&= M:* ^M:&= M:/ ^M:&= M:% ^M:&= M:& ^M:&= M:| ^M:&= M:^ ^M:&= M:. ^M:&= M:? ^M:&= M:: ^M:|= M:= ^M:|= M:< ^M:|= M:> ^M:|= M:! ^M:|= M:+ ^M:|= M:- ^M:|= M:* ^M:|= M:/ ^M:|= M:% ^M:|= M:& ^M:|= M:| ^M:|= M:^ ^M:|= M:. ^M:|= M:? ^M:|= M:: ^M:^= M:= ^M:^= M:< ^M:^= M:> ^M:^= M:! ^M:^= M:+ ^M:^= M:- ^M:^= M:* ^M:^= M:/ ^M:^= M:% ^M:^= M:& ^M:^= M:| ^M:^= M:^ ^M:^= M:. ^M:^= M:? ^M:^= M:: ^M:&& M:= ^M:&& M:< ^M:&& M:> ^M:&& M:! ^M:&& M:+ ^M:&& M:- ^M:&& M:* ^M:&& M:/ ^M:&& M:% ^M:&& M:& ^M:&& M:| ^M:&& M:^ ^M:&& M:. ^M:&& M:? ^M:&& M:: ^M:|| M:= ^M:|| M:< ^M:|| M:> ^M:|| M:! ^M:|| M:+ ^M:|| M:- ^M:|| M:* ^M:|| M:/ ^M:|| M:% ^M:|| M:& ^M:|| M:| ^M:|| M:^ ^M:|| M:. ^M:|| M:? ^M:|| M:: ^M:<<= ^M:<< M:< ^M:<< M:> ^M:<< M:! ^M:<< M:+ ^M:<< M:- ^M:<< M:* ^M:<< M:/ ^M:<< M:% ^M:<< M:& ^M:<< M:| ^M:<< M:^ ^M:<< M:. ^M:<< M:? ^M:<< M:: ^M:>>= ^M:>> M:< ^M:>>> ^M:>> M:! ^M:>> M:+ ^M:>> M:- ^M:>> M:* ^M:>> M:/ ^M:>> M:% ^M:>> M:& ^M:>> M:| ^M:>> M:^ ^M:>> M:. ^M:>> M:? ^M:>> M:: ^M:<= M:= ^M:<= M:< ^M:<= M:> ^M:<= M:! ^M:<= M:+ ^M:<= M:- ^M:<= M:* ^M:<= M:/ ^M:<= M:% ^M:<= M:& ^M:<= M:| ^M:<= M:^ ^M:<= M:. ^M:<= M:? ^M:<= M:: ^M:>= M:= ^M:>= M:< ^M:>= M:> ^M:>= M:! ^M:>= M:+ ^M:>= M:- ^M:>= M:* ^M:>= M:/ ^M:>= M:% ^M:>= M:& ^M:>= M:| ^M:>= M:^ ^M:>= M:. ^M:>= M:? ^M:>= M:: ^M:{ M:= ^M:{ M:< ^M:{ M:> ^M:{ M:! ^M:{ M:+ ^M:{ M:- ^M:{ M:* ^M:{ M:/ ^M:{ M:% ^M:{ M:& ^M:{ M:| ^M:{ M:^ ^M:{ M:. ^M:{ M:? ^M:{ M:: ^M:} M:= ^M:} M:< ^M:} M:> ^M:} M:! ^M:} M:+ ^M:} M:- ^M:} M:* ^M:} M:/ ^M:} M:% ^M:} M:& ^M:} M:| ^M:} M:^ ^M:} M:. ^M:} M:? ^M:} M:: ^M:( M:= ^M:( M:< ^M:( M:> ^M:( M:! ^M:( M:+ ^M:( M:- ^M:( M:* ^M:( M:/ ^M:( M:% ^M:( M:& ^M:( M:| ^M:( M:^ ^M:( M:. ^M:( M:? ^M:( M:: ^M:) M:= ^M:) M:< ^M:) M:> ^M:) M:! ^M:) M:+ ^M:) M:- ^M:) M:* ^M:) M:/ ^M:) M:% ^M:) M:& ^M:) M:| ^M:) M:^ ^M:) M:. ^M:) M:? ^M:) M:: ^M:[ M:= ^M:[ M:< ^M:[ M:> ^M:[ M:! ^M:[ M:+ ^M:[ M:- ^M:[ M:* ^M:[ M:/ ^M:[ M:% ^M:[ M:& ^M:[ M:| ^M:[ M:^ ^M:[ M:. ^M:[ M:? ^M:[ M:: ^M:] M:= ^M:] M:< ^M:] M:> ^M:] M:! ^M:] M:+ ^M:] M:- ^M:] M:* ^M:] M:/ ^M:] M:% ^M:] M:& ^M:] M:| ^M:] M:^ ^M:] M:. ^M:] M:? ^M:] M:: ^M:. M:= ^M:. M:< ^M:. M:> ^M:. M:! ^M:. M:+ ^M:. M:- ^M:. M:* ^M:. M:/ ^M:. M:% ^M:. M:& ^M:. M:| ^M:. M:^ ^M:. M:. ^M:. M:? ^M:. M:: ^M:; M:= ^M:; M:< ^M:; M:> ^M:; M:! ^M:; M:+ ^M:; M:- ^M:; M:* ^M:; M:/ ^M:; M:% ^M:; M:& ^M:; M:| ^M:; M:^ ^M:; M:. ^M:; M:? ^M:; M:: ^M:, M:= ^M:, M:< ^M:, M:> ^M:, M:! ^M:, M:+ ^M:, M:- ^M:, M:* ^M:, M:/ ^M:, M:% ^M:, M:& ^M:, M:| ^M:, M:^ ^M:, M:. ^M:, M:? ^M:, M:: ^M:<= ^M:<< ^M:< M:> ^M:< M:! ^M:< M:+ ^M:< M:- ^M:< M:* ^M:< M:/ ^M:< M:% ^M:< M:& ^M:< M:| ^M:< M:^ ^M:< M:. ^M:< M:? ^M:< M:: ^M:>= ^M:> M:< ^M:>> ^M:> M:! ^M:> M:+ ^M:> M:- ^M:> M:* ^M:> M:/ ^M:> M:% ^M:> M:& ^M:> M:| ^M:> M:^ ^M:> M:. ^M:> M:? ^M:> M:: ^M:+= ^M:+ M:< ^M:+ M:> ^M:+ M:! ^M:++ ^M:+ M:- ^M:+ M:* ^M:+ M:/ ^M:+ M:% ^M:+ M:& ^M:+ M:| ^M:+ M:^ ^M:+ M:. ^M:+ M:? ^M:+ M:: ^M:-= ^M:- M:< ^M:- M:> ^M:- M:! ^M:- M:+ ^M:-- ^M:- M:* ^M:- M:/ ^M:- M:% ^M:- M:& ^M:- M:| ^M:- M:^ ^M:- M:. ^M:- M:? ^M:- M:: ^M:*= ^M:* M:< ^M:* M:> ^M:* M:! ^M:* M:+ ^M:* M:- ^M:* M:* ^M:* M:/ ^M:* M:% ^M:* M:& ^M:* M:| ^M:* M:^ ^M:* M:. ^M:* M:? ^M:* M:: ^M:/= ^M:/ M:< ^M:/ M:> ^M:/ M:! ^M:/ M:+ ^M:/ M:- ^M:/ M:% ^M:/ M:& ^M:/ M:| ^M:/ M:^ ^M:/ M:. ^M:/ M:? ^M:/ M:: ^M:%= ^M:% M:< ^M:% M:> ^M:% M:! ^M:% M:+ ^M:% M:- ^M:% M:* ^M:% M:/ ^M:% M:% ^M:% M:& ^M:% M:| ^M:% M:^ ^M:% M:. ^M:% M:? ^M:% M:: ^M:&= ^M:& M:< ^M:& M:> ^M:& M:! ^M:& M:+ ^M:& M:- ^M:& M:* ^M:& M:/ ^M:& M:% ^M:&& ^M:& M:| ^M:& M:^ ^M:& M:. ^M:& M:? ^M:& M:: ^M:|= ^M:| M:< ^M:| M:> ^M:| M:! ^M:| M:+ ^M:| M:- ^M:| M:* ^M:| M:/ ^M:| M:% ^M:| M:& ^M:|| ^M:| M:^ ^M:| M:. ^M:| M:? ^M:| M:: ^M:^= ^M:^ M:< ^M:^ M:> ^M:^ M:! ^M:^ M:+ ^M:^ M:- ^M:^ M:* ^M:^ M:/ ^M:^ M:% ^M:^ M:& ^M:^ M:| ^M:^ M:^ ^M:^ M:. ^M:^ M:? ^M:^ M:: ^M:! M:= ^M:! M:< ^M:! M:> ^M:! M:! ^M:! M:+ ^M:! M:- ^M:! M:* ^M:! M:/ ^M:! M:% ^M:! M:& ^M:! M:| ^M:! M:^ ^M:! M:. ^M:! M:? ^M:! M:: ^M:~ M:= ^M:~ M:< ^M:~ M:> ^M:~ M:! ^M:~ M:+ ^M:~ M:- ^M:~ M:* ^M:~ M:/ ^M:~ M:% ^M:~ M:& ^M:~ M:| ^M:~ M:^ ^M:~ M:. ^M:~ M:? ^M:~ M:: ^M:? M:= ^M:? M:< ^M:? M:> ^M:? M:! ^M:? M:+ ^M:? M:- ^M:? M:* ^M:? M:/ ^M:? M:% ^M:? M:& ^M:? M:| ^M:? M:^ ^M:? M:. ^M:? M:? ^M:? M:: ^M:: M:= ^M:: M:< ^M:: M:> ^M:: M:! ^M:: M:+ ^M:: M:- ^M:: M:* ^M:: M:/ ^M:: M:% ^M:: M:& ^M:: M:| ^M:: M:^ ^M:: M:. ^M:: M:? ^M:: M:: ^M:= M:= ^M:= M:< ^M:=> ^M:= M:! ^M:= M:+ ^M:= M:- ^M:= M:* ^M:= M:/ ^M:= M:% ^M:= M:& ^M:= M:| ^M:= M:^ ^M:= M:. ^M:= M:? ^M:= M::¶\
=>>>=\n<>>>=\n>>>>=\n!>>>=\n+>>>=\n->>>=\n*>>>=\n/>>>=\n%>>>=\n&>>>=\n|>>>=\n^>>>=\n.>>>=\n?>>>=\n:>>>=\n====\n<===\n>===\n!===\n+===\n-===\n*===\n/===\n%===\n&===\n|===\n^===\n.===\n?===\n:===\n=!==\n<!==\n>!==\n!!==\n+!==\n-!==\n*!==\n/!==\n%!==\n&!==\n|!==\n^!==\n.!==\n?!==\n:!==\n=>>>\n<>>>\n>>>>\n!>>>\n+>>>\n->>>\n*>>>\n/>>>\n%>>>\n&>>>\n|>>>\n^>>>\n.>>>\n?>>>\n:>>>\n=<<=\n<<<=\n><<=\n!<<=\n+<<=\n-<<=\n*<<=\n/<<=\n%<<=\n&<<=\n|<<=\n^<<=\n.<<=\n?<<=\n:<<=\n=>>=\n<>>=\n>>>=\n!>>=\n+>>=\n->>=\n*>>=\n/>>=\n%>>=\n&>>=\n|>>=\n^>>=\n.>>=\n?>>=\n:>>=\n==>\n<=>\n>=>\n!=>\n+=>\n-=>\n*=>\n/=>\n%=>\n&=>\n|=>\n^=>\n.=>\n?=>\n:=>\n=++\n<++\n>++\n!++\n+++\n-++\n*++\n/++\n%++\n&++\n|++\n^++\n.++\n?++\n:++\n=--\n<--\n>--\n!--\n+--\n---\n*--\n/--\n%--\n&--\n|--\n^--\n.--\n?--\n:--\n=+=\n<+=\n>+=\n!+=\n++=\n-+=\n*+=\n/+=\n%+=\n&+=\n|+=\n^+=\n.+=\n?+=\n:+=\n=-=\n<-=\n>-=\n!-=\n+-=\n--=\n*-=\n/-=\n%-=\n&-=\n|-=\n^-=\n.-=\n?-=\n:-=\n=*=\n<*=\n>*=\n!*=\n+*=\n-*=\n**=\n%*=\n&*=\n|*=\n^*=\n.*=\n?*=\n:*=\n=/=\n</=\n>/=\n!/=\n+/=\n-/=\n*/=\n%/=\n&/=\n|/=\n^/=\n./=\n?/=\n:/=\n=%=\n<%=\n>%=\n!%=\n+%=\n-%=\n*%=\n/%=\n%%=\n&%=\n|%=\n^%=\n.%=\n?%=\n:%=\n=&=\n<&=\n>&=\n!&=\n+&=\n-&=\n*&=\n/&=\n%&=\n&&=\n|&=\n^&=\n.&=\n?&=\n:&=\n=|=\n<|=\n>|=\n!|=\n+|=\n-|=\n*|=\n/|=\n%|=\n&|=\n||=\n^|=\n.|=\n?|=\n:|=\n=^=\n<^=\n>^=\n!^=\n+^=\n-^=\n*^=\n/^=\n%^=\n&^=\n|^=\n^^=\n.^=\n?^=\n:^=\n=&&\n<&&\n>&&\n!&&\n+&&\n-&&\n*&&\n/&&\n%&&\n&&&\n|&&\n^&&\n.&&\n?&&\n:&&\n=||\n<||\n>||\n!||\n+||\n-||\n*||\n/||\n%||\n&||\n|||\n^||\n.||\n?||\n:||\n=<<\n<<<\n><<\n!<<\n+<<\n-<<\n*<<\n/<<\n%<<\n&<<\n|<<\n^<<\n.<<\n?<<\n:<<\n=>>\n<>>\n>>>\n!>>\n+>>\n->>\n*>>\n/>>\n%>>\n&>>\n|>>\n^>>\n.>>\n?>>\n:>>\n=<=\n<<=\n><=\n!<=\n+<=\n-<=\n*<=\n/<=\n%<=\n&<=\n|<=\n^<=\n.<=\n?<=\n:<=\n=>=\n<>=\n>>=\n!>=\n+>=\n->=\n*>=\n/>=\n%>=\n&>=\n|>=\n^>=\n.>=\n?>=\n:>=\n={\n<{\n>{\n!{\n+{\n-{\n*{\n/{\n%{\n&{\n|{\n^{\n.{\n?{\n:{\n=}\n<}\n>}\n!}\n+}\n-}\n*}\n/}\n%}\n&}\n|}\n^}\n.}\n?}\n:}\n=(\n<(\n>(\n!(\n+(\n-(\n*(\n/(\n%(\n&(\n|(\n^(\n.(\n?(\n:(\n=)\n<)\n>)\n!)\n+)\n-)\n*)\n/)\n%)\n&)\n|)\n^)\n.)\n?)\n:)\n=[\n<[\n>[\n![\n+[\n-[\n*[\n/[\n%[\n&[\n|[\n^[\n.[\n?[\n:[\n=]\n<]\n>]\n!]\n+]\n-]\n*]\n/]\n%]\n&]\n|]\n^]\n.]\n?]\n:]\n=.\n<.\n>.\n!.\n+.\n-.\n*.\n/.\n%.\n&.\n|.\n^.\n..\n?.\n:.\n=;\n<;\n>;\n!;\n+;\n-;\n*;\n/;\n%;\n&;\n|;\n^;\n.;\n?;\n:;\n=,\n<,\n>,\n!,\n+,\n-,\n*,\n/,\n%,\n&,\n|,\n^,\n.,\n?,\n:,\n=<\n<<\n><\n!<\n+<\n-<\n*<\n/<\n%<\n&<\n|<\n^<\n.<\n?<\n:<\n=>\n<>\n>>\n!>\n+>\n->\n*>\n/>\n%>\n&>\n|>\n^>\n.>\n?>\n:>\n=+\n<+\n>+\n!+\n++\n-+\n*+\n/+\n%+\n&+\n|+\n^+\n.+\n?+\n:+\n=-\n<-\n>-\n!-\n+-\n--\n*-\n/-\n%-\n&-\n|-\n^-\n.-\n?-\n:-\n=*\n<*\n>*\n!*\n+*\n-*\n**\n%*\n&*\n|*\n^*\n.*\n?*\n:*\n=/\n</\n>/\n!/\n+/\n-/\n*/\n%/\n&/\n|/\n^/\n./\n?/\n:/\n=%\n<%\n>%\n!%\n+%\n-%\n*%\n/%\n%%\n&%\n|%\n^%\n.%\n?%\n:%\n=&\n<&\n>&\n!&\n+&\n-&\n*&\n/&\n%&\n&&\n|&\n^&\n.&\n?&\n:&\n=|\n<|\n>|\n!|\n+|\n-|\n*|\n/|\n%|\n&|\n||\n^|\n.|\n?|\n:|\n=^\n<^\n>^\n!^\n+^\n-^\n*^\n/^\n%^\n&^\n|^\n^^\n.^\n?^\n:^\n=!\n<!\n>!\n!!\n+!\n-!\n*!\n/!\n%!\n&!\n|!\n^!\n.!\n?!\n:!\n=~\n<~\n>~\n!~\n+~\n-~\n*~\n/~\n%~\n&~\n|~\n^~\n.~\n?~\n:~\n=?\n<?\n>?\n!?\n+?\n-?\n*?\n/?\n%?\n&?\n|?\n^?\n.?\n??\n:?\n=:\n<:\n>:\n!:\n+:\n-:\n*:\n/:\n%:\n&:\n|:\n^:\n.:\n?:\n::\n==\n<=\n>=\n!=\n+=\n-=\n*=\n/=\n%=\n&=\n|=\n^=\n.=\n?=\n:=→M:=> M:>>= ^M:< M:>>>= ^M:>>> M:>= ^M:! M:>>>= ^M:+ M:>>>= ^M:- M:>>>= ^M:* M:>>>= ^M:/ M:>>>= ^M:% M:>>>= ^M:& M:>>>= ^M:| M:>>>= ^M:^ M:>>>= ^M:. M:>>>= ^M:? M:>>>= ^M:: M:>>>= ^M:=== M:= ^M:<= M:= M:= ^M:>= M:= M:= ^M:!== M:= ^M:+= M:= M:= ^M:-= M:= M:= ^M:*= M:= M:= ^M:/= M:= M:= ^M:%= M:= M:= ^M:&= M:= M:= ^M:|= M:= M:= ^M:^= M:= M:= ^M:. M:=== ^M:? M:=== ^M:: M:=== ^M:= M:!== ^M:< M:!== ^M:> M:!== ^M:! M:!== ^M:+ M:!== ^M:- M:!== ^M:* M:!== ^M:/ M:!== ^M:% M:!== ^M:& M:!== ^M:| M:!== ^M:^ M:!== ^M:. M:!== ^M:? M:!== ^M:: M:!== ^M:=> M:>> ^M:< M:>>> ^M:>>> M:> ^M:! M:>>> ^M:+ M:>>> ^M:- M:>>> ^M:* M:>>> ^M:/ M:>>> ^M:% M:>>> ^M:& M:>>> ^M:| M:>>> ^M:^ M:>>> ^M:. M:>>> ^M:? M:>>> ^M:: M:>>> ^M:= M:<<= ^M:<< M:<= ^M:> M:<<= ^M:! M:<<= ^M:+ M:<<= ^M:- M:<<= ^M:* M:<<= ^M:/ M:<<= ^M:% M:<<= ^M:& M:<<= ^M:| M:<<= ^M:^ M:<<= ^M:. M:<<= ^M:? M:<<= ^M:: M:<<= ^M:=> M:>= ^M:< M:>>= ^M:>>>= ^M:! M:>>= ^M:+ M:>>= ^M:- M:>>= ^M:* M:>>= ^M:/ M:>>= ^M:% M:>>= ^M:& M:>>= ^M:| M:>>= ^M:^ M:>>= ^M:. M:>>= ^M:? M:>>= ^M:: M:>>= ^M:= M:=> ^M:<= M:> ^M:>= M:> ^M:! M:=> ^M:+= M:> ^M:-= M:> ^M:*= M:> ^M:/= M:> ^M:%= M:> ^M:&= M:> ^M:|= M:> ^M:^= M:> ^M:. M:=> ^M:? M:=> ^M:: M:=> ^M:= M:++ ^M:< M:++ ^M:> M:++ ^M:! M:++ ^M:++ M:+ ^M:- M:++ ^M:* M:++ ^M:/ M:++ ^M:% M:++ ^M:& M:++ ^M:| M:++ ^M:^ M:++ ^M:. M:++ ^M:? M:++ ^M:: M:++ ^M:= M:-- ^M:< M:-- ^M:> M:-- ^M:! M:-- ^M:+ M:-- ^M:-- M:- ^M:* M:-- ^M:/ M:-- ^M:% M:-- ^M:& M:-- ^M:| M:-- ^M:^ M:-- ^M:. M:-- ^M:? M:-- ^M:: M:-- ^M:= M:+= ^M:< M:+= ^M:> M:+= ^M:! M:+= ^M:++ M:= ^M:- M:+= ^M:* M:+= ^M:/ M:+= ^M:% M:+= ^M:& M:+= ^M:| M:+= ^M:^ M:+= ^M:. M:+= ^M:? M:+= ^M:: M:+= ^M:= M:-= ^M:< M:-= ^M:> M:-= ^M:! M:-= ^M:+ M:-= ^M:-- M:= ^M:* M:-= ^M:/ M:-= ^M:% M:-= ^M:& M:-= ^M:| M:-= ^M:^ M:-= ^M:. M:-= ^M:? M:-= ^M:: M:-= ^M:= M:*= ^M:< M:*= ^M:> M:*= ^M:! M:*= ^M:+ M:*= ^M:- M:*= ^M:* M:*= ^M:% M:*= ^M:& M:*= ^M:| M:*= ^M:^ M:*= ^M:. M:*= ^M:? M:*= ^M:: M:*= ^M:= M:/= ^M:< M:/= ^M:> M:/= ^M:! M:/= ^M:+ M:/= ^M:- M:/= ^M:* M:/= ^M:% M:/= ^M:& M:/= ^M:| M:/= ^M:^ M:/= ^M:. M:/= ^M:? M:/= ^M:: M:/= ^M:= M:%= ^M:< M:%= ^M:> M:%= ^M:! M:%= ^M:+ M:%= ^M:- M:%= ^M:* M:%= ^M:/ M:%= ^M:% M:%= ^M:& M:%= ^M:| M:%= ^M:^ M:%= ^M:. M:%= ^M:? M:%= ^M:: M:%= ^M:= M:&= ^M:< M:&= ^M:> M:&= ^M:! M:&= ^M:+ M:&= ^M:- M:&= ^M:* M:&= ^M:/ M:&= ^M:% M:&= ^M:&& M:= ^M:| M:&= ^M:^ M:&= ^M:. M:&= ^M:? M:&= ^M:: M:&= ^M:= M:|= ^M:< M:|= ^M:> M:|= ^M:! M:|= ^M:+ M:|= ^M:- M:|= ^M:* M:|= ^M:/ M:|= ^M:% M:|= ^M:& M:|= ^M:|| M:= ^M:^ M:|= ^M:. M:|= ^M:? M:|= ^M:: M:|= ^M:= M:^= ^M:< M:^= ^M:> M:^= ^M:! M:^= ^M:+ M:^= ^M:- M:^= ^M:* M:^= ^M:/ M:^= ^M:% M:^= ^M:& M:^= ^M:| M:^= ^M:^ M:^= ^M:. M:^= ^M:? M:^= ^M:: M:^= ^M:= M:&& ^M:< M:&& ^M:> M:&& ^M:! M:&& ^M:+ M:&& ^M:- M:&& ^M:* M:&& ^M:/ M:&& ^M:% M:&& ^M:&& M:& ^M:| M:&& ^M:^ M:&& ^M:. M:&& ^M:? M:&& ^M:: M:&& ^M:= M:|| ^M:< M:|| ^M:> M:|| ^M:! M:|| ^M:+ M:|| ^M:- M:|| ^M:* M:|| ^M:/ M:|| ^M:% M:|| ^M:& M:|| ^M:|| M:| ^M:^ M:|| ^M:. M:|| ^M:? M:|| ^M:: M:|| ^M:= M:<< ^M:<< M:< ^M:> M:<< ^M:! M:<< ^M:+ M:<< ^M:- M:<< ^M:* M:<< ^M:/ M:<< ^M:% M:<< ^M:& M:<< ^M:| M:<< ^M:^ M:<< ^M:. M:<< ^M:? M:<< ^M:: M:<< ^M:=> M:> ^M:< M:>> ^M:>>> ^M:! M:>> ^M:+ M:>> ^M:- M:>> ^M:* M:>> ^M:/ M:>> ^M:% M:>> ^M:& M:>> ^M:| M:>> ^M:^ M:>> ^M:. M:>> ^M:? M:>> ^M:: M:>> ^M:= M:<= ^M:<<= ^M:> M:<= ^M:! M:<= ^M:+ M:<= ^M:- M:<= ^M:* M:<= ^M:/ M:<= ^M:% M:<= ^M:& M:<= ^M:| M:<= ^M:^ M:<= ^M:. M:<= ^M:? M:<= ^M:: M:<= ^M:=> M:= ^M:< M:>= ^M:>>= ^M:! M:>= ^M:+ M:>= ^M:- M:>= ^M:* M:>= ^M:/ M:>= ^M:% M:>= ^M:& M:>= ^M:| M:>= ^M:^ M:>= ^M:. M:>= ^M:? M:>= ^M:: M:>= ^M:= M:{ ^M:< M:{ ^M:> M:{ ^M:! M:{ ^M:+ M:{ ^M:- M:{ ^M:* M:{ ^M:/ M:{ ^M:% M:{ ^M:& M:{ ^M:| M:{ ^M:^ M:{ ^M:. M:{ ^M:? M:{ ^M:: M:{ ^M:= M:} ^M:< M:} ^M:> M:} ^M:! M:} ^M:+ M:} ^M:- M:} ^M:* M:} ^M:/ M:} ^M:% M:} ^M:& M:} ^M:| M:} ^M:^ M:} ^M:. M:} ^M:? M:} ^M:: M:} ^M:= M:( ^M:< M:( ^M:> M:( ^M:! M:( ^M:+ M:( ^M:- M:( ^M:* M:( ^M:/ M:( ^M:% M:( ^M:& M:( ^M:| M:( ^M:^ M:( ^M:. M:( ^M:? M:( ^M:: M:( ^M:= M:) ^M:< M:) ^M:> M:) ^M:! M:) ^M:+ M:) ^M:- M:) ^M:* M:) ^M:/ M:) ^M:% M:) ^M:& M:) ^M:| M:) ^M:^ M:) ^M:. M:) ^M:? M:) ^M:: M:) ^M:= M:[ ^M:< M:[ ^M:> M:[ ^M:! M:[ ^M:+ M:[ ^M:- M:[ ^M:* M:[ ^M:/ M:[ ^M:% M:[ ^M:& M:[ ^M:| M:[ ^M:^ M:[ ^M:. M:[ ^M:? M:[ ^M:: M:[ ^M:= M:] ^M:< M:] ^M:> M:] ^M:! M:] ^M:+ M:] ^M:- M:] ^M:* M:] ^M:/ M:] ^M:% M:] ^M:& M:] ^M:| M:] ^M:^ M:] ^M:. M:] ^M:? M:] ^M:: M:] ^M:= M:. ^M:< M:. ^M:> M:. ^M:! M:. ^M:+ M:. ^M:- M:. ^M:* M:. ^M:/ M:. ^M:% M:. ^M:& M:. ^M:| M:. ^M:^ M:. ^M:. M:. ^M:? M:. ^M:: M:. ^M:= M:; ^M:< M:; ^M:> M:; ^M:! M:; ^M:+ M:; ^M:- M:; ^M:* M:; ^M:/ M:; ^M:% M:; ^M:& M:; ^M:| M:; ^M:^ M:; ^M:. M:; ^M:? M:; ^M:: M:; ^M:= M:, ^M:< M:, ^M:> M:, ^M:! M:, ^M:+ M:, ^M:- M:, ^M:* M:, ^M:/ M:, ^M:% M:, ^M:& M:, ^M:| M:, ^M:^ M:, ^M:. M:, ^M:? M:, ^M:: M:, ^M:= M:< ^M:<< ^M:> M:< ^M:! M:< ^M:+ M:< ^M:- M:< ^M:* M:< ^M:/ M:< ^M:% M:< ^M:& M:< ^M:| M:< ^M:^ M:< ^M:. M:< ^M:? M:< ^M:: M:< ^M:=> ^M:< M:> ^M:>> ^M:! M:> ^M:+ M:> ^M:- M:> ^M:* M:> ^M:/ M:> ^M:% M:> ^M:& M:> ^M:| M:> ^M:^ M:> ^M:. M:> ^M:? M:> ^M:: M:> ^M:= M:+ ^M:< M:+ ^M:> M:+ ^M:! M:+ ^M:++ ^M:- M:+ ^M:* M:+ ^M:/ M:+ ^M:% M:+ ^M:& M:+ ^M:| M:+ ^M:^ M:+ ^M:. M:+ ^M:? M:+ ^M:: M:+ ^M:= M:- ^M:< M:- ^M:> M:- ^M:! M:- ^M:+ M:- ^M:-- ^M:* M:- ^M:/ M:- ^M:% M:- ^M:& M:- ^M:| M:- ^M:^ M:- ^M:. M:- ^M:? M:- ^M:: M:- ^M:= M:* ^M:< M:* ^M:> M:* ^M:! M:* ^M:+ M:* ^M:- M:* ^M:* M:* ^M:% M:* ^M:& M:* ^M:| M:* ^M:^ M:* ^M:. M:* ^M:? M:* ^M:: M:* ^M:= M:/ ^M:< M:/ ^M:> M:/ ^M:! M:/ ^M:+ M:/ ^M:- M:/ ^M:* M:/ ^M:% M:/ ^M:& M:/ ^M:| M:/ ^M:^ M:/ ^M:. M:/ ^M:? M:/ ^M:: M:/ ^M:= M:% ^M:< M:% ^M:> M:% ^M:! M:% ^M:+ M:% ^M:- M:% ^M:* M:% ^M:/ M:% ^M:% M:% ^M:& M:% ^M:| M:% ^M:^ M:% ^M:. M:% ^M:? M:% ^M:: M:% ^M:= M:& ^M:< M:& ^M:> M:& ^M:! M:& ^M:+ M:& ^M:- M:& ^M:* M:& ^M:/ M:& ^M:% M:& ^M:&& ^M:| M:& ^M:^ M:& ^M:. M:& ^M:? M:& ^M:: M:& ^M:= M:| ^M:< M:| ^M:> M:| ^M:! M:| ^M:+ M:| ^M:- M:| ^M:* M:| ^M:/ M:| ^M:% M:| ^M:& M:| ^M:|| ^M:^ M:| ^M:. M:| ^M:? M:| ^M:: M:| ^M:= M:^ ^M:< M:^ ^M:> M:^ ^M:! M:^ ^M:+ M:^ ^M:- M:^ ^M:* M:^ ^M:/ M:^ ^M:% M:^ ^M:& M:^ ^M:| M:^ ^M:^ M:^ ^M:. M:^ ^M:? M:^ ^M:: M:^ ^M:= M:! ^M:< M:! ^M:> M:! ^M:! M:! ^M:+ M:! ^M:- M:! ^M:* M:! ^M:/ M:! ^M:% M:! ^M:& M:! ^M:| M:! ^M:^ M:! ^M:. M:! ^M:? M:! ^M:: M:! ^M:= M:~ ^M:< M:~ ^M:> M:~ ^M:! M:~ ^M:+ M:~ ^M:- M:~ ^M:* M:~ ^M:/ M:~ ^M:% M:~ ^M:& M:~ ^M:| M:~ ^M:^ M:~ ^M:. M:~ ^M:? M:~ ^M:: M:~ ^M:= M:? ^M:< M:? ^M:> M:? ^M:! M:? ^M:+ M:? ^M:- M:? ^M:* M:? ^M:/ M:? ^M:% M:? ^M:& M:? ^M:| M:? ^M:^ M:? ^M:. M:? ^M:? M:? ^M:: M:? ^M:= M:: ^M:< M:: ^M:> M:: ^M:! M:: ^M:+ M:: ^M:- M:: ^M:* M:: ^M:/ M:: ^M:% M:: ^M:& M:: ^M:| M:: ^M:^ M:: ^M:. M:: ^M:? M:: ^M:: M:: ^M:= M:= ^M:<= ^M:>= ^M:! M:= ^M:+= ^M:-= ^M:*= ^M:/= ^M:%= ^M:&= ^M:|= ^M:^= ^M:. M:= ^M:? M:= ^M:: M:=¶\
arguments await break case catch class const continue debugger default delete do else enum eval export extends false finally for function if implements import in instanceof interface let new null package private protected public return static super switch this throw true try typeof undefined var void while with yield argumentsx awaitx breakx casex catchx classx constx continuex debuggerx defaultx deletex dox elsex enumx evalx exportx extendsx falsex finallyx forx functionx ifx implementsx importx inx instanceofx interfacex letx newx nullx packagex privatex protectedx publicx returnx staticx superx switchx thisx throwx truex tryx typeofx undefinedx varx voidx whilex withx yieldx xarguments xawait xbreak xcase xcatch xclass xconst xcontinue xdebugger xdefault xdelete xdo xelse xenum xeval xexport xextends xfalse xfinally xfor xfunction xif ximplements ximport xin xinstanceof xinterface xlet xnew xnull xpackage xprivate xprotected xpublic xreturn xstatic xsuper xswitch xthis xthrow xtrue xtry xtypeof xundefined xvar xvoid xwhile xwith xyield arguments1 await1 break1 case1 catch1 class1 const1 continue1 debugger1 default1 delete1 do1 else1 enum1 eval1 export1 extends1 false1 finally1 for1 function1 if1 implements1 import1 in1 instanceof1 interface1 let1 new1 null1 package1 private1 protected1 public1 return1 static1 super1 switch1 this1 throw1 true1 try1 typeof1 undefined1 var1 void1 while1 with1 yield1 ARGUMENTS AWAIT BREAK CASE CATCH CLASS CONST CONTINUE DEBUGGER DEFAULT DELETE DO ELSE ENUM EVAL EXPORT EXTENDS FALSE FINALLY FOR FUNCTION IF IMPLEMENTS IMPORT IN INSTANCEOF INTERFACE LET NEW NULL PACKAGE PRIVATE PROTECTED PUBLIC RETURN STATIC SUPER SWITCH THIS THROW TRUE TRY TYPEOF UNDEFINED VAR VOID WHILE WITH YIELD argument awai brea cas catc clas cons continu debugge defaul delet d els enu eva expor extend fals finall fo functio i implement impor i instanceo interfac le ne nul packag privat protecte publi retur stati supe switc thi thro tru tr typeo undefine va voi whil wit yiel→W:arguments W:await W:break W:case W:catch W:class W:const W:continue W:debugger W:default W:delete W:do W:else W:enum W:eval W:export W:extends W:false W:finally W:for W:function W:if W:implements W:import W:in W:instanceof W:interface W:let W:new W:null W:package W:private W:protected W:public W:return W:static W:super W:switch W:this W:throw W:true W:try W:typeof W:undefined W:var W:void W:while W:with W:yield N:argumentsx N:awaitx N:breakx N:casex N:catchx N:classx N:constx N:continuex N:debuggerx N:defaultx N:deletex N:dox N:elsex N:enumx N:evalx N:exportx N:extendsx N:falsex N:finallyx N:forx N:functionx N:ifx N:implementsx N:importx N:inx N:instanceofx N:interfacex N:letx N:newx N:nullx N:packagex N:privatex N:protectedx N:publicx N:returnx N:staticx N:superx N:switchx N:thisx N:throwx N:truex N:tryx N:typeofx N:undefinedx N:varx N:voidx N:whilex N:withx N:yieldx N:xarguments N:xawait N:xbreak N:xcase N:xcatch N:xclass N:xconst N:xcontinue N:xdebugger N:xdefault N:xdelete N:xdo N:xelse N:xenum N:xeval N:xexport N:xextends N:xfalse N:xfinally N:xfor N:xfunction N:xif N:ximplements N:ximport N:xin N:xinstanceof N:xinterface N:xlet N:xnew N:xnull N:xpackage N:xprivate N:xprotected N:xpublic N:xreturn N:xstatic N:xsuper N:xswitch N:xthis N:xthrow N:xtrue N:xtry N:xtypeof N:xundefined N:xvar N:xvoid N:xwhile N:xwith N:xyield N:arguments1 N:await1 N:break1 N:case1 N:catch1 N:class1 N:const1 N:continue1 N:debugger1 N:default1 N:delete1 N:do1 N:else1 N:enum1 N:eval1 N:export1 N:extends1 N:false1 N:finally1 N:for1 N:function1 N:if1 N:implements1 N:import1 N:in1 N:instanceof1 N:interface1 N:let1 N:new1 N:null1 N:package1 N:private1 N:protected1 N:public1 N:return1 N:static1 N:super1 N:switch1 N:this1 N:throw1 N:true1 N:try1 N:typeof1 N:undefined1 N:var1 N:void1 N:while1 N:with1 N:yield1 N:ARGUMENTS N:AWAIT N:BREAK N:CASE N:CATCH N:CLASS N:CONST N:CONTINUE N:DEBUGGER N:DEFAULT N:DELETE N:DO N:ELSE N:ENUM N:EVAL N:EXPORT N:EXTENDS N:FALSE N:FINALLY N:FOR N:FUNCTION N:IF N:IMPLEMENTS N:IMPORT N:IN N:INSTANCEOF N:INTERFACE N:LET N:NEW N:NULL N:PACKAGE N:PRIVATE N:PROTECTED N:PUBLIC N:RETURN N:STATIC N:SUPER N:SWITCH N:THIS N:THROW N:TRUE N:TRY N:TYPEOF N:UNDEFINED N:VAR N:VOID N:WHILE N:WITH N:YIELD N:argument N:awai N:brea N:cas N:catc N:clas N:cons N:continu N:debugge N:defaul N:delet N:d N:els N:enu N:eva N:expor N:extend N:fals N:finall N:fo N:functio N:i N:implement N:impor N:i N:instanceo N:interfac N:le N:ne N:nul N:packag N:privat N:protecte N:publi N:retur N:stati N:supe N:switc N:thi N:thro N:tru N:tr N:typeo N:undefine N:va N:voi N:whil N:wit N:yiel¶\
arguments;arguments'' arguments+ await;await'' await+ break;break'' break+ case;case'' case+ catch;catch'' catch+ class;class'' class+ const;const'' const+ continue;continue'' continue+ debugger;debugger'' debugger+ default;default'' default+ delete;delete'' delete+ do;do'' do+ else;else'' else+ enum;enum'' enum+ eval;eval'' eval+ export;export'' export+ extends;extends'' extends+ false;false'' false+ finally;finally'' finally+ for;for'' for+ function;function'' function+ if;if'' if+ implements;implements'' implements+ import;import'' import+ in;in'' in+ instanceof;instanceof'' instanceof+ interface;interface'' interface+ let;let'' let+ new;new'' new+ null;null'' null+ package;package'' package+ private;private'' private+ protected;protected'' protected+ public;public'' public+ return;return'' return+ static;static'' static+ super;super'' super+ switch;switch'' switch+ this;this'' this+ throw;throw'' throw+ true;true'' true+ try;try'' try+ typeof;typeof'' typeof+ undefined;undefined'' undefined+ var;var'' var+ void;void'' void+ while;while'' while+ with;with'' with+ yield;yield'' yield+→W:arguments M:; W:arguments T:'' W:arguments M:+ W:await M:; W:await T:'' W:await M:+ W:break M:; W:break T:'' W:break M:+ W:case M:; W:case T:'' W:case M:+ W:catch M:; W:catch T:'' W:catch M:+ W:class M:; W:class T:'' W:class M:+ W:const M:; W:const T:'' W:const M:+ W:continue M:; W:continue T:'' W:continue M:+ W:debugger M:; W:debugger T:'' W:debugger M:+ W:default M:; W:default T:'' W:default M:+ W:delete M:; W:delete T:'' W:delete M:+ W:do M:; W:do T:'' W:do M:+ W:else M:; W:else T:'' W:else M:+ W:enum M:; W:enum T:'' W:enum M:+ W:eval M:; W:eval T:'' W:eval M:+ W:export M:; W:export T:'' W:export M:+ W:extends M:; W:extends T:'' W:extends M:+ W:false M:; W:false T:'' W:false M:+ W:finally M:; W:finally T:'' W:finally M:+ W:for M:; W:for T:'' W:for M:+ W:function M:; W:function T:'' W:function M:+ W:if M:; W:if T:'' W:if M:+ W:implements M:; W:implements T:'' W:implements M:+ W:import M:; W:import T:'' W:import M:+ W:in M:; W:in T:'' W:in M:+ W:instanceof M:; W:instanceof T:'' W:instanceof M:+ W:interface M:; W:interface T:'' W:interface M:+ W:let M:; W:let T:'' W:let M:+ W:new M:; W:new T:'' W:new M:+ W:null M:; W:null T:'' W:null M:+ W:package M:; W:package T:'' W:package M:+ W:private M:; W:private T:'' W:private M:+ W:protected M:; W:protected T:'' W:protected M:+ W:public M:; W:public T:'' W:public M:+ W:return M:; W:return T:'' W:return M:+ W:static M:; W:static T:'' W:static M:+ W:super M:; W:super T:'' W:super M:+ W:switch M:; W:switch T:'' W:switch M:+ W:this M:; W:this T:'' W:this M:+ W:throw M:; W:throw T:'' W:throw M:+ W:true M:; W:true T:'' W:true M:+ W:try M:; W:try T:'' W:try M:+ W:typeof M:; W:typeof T:'' W:typeof M:+ W:undefined M:; W:undefined T:'' W:undefined M:+ W:var M:; W:var T:'' W:var M:+ W:void M:; W:void T:'' W:void M:+ W:while M:; W:while T:'' W:while M:+ W:with M:; W:with T:'' W:with M:+ W:yield M:; W:yield T:'' W:yield M:+¶\
";

/// Whether a source has these tokens, or this fault.
fn is_shown(alloc: Global, source: &[u8], wanted: &str) -> Result<bool, AllocError> {
    if source.len() > 100_000 {
        return Ok(false);
    }
    Ok(shown(alloc, source)?.as_str() == wanted)
}

/// The first row whose tokens are others.
fn first_misshown(alloc: Global) -> Result<Option<&'static str>, AllocError> {
    for row in CASES.split_terminator('¶') {
        let Some((source, wanted)) = row.split_once('→') else {
            return Ok(Some(row));
        };
        if !is_shown(alloc, source.as_bytes(), wanted)? {
            return Ok(Some(row));
        }
    }
    Ok(None)
}

#[test]
fn sources_and_their_tokens(rt: HostRuntime) -> Result<(), Fail> {
    assert_eq!(rt; first_misshown(rt.alloc())?, None);
    Ok(())
}

/// What each byte is alone: a name, a number, a mark, a text without an end, a gap or no source.
const ALONE: &[u8; 256] =
    b"xxxxxxxxx  xx xxxxxxxxxxxxxxxxxx MUxNMMUMMMMMMMMDDDDDDDDDDMMMMMMxNNNNNNNNNNNNNNNNNNNNNNNNNNMxMMNxNNNNNNNNNNNNNNNNNNNNNNNNNNMMMMxxxxxxxxxxxxxxxxxxxxxxxxxxxxxxxxxxxxxxxxxxxxxxxxxxxxxxxxxxxxxxxxxxxxxxxxxxxxxxxxxxxxxxxxxxxxxxxxxxxxxxxxxxxxxxxxxxxxxxxxxxxxxxxxx";

/// The tokens of a byte alone, or its fault.
fn alone(alloc: Global, byte: u8) -> Result<String, AllocError> {
    match ALONE[usize::from(byte)] {
        b' ' => Ok(String::new(alloc)),
        b'x' => String::from_str(alloc, "BadByte 0"),
        b'U' => String::from_str(alloc, "Unclosed 0"),
        kind => format!(in alloc; "{}:{}", char::from(kind), char::from(byte)),
    }
}

/// The first byte whose tokens are others.
fn first_byte_misshown(alloc: Global) -> Result<Option<u8>, AllocError> {
    for byte in 0..=255u8 {
        if !is_shown(alloc, &[byte], alone(alloc, byte)?.as_str())? {
            return Ok(Some(byte));
        }
    }
    Ok(None)
}

#[test]
fn every_byte_alone(rt: HostRuntime) -> Result<(), Fail> {
    assert_eq!(rt; first_byte_misshown(rt.alloc())?, None);
    Ok(())
}

/// A source as long as one may be: a byte again and again, between two ends.
fn long(alloc: Global, front: &[u8], byte: u8, end: &[u8]) -> Result<Vec<u8>, AllocError>
    requires { length front.now + length end.now < 100 }
    ensures { IfOk result (λ source. length source.items ≡ MOST_SOURCE_BYTES) }
{
    let mut source = vec![in alloc; byte; MOST_SOURCE_BYTES as usize - front.len() - end.len()]?;
    source.extend_from_slice(end)?;
    let mut whole = Vec::new(alloc);
    whole.extend_from_slice(front)?;
    whole.extend_from_slice(source.as_slice())?;
    Ok(whole)
}

/// What stands in front, the byte, what stands at the end, and how many tokens the source has.
const LONG: [(&[u8], u8, &[u8], usize); 6] = [
    (b"", b'a', b"", 1),
    (b"'", b'a', b"'", 1),
    (b"/*", b'*', b"*/", 0),
    (b"//", b'/', b"", 0),
    (b"", b'+', b"", 524_288),
    (b"", b';', b"", 1_048_576),
];

/// How many tokens a source has that is as long as one may be.
fn count(alloc: Global, front: &[u8], byte: u8, end: &[u8]) -> Result<Option<usize>, AllocError> {
    if front.len() + end.len() >= 100 {
        return Ok(None);
    }
    let source = long(alloc, front, byte, end)?;
    match tokens(alloc, source.as_slice()) {
        Ok(list) => Ok(Some(list.len())),
        Err(LexFault::NoMemory) => Err(AllocError),
        Err(_) => Ok(None),
    }
}

/// The first row that has another number of tokens.
fn first_miscounted(alloc: Global) -> Result<Option<usize>, AllocError> {
    for (row, (front, byte, end, wanted)) in LONG.iter().enumerate() {
        if count(alloc, front, *byte, end)? != Some(*wanted) {
            return Ok(Some(row));
        }
    }
    Ok(None)
}

#[test]
fn sources_as_long_as_they_may_be(rt: HostRuntime) -> Result<(), Fail> {
    assert_eq!(rt; first_miscounted(rt.alloc())?, None);
    Ok(())
}

/// Numbers, and the values of those that have one.
const NUMBERS: [(&[u8], Option<u64>); 9] = [
    (b"0", Some(0)),
    (b"10", Some(10)),
    (b"1234567890", Some(1_234_567_890)),
    (b"0x0", Some(0)),
    (b"0XaF", Some(175)),
    (b"0x1fffffffffffff", Some(9_007_199_254_740_991)),
    (b"9007199254740991", Some(9_007_199_254_740_991)),
    (b"9007199254740992", None),
    (b"99999999999999999999999", None),
];

/// The first number that has another value.
fn first_misread() -> Option<usize> {
    for (row, (text, wanted)) in NUMBERS.iter().enumerate() {
        if safe_number(text) != *wanted {
            return Some(row);
        }
    }
    None
}

#[test]
fn values_of_numbers(rt: HostRuntime) {
    assert_eq!(rt; first_misread(), None);
}

/// Texts with their quotes, and their units.
const TEXTS: [(&[u8], &[u16]); 6] = [
    (b"''", &[]),
    (b"'ab'", &[97, 98]),
    (b"'\\b\\t\\n\\v\\f\\r\\0'", &[8, 9, 10, 11, 12, 13, 0]),
    (b"'\\x41\\xfF\\u0041\\u00e9'", &[65, 255, 65, 233]),
    (b"'\\'\\\"\\\\\\a'", &[39, 34, 92, 97]),
    (b"\"it's\"", &[105, 116, 39, 115]),
];

/// The first text that stands for other units.
fn first_misspelt(alloc: Global) -> Result<Option<usize>, AllocError> {
    for (row, (text, wanted)) in TEXTS.iter().enumerate() {
        if text.len() < 2 || text_units(alloc, text)?.as_slice() != *wanted {
            return Ok(Some(row));
        }
    }
    Ok(None)
}

#[test]
fn units_of_texts(rt: HostRuntime) -> Result<(), Fail> {
    assert_eq!(rt; first_misspelt(rt.alloc())?, None);
    Ok(())
}
