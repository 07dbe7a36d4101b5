//! The line that tells an answer.

ghost use Rattle.std.specs.Prelude.{◌≡◌, [], IfOk};
ghost use Rattle.std.specs.String.{string_bytes};
ghost use Rattle.snap_commands.specs.Line.{count_line, fault_line, kind_name, lex_kind, lex_place, parse_kind, parse_place, refused_kind, refused_place, refused_text, scope_kind, scope_place, status_of};

use crate::fault::Fault;
use crate::refused::SourceRefused;
use snap_base::MOST_SOURCE_BYTES;
use snap_blob::{BlobFault, BlobKind};
use snap_lex::LexFault;
use snap_parse::SourceFault;
use snap_scope::ScopeFault;
use std::alloc::{AllocError, Global};

/// The line of a fault, with its line feed, where `name` is that of the file whose read failed or of the
/// source that is refused; nothing where the fault has no line.
pub(crate) fn fault_line(alloc: Global, name: &str, fault: Fault) -> Result<String, AllocError>
    ensures { IfOk result (λ line. string_bytes line ≡ fault_line name.now fault) }
{
    match fault {
        Fault::Words => String::from_str(alloc, "words refused\n"),
        Fault::Source(_, why) => source_refusal(alloc, name, why),
        Fault::Blob(fault) => refusal(alloc, fault),
        Fault::NothingToRun => String::from_str(alloc, "nothing to run\n"),
        Fault::NotBuilt => String::from_str(alloc, "not built\n"),
        Fault::Read => format!(in alloc; "read failed: {name}\n"),
        Fault::Write | Fault::NoMemory => Ok(String::new(alloc)),
    }
}

fn refusal(alloc: Global, fault: BlobFault) -> Result<String, AllocError>
    ensures { IfOk result (λ line. string_bytes line ≡ fault_line [] (Fault.Blob fault)) }
{
    let kind = kind_name(fault.kind);
    let at = fault.at;
    format!(in alloc; "blob refused: {kind} at {at}\n")
}

fn source_refusal(alloc: Global, name: &str, why: SourceRefused) -> Result<String, AllocError>
    ensures { IfOk result (λ line. string_bytes line ≡ fault_line name.now (Fault.Source 0 why)) }
{
    let mut line = format!(in alloc; "source refused: {name} ")?;
    line.push_str(&refused_text(alloc, why)?)?;
    Ok(line)
}

fn refused_text(alloc: Global, why: SourceRefused) -> Result<String, AllocError>
    ensures { IfOk result (λ text. string_bytes text ≡ refused_text why) }
{
    let kind = refused_kind(why);
    let at = refused_place(why);
    format!(in alloc; "{kind} at {at}\n")
}

fn refused_kind(why: SourceRefused) -> &'static str
    ensures { result.now ≡ refused_kind why }
{
    match why {
        SourceRefused::Parse(fault) => parse_kind(fault),
        SourceRefused::Scope(fault) => scope_kind(fault),
    }
}

fn parse_kind(fault: SourceFault) -> &'static str
    ensures { result.now ≡ parse_kind fault }
{
    match fault {
        SourceFault::Lex(fault) => lex_kind(fault),
        SourceFault::Syntax(_) => "Syntax",
        SourceFault::Nested(_) => "Nested",
        SourceFault::TooLong => "TooLong",
        SourceFault::NoMemory => "NoMemory",
    }
}

fn lex_kind(fault: LexFault) -> &'static str
    ensures { result.now ≡ lex_kind fault }
{
    match fault {
        LexFault::BadByte(_) => "BadByte",
        LexFault::Unclosed(_) => "Unclosed",
        LexFault::BigLiteral(_) => "BigLiteral",
        LexFault::NoMemory => "NoMemory",
    }
}

fn scope_kind(fault: ScopeFault) -> &'static str
    ensures { result.now ≡ scope_kind fault }
{
    match fault {
        ScopeFault::Duplicate(_) => "Duplicate",
        ScopeFault::BadTarget(_) => "BadTarget",
        ScopeFault::StrayJump(_) => "StrayJump",
        ScopeFault::NoMemory => "NoMemory",
    }
}

fn refused_place(why: SourceRefused) -> u32
    ensures { result ≡ refused_place why }
{
    match why {
        SourceRefused::Parse(fault) => parse_place(fault),
        SourceRefused::Scope(fault) => scope_place(fault),
    }
}

fn parse_place(fault: SourceFault) -> u32
    ensures { result ≡ parse_place fault }
{
    match fault {
        SourceFault::Lex(fault) => lex_place(fault),
        SourceFault::Syntax(at) | SourceFault::Nested(at) => at,
        SourceFault::TooLong => MOST_SOURCE_BYTES,
        SourceFault::NoMemory => 0,
    }
}

fn lex_place(fault: LexFault) -> u32
    ensures { result ≡ lex_place fault }
{
    match fault {
        LexFault::BadByte(at) | LexFault::Unclosed(at) | LexFault::BigLiteral(at) => at,
        LexFault::NoMemory => 0,
    }
}

fn scope_place(fault: ScopeFault) -> u32
    ensures { result ≡ scope_place fault }
{
    match fault {
        ScopeFault::Duplicate(at) | ScopeFault::BadTarget(at) | ScopeFault::StrayJump(at) => at,
        ScopeFault::NoMemory => 0,
    }
}

/// The line of a number of strings.
pub(crate) fn count_line(alloc: Global, count: u32) -> Result<String, AllocError>
    ensures { IfOk result (λ line. string_bytes line ≡ count_line count) }
{
    format!(in alloc; "ok {count} strings\n")
}

/// The name of a kind.
fn kind_name(kind: BlobKind) -> &'static str
    ensures { result.now ≡ kind_name kind }
{
    match kind {
        BlobKind::TooLong => "TooLong",
        BlobKind::TooShort => "TooShort",
        BlobKind::BadMagic => "BadMagic",
        BlobKind::BadVersion => "BadVersion",
        BlobKind::BadLength => "BadLength",
        BlobKind::BadDigest => "BadDigest",
        BlobKind::BadSections => "BadSections",
        BlobKind::ExternalMissing(_) => "ExternalMissing",
        BlobKind::Truncated => "Truncated",
        BlobKind::BadOp => "BadOp",
        BlobKind::BadNumber => "BadNumber",
        BlobKind::BadString => "BadString",
        BlobKind::BadReference => "BadReference",
        BlobKind::BadShape => "BadShape",
        BlobKind::BadTable => "BadTable",
        BlobKind::BadSource => "BadSource",
        BlobKind::BadScope => "BadScope",
        BlobKind::BadRoot => "BadRoot",
        BlobKind::Trailing => "Trailing",
    }
}

/// The status of a fault, and 0 where there is none.
pub(crate) fn status_of(fault: Option<Fault>) -> u8
    ensures { result ≡ status_of fault }
{
    match fault {
        None => 0,
        Some(Fault::Words) => 2,
        Some(Fault::Source(_, _)) => 3,
        Some(Fault::Blob(_)) => 5,
        Some(Fault::Read) => 6,
        Some(Fault::Write) => 7,
        Some(Fault::NothingToRun) => 8,
        Some(Fault::NoMemory) => 9,
        Some(Fault::NotBuilt) => 11,
    }
}
