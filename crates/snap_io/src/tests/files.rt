//! Files in memory.

ghost use Rattle.std.specs.Prelude.{◌≡◌, IfOk};
ghost use Rattle.snap_io.specs.NamedFile.{AreApart};

use super::*;
use std::alloc::{AllocError, Global};
use std::test::Fail;

/// A file of the name `a`.
fn one_file(alloc: Global) -> Result<Vec<NamedFile>, AllocError>
    ensures { IfOk result (λ files. AreApart files.items) }
{
    let name = String::from_str(alloc, "a")?;
    let bytes = Vec::from_slice(alloc, b"abc")?;
    Ok(vec![in alloc; NamedFile { name, bytes }]?)
}

#[test]
fn files_that_may_fail(rt: HostRuntime) -> Result<(), Fail> {
    let mut files = MemFiles::new(rt.alloc(), one_file(rt.alloc())?, Vec::new(rt.alloc()));
    assert_eq!(rt;
        first_misanswered(&mut files, "a", "b", &WRITES_AND_READS),
        None
    );
    assert_eq!(rt; files.held("b"), Some(b"xy".as_slice()));
    assert_eq!(rt; files.held("c"), None);
    Ok(())
}

#[test]
fn honest_files(rt: HostRuntime) -> Result<(), Fail> {
    let mut files = HonestFiles::new(rt.alloc(), one_file(rt.alloc())?);
    assert!(rt; is_answered(&mut files, "c", Call::Read(0, Ok(b""))));
    assert_eq!(rt;
        first_misanswered(&mut files, "b", "a", &WRITES_AND_READS),
        None
    );
    assert_eq!(rt; files.held("a"), Some(b"xy".as_slice()));
    assert_eq!(rt; files.held("c"), None);
    Ok(())
}

/// Calls at files of which those with the numbers 0, 2 and 3 fail, and that do not hold the second.
const LISTED: [(Place, Call); 6] = [
    (Place::First, Call::Read(3, Err(ReadAnswer::Failed))),
    (Place::First, Call::Write(b"x", None)),
    (Place::First, Call::Write(b"yz", Some(WriteAnswer::Failed))),
    (Place::First, Call::Read(3, Err(ReadAnswer::Failed))),
    (Place::Second, Call::Read(3, Err(ReadAnswer::Failed))),
    (Place::First, Call::Read(3, Ok(b"x"))),
];

#[test]
fn listed_calls_fail(rt: HostRuntime) -> Result<(), Fail> {
    let fails = vec![in rt.alloc(); 0, 2, 3]?;
    let mut files = MemFiles::new(rt.alloc(), one_file(rt.alloc())?, fails);
    assert_eq!(rt; first_misanswered(&mut files, "a", "b", &LISTED), None);
    Ok(())
}
