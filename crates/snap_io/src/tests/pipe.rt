//! A real pipe.

use super::*;
use std::alloc::Global;
use std::io;
use std::io::{PipeReader, Read};
use std::test::Fail;

/// All that comes out of a pipe.
fn all_of(alloc: Global, reader: &mut PipeReader) -> io::Result<Vec<u8>> {
    let mut bytes = Vec::new(alloc);
    reader.read_to_end(&mut bytes)?;
    Ok(bytes)
}

#[test]
fn a_real_pipe(rt: HostRuntime) -> Result<(), Fail> {
    let (mut reader, writer) = io::pipe(&rt)?;
    let mut sink = StdSink::new(writer);
    let wrong = first_misput(&mut sink, &[(b"ab", None), (b"", None), (b"c", None)]);
    drop(sink);
    let bytes = all_of(rt.alloc(), &mut reader)?;
    assert_eq!(rt; wrong, None);
    assert_eq!(rt; bytes.as_slice(), b"abc".as_slice());
    Ok(())
}
