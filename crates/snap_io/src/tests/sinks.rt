//! Sinks in memory.

use super::*;
use std::test::Fail;

#[test]
fn a_listed_piece_fails(rt: HostRuntime) -> Result<(), Fail> {
    let mut sink = MemSink::new(rt.alloc(), vec![in rt.alloc(); 1]?);
    let pieces: [(&[u8], Option<WriteAnswer>); 3] = [
        (b"ab", None),
        (b"cd", Some(WriteAnswer::Failed)),
        (b"ef", None),
    ];
    assert_eq!(rt; first_misput(&mut sink, &pieces), None);
    assert_eq!(rt; sink.written(), b"abef".as_slice());
    Ok(())
}

#[test]
fn an_honest_sink(rt: HostRuntime) {
    let mut sink = HonestSink::new(rt.alloc());
    assert_eq!(rt;
        first_misput(&mut sink, &[(b"ab", None), (b"", None)]),
        None
    );
    assert_eq!(rt; sink.written(), b"ab".as_slice());
}
