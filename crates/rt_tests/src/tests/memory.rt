// The forms in memory, call by call.
use rt_base::Bytes;
use rt_io::{BytesSink, FileFault, Files, FilesOf, Sink, SinkFault};
use std::test::Fail;

#[test]
fn reads_are_numbered(rt: HostRuntime) -> Result<(), Fail> {
    let alloc = rt.alloc();
    let name = Bytes::from_vec(b"a".to_vec(alloc)?);
    let content = Bytes::from_vec(b"content".to_vec(alloc)?);
    let contents = vec![in alloc; (name, content)]?;
    let mut files = FilesOf::new(contents, vec![in alloc; 1]?);
    let first = files.read(alloc, "a", 7);
    assert!(rt; first.is_ok_and(|bytes| bytes.as_slice() == b"content".as_slice()));
    assert!(rt; files.read(alloc, "a", 7) == Err(FileFault::Failed));
    assert!(rt; files.read(alloc, "a", 6) == Err(FileFault::Longer));
    assert!(rt; files.read(alloc, "b", 7) == Err(FileFault::Failed));
    Ok(())
}

#[test]
fn puts_are_numbered(rt: HostRuntime) -> Result<(), Fail> {
    let alloc = rt.alloc();
    let mut sink = BytesSink::new(alloc, 10, vec![in alloc; 1]?, 2)?;
    assert_eq!(rt; sink.put(b"abc"), Ok(()));
    assert_eq!(rt; sink.put(b"defg"), Err(SinkFault::Failed));
    assert_eq!(rt; sink.put(b"hijklm"), Err(SinkFault::Failed));
    assert_eq!(rt; sink.put(b"nopqr"), Ok(()));
    assert!(rt; sink.written() == b"abcdenopqr".as_slice());
    Ok(())
}
