use outside_core::{Fuse, MemSink, MemSource, Sink, SinkErr, Source, SourceErr, write_all};
use std::test::Fail;

#[test]
fn a_source_fails_at_the_listed_call_and_goes_on(rt: HostRuntime) -> Result<(), Fail> {
    let alloc = rt.alloc();
    let bytes = vec![in alloc; 1, 2, 3, 4, 5]?;
    let mut source = MemSource::of(bytes, vec![in alloc; 1]?);
    let mut got = Vec::new(alloc);
    assert_eq!(rt; source.read(2, &mut got), Ok(2));
    assert_eq!(rt; source.read(2, &mut got), Err(SourceErr::Failed));
    assert_eq!(rt; source.faults(), 1);
    assert_eq!(rt; got.as_slice(), [1, 2].as_slice());
    assert_eq!(rt; source.read(9, &mut got), Ok(3));
    assert_eq!(rt; source.read(9, &mut got), Ok(0));
    assert_eq!(rt; got.as_slice(), [1, 2, 3, 4, 5].as_slice());
    assert_eq!(rt; source.faults(), 1);
    Ok(())
}

#[test]
fn a_sink_keeps_what_it_took_before_it_failed(rt: HostRuntime) -> Result<(), Fail> {
    let alloc = rt.alloc();
    let mut sink = MemSink::new(alloc, vec![in alloc; 2]?);
    assert_eq!(rt; sink.write(&[7, 8]), Ok(2));
    assert_eq!(rt; write_all(&mut sink, &[9]), Ok(()));
    assert_eq!(rt; write_all(&mut sink, &[1]), Err(SinkErr::Failed));
    assert_eq!(rt; sink.faults(), 1);
    assert_eq!(rt; sink.bytes(), [7, 8, 9].as_slice());
    let mut fuse = Fuse::new(vec![in alloc; 0]?);
    assert!(rt; fuse.call());
    assert!(rt; !fuse.call());
    assert_eq!(rt; fuse.faults(), 1);
    Ok(())
}
