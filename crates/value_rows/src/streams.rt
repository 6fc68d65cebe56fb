use guards_base::{Bytes, Numbers};
use guards_io::{Failed, MemSink, MemSource, Sink, Source, StdSink, StdSource};
use std::test::Fail;

#[test]
fn a_source_gives_its_bytes(rt: HostRuntime) -> Result<(), Fail> {
    let alloc = rt.alloc();
    let bytes = Bytes::from_slice(alloc, &[1, 2, 3])?;
    let mut src = MemSource::new(bytes, 2, Numbers::from_slice(alloc, &[1])?);
    let mut buf = [0; 8];
    assert_eq!(rt; src.read(&mut buf), Ok(2));
    assert_eq!(rt; src.read(&mut buf), Err(Failed));
    assert_eq!(rt; src.read(&mut buf), Ok(1));
    assert_eq!(rt; buf[0], 3);
    assert_eq!(rt; src.read(&mut buf), Ok(0));
    Ok(())
}

#[test]
fn a_sink_takes_its_room(rt: HostRuntime) -> Result<(), Fail> {
    let alloc = rt.alloc();
    let mut out = MemSink::new(alloc, 3, 2, Numbers::new(alloc))?;
    assert_eq!(rt; out.write(&[1, 2, 3, 4]), Ok(2));
    assert_eq!(rt; out.write(&[3, 4]), Ok(1));
    assert_eq!(rt; out.write(&[4]), Err(Failed));
    assert_eq!(rt; out.write(&[]), Ok(0));
    assert_eq!(rt; out.bytes(), [1, 2, 3].as_slice());
    Ok(())
}

#[test]
fn std_is_adapted(rt: HostRuntime) -> Result<(), Fail> {
    let mut src = StdSource::new([7, 8].as_slice());
    let mut buf = [0; 8];
    assert_eq!(rt; src.read(&mut buf), Ok(2));
    assert_eq!(rt; buf[1], 8);
    assert_eq!(rt; src.read(&mut buf), Ok(0));
    let held: Vec<u8> = Vec::new(rt.alloc());
    let mut out = StdSink::new(held);
    assert_eq!(rt; out.write(&[7, 8]), Ok(2));
    Ok(())
}
