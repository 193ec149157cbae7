//! Each call once, with ample memory.
use super::*;
use std::test::Fail;

#[test]
fn reads_to_the_end(rt: HostRuntime) -> Result<(), Fail> {
    let alloc = rt.alloc();
    let mut source = MemSource::new(b"some text".to_vec(alloc)?, Vec::new(alloc));
    let bytes = read_whole(alloc, &mut source)?;
    assert_eq!(rt; bytes.as_slice(), b"some text".as_slice());
    Ok(())
}

#[test]
fn a_sure_source_reads_to_the_end(rt: HostRuntime) -> Result<(), Fail> {
    let alloc = rt.alloc();
    let bytes = read_whole(alloc, &mut SureSource::new(b"sure".to_vec(alloc)?))?;
    assert_eq!(rt; bytes.as_slice(), b"sure".as_slice());
    Ok(())
}

#[test]
fn the_second_read_fails(rt: HostRuntime) -> Result<(), Fail> {
    let alloc = rt.alloc();
    let mut source = MemSource::new(b"text".to_vec(alloc)?, [2].to_vec(alloc)?);
    assert_eq!(rt;
        read_whole(alloc, &mut source).err(),
        Some(ReadError::Failed)
    );
    Ok(())
}

#[test]
fn a_reader_of_std_is_read(rt: HostRuntime) -> Result<(), Fail> {
    let alloc = rt.alloc();
    let mut source = StdSource::new(b"over std".as_slice());
    assert_eq!(rt;
        read_whole(alloc, &mut source)?.as_slice(),
        b"over std".as_slice()
    );
    Ok(())
}

#[test]
fn a_text_is_written_whole(rt: HostRuntime) -> Result<(), Fail> {
    let alloc = rt.alloc();
    let mut sink = MemSink::new(alloc, 8, Vec::new(alloc))?;
    write_whole(&mut sink, b"text")?;
    assert_eq!(rt; sink.bytes(), b"text".as_slice());
    Ok(())
}

#[test]
fn what_fits_is_written(rt: HostRuntime) -> Result<(), Fail> {
    let alloc = rt.alloc();
    let mut sink = MemSink::new(alloc, 3, Vec::new(alloc))?;
    assert!(rt; write_whole(&mut sink, b"text").is_err());
    assert_eq!(rt; sink.bytes(), b"tex".as_slice());
    Ok(())
}

#[test]
fn a_writer_of_std_is_written(rt: HostRuntime) -> Result<(), Fail> {
    let alloc = rt.alloc();
    let mut bytes = Vec::new(alloc);
    write_whole(&mut StdSink::new(&mut bytes), b"text")?;
    assert_eq!(rt; bytes.as_slice(), b"text".as_slice());
    Ok(())
}
