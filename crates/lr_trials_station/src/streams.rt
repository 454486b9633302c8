//! The readers and writers of std, over a real file.
use lr_io::{ReadSource, Sink, Source, StdReader, StdWriter, SureSink, SureSource, WriteSink};
use std::fs;
use std::test::Fail;

#[test]
fn a_file_is_a_sink_and_then_a_source(rt: HostRuntime) -> Result<(), Fail> {
    let mut sink = WriteSink::of(StdWriter::of(fs::create(&rt, "streams")?));
    assert!(rt; sink.put(&[7, 8, 9])? == 3);
    let mut source = ReadSource::of(StdReader::of(fs::open(&rt, "streams")?));
    let mut piece = [0; 2];
    assert!(rt; source.take(&mut piece)? == 2);
    assert!(rt; piece == [7, 8]);
    assert!(rt; source.take(&mut piece)? == 1);
    assert!(rt; piece[0] == 9);
    assert!(rt; source.take(&mut piece)? == 0);
    Ok(())
}

#[test]
fn a_writer_without_room_and_a_file_that_is_only_read_fail(rt: HostRuntime) -> Result<(), Fail> {
    let mut bytes = [0u8; 2];
    let mut full = WriteSink::of(StdWriter::of(bytes.as_mut_slice()));
    assert!(rt; full.put(&[7, 8, 9])? == 2);
    assert!(rt; full.put(&[9]).is_err());
    let mut written = ReadSource::of(StdReader::of(fs::create(&rt, "written")?));
    assert!(rt; written.take(&mut [0; 2]).is_err());
    Ok(())
}

#[test]
fn what_never_fails_gives_all(rt: HostRuntime) -> Result<(), Fail> {
    let mut source = SureSource::of(vec![in rt.alloc(); 5; 3]?);
    let mut piece = [0; 4];
    assert!(rt; source.take(&mut piece)? == 3);
    assert!(rt; piece == [5, 5, 5, 0]);
    assert!(rt; SureSink::new().put(&piece)? == 4);
    Ok(())
}
