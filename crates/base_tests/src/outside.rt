use ifc_base::{Bytes, Memory, Name, Numbers};
use shelf_io::{
    Failed, FileShelf, FreeGate, Gate, MemShelf, MemSink, OutSink, Point, Shelf, ShelfFile, Sink,
    read_all, write_all,
};
use std::alloc::Global;
use std::fs;
use std::test::Fail;

fn numbers(alloc: Global, items: &[u32]) -> Result<Numbers, Memory> {
    Ok(Numbers::from_vec(Vec::from_slice(alloc, items)?))
}

/// A shelf of one file, `a`, whose reads of these numbers fail.
fn shelf(alloc: Global, failing: &[u32]) -> Result<MemShelf, Memory> {
    let file = ShelfFile {
        name: Name::from_str(alloc, "a")?,
        bytes: Bytes::from_vec(Vec::from_slice(alloc, b"hello")?),
        reads: 0,
        failing: numbers(alloc, failing)?,
    };
    Ok(MemShelf::new(vec![in alloc; file]?))
}

#[test]
fn a_shelf_reads_and_fails_as_told(rt: HostRuntime) -> Result<(), Fail> {
    let mut shelf = shelf(rt.alloc(), &[2])?;
    let mut into = [0u8; 4];
    assert_eq!(rt; shelf.read_at("a", 2, &mut into), Ok(3));
    assert_eq!(rt; &into[..3], b"llo".as_slice());
    assert_eq!(rt; shelf.read_at("a", 0, &mut into), Err(Failed));
    assert_eq!(rt; shelf.read_at("a", 0, &mut into), Ok(4));
    assert_eq!(rt; shelf.read_at("a", 5, &mut into), Ok(0));
    assert_eq!(rt; shelf.read_at("b", 0, &mut into), Err(Failed));
    Ok(())
}

#[test]
fn a_sink_takes_pieces_and_fails_as_told(rt: HostRuntime) -> Result<(), Fail> {
    let mut sink = MemSink::new(rt.alloc(), 7, 3, numbers(rt.alloc(), &[2])?)?;
    assert_eq!(rt; sink.write(b"hello"), Ok(3));
    assert_eq!(rt; sink.write(b"lo"), Err(Failed));
    assert_eq!(rt; sink.write(b"lo"), Ok(2));
    assert_eq!(rt; sink.write(b"abc"), Ok(2));
    assert_eq!(rt; sink.write(b"c"), Err(Failed));
    assert_eq!(rt; sink.bytes(), b"helloab".as_slice());
    Ok(())
}

#[test]
fn files_are_read_and_written_whole(rt: HostRuntime) -> Result<(), Fail> {
    for (most, want) in [(9, "hello"), (5, "hello"), (2, "he"), (0, "")] {
        let mut shelf = shelf(rt.alloc(), &[])?;
        let read = read_all(rt.alloc(), &mut shelf, "a", most).expect(&rt, "no read fails");
        assert_eq!(rt; read.as_slice(), want.as_bytes());
    }
    for most in [1, 2, 9] {
        let mut sink = MemSink::new(rt.alloc(), 5, most, Numbers::new(rt.alloc()))?;
        assert_eq!(rt; write_all(&mut sink, b"hello"), Ok(()));
        assert_eq!(rt; sink.bytes(), b"hello".as_slice());
    }
    Ok(())
}

#[test]
fn a_file_is_read_from_a_place(rt: HostRuntime) -> Result<(), Fail> {
    fs::write(&rt, "cases.txt", "hello")?;
    let mut shelf = FileShelf::new(rt.clone()?);
    let mut into = [0u8; 4];
    assert_eq!(rt; shelf.read_at("cases.txt", 2, &mut into), Ok(3));
    assert_eq!(rt; &into[..3], b"llo".as_slice());
    assert_eq!(rt; shelf.read_at("cases.txt", 9, &mut into), Ok(0));
    assert_eq!(rt; shelf.read_at("missing.txt", 0, &mut into), Err(Failed));
    Ok(())
}

#[test]
fn standard_output_takes_bytes(rt: HostRuntime) -> Result<(), Fail> {
    FreeGate.at(1, Point::AfterIdle, 0);
    let mut sink = OutSink::new(rt.clone()?);
    assert_eq!(rt; sink.write(b"hello\n"), Ok(6));
    Ok(())
}
