//! Sources and sinks in memory and of std, with ample memory.
use address::Text;
use std::io;
use std::io::{ErrorKind, Read};
use std::test::Fail;
use tab_io::{
    MemorySink, MemorySource, ReadAllError, StdSink, StdSource, WriteFault, read_all, write_all,
};

#[test]
fn a_whole_input_is_read_or_refused(rt: HostRuntime) -> Result<(), Fail> {
    let alloc = rt.alloc();
    // The input, the limit, the call that fails, and the answer; a call gives two bytes.
    let rows = [
        ("abc", 3, None, Ok("abc")),
        ("abcd", 3, None, Err(ReadAllError::TooLong)),
        ("", 0, None, Ok("")),
        ("a", 0, None, Err(ReadAllError::TooLong)),
        ("abcd", usize::MAX, None, Ok("abcd")),
        ("abcd", 9, Some(1), Err(ReadAllError::ReadFault)),
        ("abcd", 9, Some(2), Err(ReadAllError::ReadFault)),
        ("abcd", 9, Some(3), Err(ReadAllError::ReadFault)),
        ("abcd", 9, Some(4), Ok("abcd")),
        ("abcd", 3, Some(3), Err(ReadAllError::TooLong)),
    ];
    for (input, limit, failing, want) in rows {
        let bytes = Text::of(alloc, input.as_bytes())?;
        let mut source = MemorySource::new(bytes, 2, failing);
        let agrees = match (read_all(alloc, &mut source, limit), want) {
            (Ok(text), Ok(wanted)) => text.bytes() == wanted.as_bytes(),
            (Err(error), Err(wanted)) => error == wanted,
            (Ok(_), Err(_)) | (Err(_), Ok(_)) => false,
        };
        assert!(rt; agrees, "{input} {limit}");
    }
    Ok(())
}

#[test]
fn four_mebibytes_are_read_in_small_pieces(rt: HostRuntime) -> Result<(), Fail> {
    let alloc = rt.alloc();
    let input = vec![in alloc; b'a'; 4194304]?;
    let mut source = MemorySource::new(Text::of(alloc, &input)?, 7, None);
    let text = read_all(alloc, &mut source, 4194304)?;
    assert!(rt; text.bytes() == input.as_slice());
    Ok(())
}

#[test]
fn all_bytes_are_written_until_a_call_fails(rt: HostRuntime) {
    // The call that fails, the answer, and what is taken; a call takes four bytes.
    let rows = [
        (None, Ok(()), "abcdef"),
        (Some(1), Err(WriteFault), ""),
        (Some(2), Err(WriteFault), "abcd"),
        (Some(3), Ok(()), "abcdef"),
    ];
    for (failing, want, taken) in rows {
        let mut sink = MemorySink::new(rt.alloc(), 4, failing);
        assert_eq!(rt; write_all(&mut sink, b"abcdef"), want, "{taken}");
        assert_eq!(rt; sink.bytes(), taken.as_bytes());
    }
}

#[derive(Drop)]
struct Broken;

impl Read for Broken {
    fn read(&mut self, _out: &mut [u8]) -> io::Result<usize> {
        Err(io::Error::from(ErrorKind::Other))
    }
}

#[test]
fn streams_of_std_are_read_and_written(rt: HostRuntime) -> Result<(), Fail> {
    let mut source = StdSource::new("input".as_bytes());
    assert_eq!(rt;
        read_all(rt.alloc(), &mut source, 9)?.bytes(),
        "input".as_bytes()
    );
    let broken = read_all(rt.alloc(), &mut StdSource::new(Broken), 9);
    assert_eq!(rt; broken.err(), Some(ReadAllError::ReadFault));
    let mut output = [0; 6];
    // A slice takes no byte where it is full.
    let mut sink = StdSink::new(output.as_mut_slice());
    assert_eq!(rt; write_all(&mut sink, b"abcdef"), Ok(()));
    assert_eq!(rt; write_all(&mut sink, b"g"), Err(WriteFault));
    assert_eq!(rt; output.as_slice(), "abcdef".as_bytes());
    Ok(())
}
