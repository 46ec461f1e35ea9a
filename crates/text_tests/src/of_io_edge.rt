use io_edge::{FileInputs, Inputs, ReadStop, Sink, StdSink, WriteFault, read_whole, write_all};
use std::fs::OpenOptions;
use std::io::{BufWriter, Write};
use std::{io, test};

#[test]
fn files_of_the_system_are_opened_and_read(rt: HostRuntime) {
    let mut inputs = FileInputs::new(&rt);
    let mut into = Vec::new(rt.alloc());
    assert_eq!(rt; inputs.open(b"/dev/zero"), Ok(true));
    assert_eq!(rt;
        read_whole(&mut inputs, 199_999, &mut into),
        Err(ReadStop::TooLarge)
    );
    // A failed open leaves nothing to read, not the file that was open before.
    assert!(rt; inputs.open(b"/dev/null/x").is_err());
    assert_eq!(rt; inputs.read(&mut [0; 8]), Ok(0));
    assert_eq!(rt; inputs.open(b"/"), Ok(true));
    assert_eq!(rt; read_whole(&mut inputs, 8, &mut into), Err(ReadStop::Fault));
}

#[test]
fn names_that_no_file_has(rt: HostRuntime) {
    let mut inputs = FileInputs::new(&rt);
    assert_eq!(rt; inputs.open(b"/no such file"), Ok(false));
    assert_eq!(rt; inputs.read(&mut [0; 8]), Ok(0));
    assert!(rt; inputs.open(b"\xff").is_err());
    assert!(rt; inputs.open(b"a\0b").is_err());
}

// A writer that takes three bytes at a time.
#[derive(Drop)]
struct Sips {
    taken: Vec<u8>,
}

impl Write for Sips {
    fn write(&mut self, bytes: &[u8]) -> io::Result<usize> {
        let n = bytes.len().min(3);
        self.taken.extend_from_slice(&bytes[..n])?;
        Ok(n)
    }

    fn flush(&mut self) -> io::Result<()> {
        Ok(())
    }
}

#[test]
fn a_writer_of_std_is_a_sink(rt: HostRuntime) {
    let mut sips = Sips {
        taken: Vec::new(rt.alloc()),
    };
    assert_eq!(rt;
        write_all(&mut StdSink::new(&mut sips), b"written\n"),
        Ok(())
    );
    assert_eq!(rt; sips.taken.as_slice(), b"written\n".as_slice());
}

#[test]
fn a_full_device_is_a_fault(rt: HostRuntime) -> Result<(), test::Fail> {
    let full = OpenOptions::new().write(true).open(&rt, "/dev/full")?;
    assert_eq!(rt; write_all(&mut StdSink::new(full), b"x"), Err(WriteFault));
    Ok(())
}

#[test]
fn a_full_device_is_told_at_the_end(rt: HostRuntime) -> Result<(), test::Fail> {
    let full = OpenOptions::new().write(true).open(&rt, "/dev/full")?;
    let mut late = StdSink::new(BufWriter::new(rt.alloc(), full)?);
    assert_eq!(rt; late.write(b"x"), Ok(1));
    assert!(rt; late.finish().is_err());
    Ok(())
}
