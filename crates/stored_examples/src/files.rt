// The files of an example, once opened: read, written, and compared byte by byte. One that could not be opened reads as an empty file, and
// nothing can be written to it.
use std::io::{self, Read, Write};
use window::read_full;

// A file, if it could be opened.
#[derive(Drop)]
pub(crate) struct Opened<F> {
    pub file: Option<F>,
}

impl<F: Read> Read for Opened<F> {
    fn read(&mut self, buf: &mut [u8]) -> io::Result<usize> {
        match &mut self.file {
            Some(file) => file.read(buf),
            None => Ok(0),
        }
    }
}

impl<F: Write> Write for Opened<F> {
    fn write(&mut self, buf: &[u8]) -> io::Result<usize> {
        match &mut self.file {
            Some(file) => file.write(buf),
            None => Ok(0),
        }
    }

    fn flush(&mut self) -> io::Result<()> {
        match &mut self.file {
            Some(file) => file.flush(),
            None => Ok(()),
        }
    }
}

// Whether two files hold the same.
fn hold_same<F: Read>(first: &mut F, second: &mut F) -> bool {
    let mut a = [0u8; 65536];
    let mut b = [0u8; 65536];
    let n = read_full(first, &mut a);
    let m = read_full(second, &mut b);
    if n == 65536 {
        return false;
    }
    a[..n] == b[..m]
}

// Whether two open files hold the same. A file that could not be opened is like no other, and so is one of 65,536 bytes or more, which may have
// been cut.
pub(crate) fn are_same<F: Read>(first: &mut Opened<F>, second: &mut Opened<F>) -> bool {
    match (&mut first.file, &mut second.file) {
        (Some(a), Some(b)) => hold_same(a, b),
        _ => false,
    }
}
