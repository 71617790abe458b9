// Gathered: what is printed is gathered in room of 65,536 bytes, which is written out whenever it is full. A write that fails is passed over:
// what is printed is then short, and no run passes with it.
use arrayvec::ArrayVec;
use std::io::{self, Write};

// Where a run prints to, and what is gathered for it.
#[derive(Drop)]
pub(crate) struct Gathered<W> {
    output: W,
    text: ArrayVec<u8, 65536>,
}

impl<W: Write> Gathered<W> {
    // Nothing is gathered yet.
    pub(crate) fn new(output: W) -> Self {
        Gathered {
            output,
            text: ArrayVec::new(),
        }
    }
}

impl<W: Write> Write for Gathered<W> {
    fn write(&mut self, bytes: &[u8]) -> io::Result<usize> {
        if self.text.is_full() {
            self.flush()?;
        }
        self.text.write(bytes)
    }

    fn flush(&mut self) -> io::Result<()> {
        let _ = self.output.write_all(self.text.as_slice());
        self.text.clear();
        Ok(())
    }
}
