// The standard output. The first write that fails is kept, and nothing is written after it.
use std::fmt::Display;
use std::io;
use std::io::{Print, Stdout};

#[derive(Drop)]
pub(crate) struct Printer {
    output: Stdout,
    result: io::Result<()>,
}

impl Printer {
    pub(crate) fn new(output: Stdout) -> Printer {
        Printer {
            output,
            result: Ok(()),
        }
    }

    // Writes bytes.
    pub(crate) fn write(&mut self, bytes: &[u8]) {
        if self.result.is_ok() {
            self.result = self.output.write_all(bytes);
        }
    }

    pub(crate) fn print<D: Display + Drop>(&mut self, value: D) {
        if self.result.is_ok() {
            self.result = self.output.print(value);
        }
    }

    // Whether all was written.
    pub(crate) fn end(self) -> io::Result<()> {
        self.result
    }
}
