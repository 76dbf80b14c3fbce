use anyhow::anyhow;
use lines::closing::Closing;
use lines::rows::{LONGEST_LINE, write_row_line};
use std::io::{Stdout, Write};

// Lines are gathered, and written out once a block of this size is full.
const BLOCK: usize = 65_536;

// Not std's `BufWriter`: after a write that failed, that one writes what is left once more when it is dropped.
#[derive(Drop)]
pub struct Output {
    stdout: Stdout,
    block: Vec<u8>,
    line: [u8; LONGEST_LINE],
}

impl Output {
    // The block has room for a line behind what fills it.
    pub fn new(rt: &HostRuntime) -> anyhow::Result<Output> {
        Ok(Output {
            stdout: rt.stdout(),
            block: Vec::with_capacity(rt.alloc(), BLOCK + LONGEST_LINE)?,
            line: [0; LONGEST_LINE],
        })
    }

    pub fn row(&mut self, row: &[u8]) -> anyhow::Result<()> {
        let Ok(length) = write_row_line(row, &mut self.line) else {
            return Err(anyhow!("a row has no line"));
        };
        self.print(length)
    }

    // Writes the last line, and everything out.
    pub fn close(&mut self, closing: Closing) -> anyhow::Result<()> {
        let Ok(length) = closing.write(&mut self.line) else {
            return Err(anyhow!("the last line is longer than any"));
        };
        self.print(length)?;
        self.flush()
    }

    fn print(&mut self, length: usize) -> anyhow::Result<()> {
        if self.block.len() >= BLOCK {
            self.flush()?;
        }
        let Some(text) = self.line.get(0..length) else {
            return Err(anyhow!("a line is longer than its space"));
        };
        self.block.extend_from_slice(text)?;
        Ok(())
    }

    // Writes out what was gathered.
    fn flush(&mut self) -> anyhow::Result<()> {
        self.stdout.write_all(self.block.as_slice())?;
        self.block.clear();
        Ok(())
    }
}
