// Standard input, a line at a time, by way of a chunk that is filled anew where it is used up.
use crate::fault::Fault;

// The descriptor of standard input.
const STDIN_FILENO: i32 = 0;

const CHUNK_LEN: usize = 4096;

// The most bytes of a line, its end among them.
pub const LINE_LEN: usize = 512;

// The byte of the chunk that is next, and how many it has.
// Kept: `io::read_full` over the descriptor: a `BufReader` allocates, and a task is read and answered without.
#[derive(Drop)]
pub struct Input {
    chunk: [u8; CHUNK_LEN],
    at: usize,
    have: usize,
}

impl Input {
    pub(crate) fn new() -> Input {
        Input {
            chunk: [0; CHUNK_LEN],
            at: 0,
            have: 0,
        }
    }

    fn next(&mut self) -> Option<u8> {
        if self.have <= self.at {
            self.have = io::read_full(STDIN_FILENO, &mut self.chunk);
            self.at = 0;
        }
        let byte = *self.chunk.get(self.at)?;
        if self.have <= self.at {
            return None;
        }
        self.at += 1;
        Some(byte)
    }

    // The next line without its end, in front of the bytes that are lent for it; none at the end of the input. The last line need not have
    // an end.
    pub(crate) fn next_line<'a>(
        &mut self,
        line: &'a mut [u8; LINE_LEN],
    ) -> Result<Option<&'a [u8]>, Fault> {
        for i in 0..LINE_LEN {
            match self.next() {
                Some(b'\n') => return Ok(Some(&line[..i])),
                Some(byte) => line[i] = byte,
                None if i == 0 => return Ok(None),
                None => return Ok(Some(&line[..i])),
            }
        }
        Err(Fault::TooLong)
    }
}
