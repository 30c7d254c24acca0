// Numbers of 4 bytes, or 8 with the large file flag (the Rust's `read_fss_field`, `write_fss_field`): offsets and file sizes.
ghost use Rattle.std.specs.Prelude.{◌≡◌, [], ◌∷◌, ◌≤◌};
ghost use Rattle.fields.specs.Answer.{all_of, answer_of};
ghost use Rattle.fields.specs.BigEndian.{be_at, be_put};
ghost use Rattle.header.specs.Size.{size_width, fits_size, size_too_large};

use crate::LargeFileFlag;
use fields::{Refusal, be};

// The bytes of one number.
pub fn size_width(file: LargeFileFlag) -> usize
    ensures { (result ≡ size_width file) × (4 ≤ result) × (result ≤ 8) }
{
    match file {
        LargeFileFlag::Normal => 4,
        LargeFileFlag::Large => 8,
    }
}

// Whether a number has at most so many bytes.
pub fn fits_size(file: LargeFileFlag, value: u64) -> bool
    ensures { result ≡ fits_size file value }
{
    be::fits(value, size_width(file))
}

// 29: whether a file size fits.
pub fn judge_file_size(file: LargeFileFlag, value: u64) -> Result<(), Refusal>
    ensures { answer_of result ≡ all_of (size_too_large file value ∷ []) }
{
    if !fits_size(file, value) {
        return Err(Refusal::FileSizeTooLarge);
    }
    Ok(())
}

// The number at a place; where its bytes do not all lie in `s` it reads as 0. It is read from a part of just its bytes, with its width as a
// literal: so no loop is left of the read.
pub fn read_size(s: &[u8], at: usize, file: LargeFileFlag) -> u64
    ensures { result ≡ be_at s.now at (size_width file) }
{
    match file {
        LargeFileFlag::Normal => {
            if !be::lies_in(s.len(), at, 4) {
                return 0;
            }
            be::read_be(&s[at..at + 4], 0, 4)
        }
        LargeFileFlag::Large => {
            if !be::lies_in(s.len(), at, 8) {
                return 0;
            }
            be::read_be(&s[at..at + 8], 0, 8)
        }
    }
}

// Stores a number at a place; where its bytes do not all lie in `buf`, or cannot hold it, no byte changes.
pub fn write_size(buf: &mut [u8], at: usize, file: LargeFileFlag, value: u64)
    ensures { buf.new ≡ be_put buf.old at (size_width file) value }
{
    match file {
        LargeFileFlag::Normal => be::write_be(buf, at, 4, value),
        LargeFileFlag::Large => be::write_be(buf, at, 8, value),
    }
}
