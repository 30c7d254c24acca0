// The parts of the replay list, read from standard input one behind the other. Behind its end all bytes are 0.
// Kept: `io::read_full` over the descriptor is the plainer: `std::io::Read` has no method that fills a buffer as far as it can.
ghost use Rattle.std.specs.Prelude.{◌≤◌, length};

use crate::STDIN_FILENO;

// The longest parts of the list: bytes or a lent buffer, numbers of 4 bytes, numbers of 8 bytes.
pub const MOST_BYTES: usize = 65545;

pub const MOST_NORMAL: usize = 16380;

pub const MOST_LARGE: usize = 8188;

// A header as the list has it: its shape, the length of its data, and its identifiers.
#[derive(Drop)]
pub struct Header {
    pub shape: [u8; 10],
    pub length: u16,
    pub ids: [u64; 3],
}

pub fn is_at_end() -> bool {
    io::read_full(STDIN_FILENO, &mut [0]) == 0
}

// So many bytes.
fn array<const N: usize>() -> [u8; N] {
    let mut b = [0; N];
    io::read_full(STDIN_FILENO, &mut b);
    b
}

pub fn byte() -> u8 {
    u8::from_be_bytes(array())
}

pub fn two() -> u16 {
    u16::from_be_bytes(array())
}

pub fn four() -> u32 {
    u32::from_be_bytes(array())
}

pub fn eight() -> u64 {
    u64::from_be_bytes(array())
}

impl Header {
    // The length of a PDU's data is worked out where it is written: the list's is then passed over.
    pub(crate) fn next() -> Header {
        Header {
            shape: array(),
            length: two(),
            ids: [eight(), eight(), eight()],
        }
    }
}

// The front of an array, as long as the list says, and no longer than the array: a list of its form asks for no more.
pub(crate) fn front<T>(all: &mut [T]) -> &mut [T]
    ensures { length result.now ≤ length all.old }
{
    let n = all.len().min(four() as usize);
    &mut all[..n]
}

// A length, then as many bytes.
pub fn bytes(into: &mut [u8]) -> &[u8]
    ensures { length result.now ≤ length into.old }
{
    let bytes = front(into);
    io::read_full(STDIN_FILENO, bytes);
    bytes
}

// A count, then as many numbers.
pub(crate) fn numbers<T: Drop, F: Fn() -> T>(into: &mut [T], next: F) -> &[T]
    requires { F.IsAlwaysCallable next }
    ensures { length result.now ≤ length into.old }
{
    let numbers = front(into);
    for number in numbers.iter_mut() {
        *number = next();
    }
    numbers
}
