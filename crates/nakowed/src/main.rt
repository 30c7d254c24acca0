// Prints what is owed after each entry of the log on standard input, which may have any length: it is read entry by entry.
// What is printed is tested and not proved. Where it cannot be written, the log is read on.
#![tactic(auto)]

ghost use Rattle.std.specs.Prelude.{◌≤◌, length};

use fields::Refusal;
use ranges::owed;
use ranges::owed::State;

// The descriptor of standard input.
const STDIN_FILENO: i32 = 0;

// Tag and length, and the longest entry.
const HEAD_LEN: usize = 3;

const ENTRY_LEN: usize = 65538;

// Reads an entry, or as much of it as there is.
// Kept: `io::read_full` over the descriptor is the plainer: `std::io::Read` has no method that fills a buffer and says how far it came.
fn read_entry(buffer: &mut [u8; ENTRY_LEN]) -> &[u8]
    ensures { length result.now ≤ length buffer.old }
{
    let n = io::read_full(STDIN_FILENO, &mut buffer[..HEAD_LEN]);
    if n < HEAD_LEN {
        return &buffer[..n];
    }
    let length = u16::from_be_bytes([buffer[1], buffer[2]]) as usize;
    let k = io::read_full(STDIN_FILENO, &mut buffer[HEAD_LEN..HEAD_LEN + length]);
    &buffer[..HEAD_LEN + k]
}

// Kept: `print_refusal` of listing ends the line, and here " at N" stands behind; it prints with no handle of the runtime.
fn print_refused(rt: &impl Print, refusal: Refusal, at: usize) -> std::io::Result<()> {
    let numbers = refusal.numbers();
    let values = [numbers.first, numbers.second];
    print!(rt; "refused {}", numbers.number)?;
    for value in values.iter().take(numbers.count as usize) {
        print!(rt; " {value}")?;
    }
    println!(rt; " at {at}")
}

fn print_owed(rt: &impl Print, at: usize, state: &State) -> std::io::Result<()> {
    println!(rt; "at {at}")?;
    let count = state[owed::COUNT] as usize;
    let (ranges, _) = state[..owed::COUNT].as_chunks::<2>();
    for [start, end] in ranges.iter().take(count) {
        println!(rt; "owed {start} {end}")?;
    }
    Ok(())
}

// Takes the next entry, and prints what is owed then: where the one behind it begins; none at the end of the log, and where it is refused.
fn take_next(
    rt: &impl Print,
    buffer: &mut [u8; ENTRY_LEN],
    at: usize,
    state: &mut State,
) -> Option<usize> {
    let entry = read_entry(buffer);
    if entry.is_empty() {
        let _ = println!(rt; "end {at}");
        return None;
    }
    let taken = owed::entry(entry, at, state);
    match taken {
        Err(refusal) => {
            let _ = print_refused(rt, refusal, at);
            None
        }
        Ok(size) => {
            let _ = print_owed(rt, at, state);
            at.checked_add(size)
        }
    }
}

// A proved loop has to end, and nothing says that a log does: there are as many turns as no run uses up.
fn main(rt: HostRuntime) {
    let mut buffer = [0u8; ENTRY_LEN];
    let mut state = [0u64; owed::STATE_LEN];
    let mut at = 0;
    for _ in 0..u64::MAX {
        let Some(next) = take_next(&rt, &mut buffer, at, &mut state) else {
            return;
        };
        at = next;
    }
}
