// Prints each NAK of a stream on standard input, as it comes; a refusal is the last line.
#![tactic(auto)]

use fields::Refusal;
use nak::Nak;
use std::io::Read;

// Prints what a call gave, a NAK from the window, where it stands; whether the stream goes on.
fn print(outcome: Result<Option<Nak>, Refusal>, window: &[u8]) -> bool {
    match outcome {
        Ok(None) => true,
        Ok(Some(_)) => listing::list(window),
        Err(refusal) => {
            listing::print_refusal(refusal);
            false
        }
    }
}

// Offers a fragment until it is used up: how many bytes of the next PDU are then in the window; none where the stream is refused.
// Kept: window and count apart, as `receive` takes them: a `Receiver` is handed over and back by value.
fn offer(window: &mut [u8; 2048], filled: usize, fragment: &[u8]) -> Option<usize> {
    let mut there = filled;
    let mut rest = fragment;
    while !rest.is_empty() {
        let got = receiver::receive(window, there, rest);
        there = got.filled;
        if !print(got.outcome, window) {
            return None;
        }
        // Never so: a call with a byte that is not refused takes it. But a proved loop has to see that it goes on.
        if got.taken == 0 {
            break;
        }
        rest = &rest[got.taken..];
    }
    Some(there)
}

// One read, of what has come. A read that fails ends the stream.
fn read_some(input: &mut impl Read, window: &mut [u8; 2048], filled: usize) -> Option<usize> {
    let mut buffer = [0u8; 4096];
    match input.read(&mut buffer) {
        Ok(0) | Err(_) => None,
        Ok(n) => offer(window, filled, &buffer[..n]),
    }
}

// A proved loop has to end, and nothing says that a stream does: there are as many turns as no run uses up.
fn main(rt: HostRuntime) {
    let mut input = rt.reader();
    let mut window = [0u8; 2048];
    let mut filled = 0;
    for _ in 0..u64::MAX {
        let Some(left) = read_some(&mut input, &mut window, filled) else {
            return;
        };
        filled = left;
    }
}
