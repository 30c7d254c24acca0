// Prints the directive PDU on standard input, a NAK, an EOF, an ACK or a Metadata PDU, of which it reads at most the first 65,563 bytes,
// or why it is refused.
#![tactic(auto)]

// The descriptor of standard input.
const STDIN_FILENO: i32 = 0;

// The most bytes of a PDU: a header of 28, and 65,535 of data.
const MOST_PDU: usize = 65563;

// Kept: io::read_full over the descriptor, as Read has no method that fills a buffer as far as it can; six lines, which differ in a size
// and a function.
fn main() {
    let mut buffer = [0u8; MOST_PDU];
    let n = io::read_full(STDIN_FILENO, &mut buffer);
    listing::pdus::list(&buffer[..n]);
}
