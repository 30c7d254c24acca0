// Prints the NAK on standard input, of which it reads at most the first 32,768 bytes, or why it is refused.
#![tactic(auto)]

// The descriptor of standard input.
const STDIN_FILENO: i32 = 0;

// Kept: io::read_full over the descriptor, as Read has no method that fills a buffer as far as it can; six lines, which differ in a size
// and a function.
fn main() {
    let mut buffer = [0u8; 32768];
    let n = io::read_full(STDIN_FILENO, &mut buffer);
    listing::list(&buffer[..n]);
}
