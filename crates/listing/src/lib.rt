// Prints a NAK, an EOF, an ACK or a Metadata PDU, or why it is refused: of a NAK in document 01's words.
// What is printed is tested and not proved.
#![tactic(auto)]

ghost use Rattle.std.specs.Prelude.{◌≡◌};
ghost use Rattle.std.specs.Result.{ForOk};
ghost use Rattle.fields.specs.Answer.{answer_of};
ghost use Rattle.fields.specs.Refusal.{numbers_of};
ghost use Rattle.fields.specs.Staged.{run};
ghost use Rattle.nak.specs.Reading.{reading_nak};
ghost use Rattle.listing.specs.Listing.{is_accepted};

use fields::Refusal;
use header::PduHeader;
use nak::Nak;
use std::fmt;
use std::fmt::{Display, Write};

pub mod acks;
pub mod eofs;
pub mod metadatas;
pub mod pdus;

// The descriptor of standard output.
// Kept, by what may not change: `list`, `print_refusal` and the others that are public are given no handle of the runtime, and cannot fail.
const STDOUT_FILENO: i32 = 1;

fn print_bytes(bytes: &[u8]) {
    io::write_all(STDOUT_FILENO, bytes);
}

// Standard output, piece by piece. What it does not take is passed over, so that printing cannot fail, and a reader's answer stands.
#[derive(Drop)]
struct Output;

impl Write for Output {
    fn write_str(&mut self, text: &str) -> fmt::Result {
        print_bytes(text.as_bytes());
        Ok(())
    }
}

fn print(text: impl Display + Drop) {
    let _ = write!(Output, "{text}");
}

fn print_line(text: impl Display + Drop) {
    let _ = writeln!(Output, "{text}");
}

// Prints a refusal's number and values; its number.
pub fn print_refusal(refusal: Refusal) -> u8
    ensures { result ≡ (numbers_of refusal).number }
{
    let numbers = refusal.numbers();
    let values = [numbers.first, numbers.second];
    print(format_args!("refused {}", numbers.number));
    for value in values.iter().take(numbers.count as usize) {
        print(format_args!(" {value}"));
    }
    print_line("");
    numbers.number
}

// What a PDU is, and its source, sequence number and destination.
fn print_ids(word: &str, header: PduHeader) {
    let source = header.source.0;
    let sequence = header.sequence.0.value;
    let destination = header.destination.0;
    print_line(format_args!("{word} {source} {sequence} {destination}"));
}

fn print_condition(code: u8) {
    print_line(format_args!("condition {code}"));
}

// Where a PDU ends whose data go to its end.
fn print_end(header: PduHeader) {
    print_line(format_args!("end {}", header.data_end()));
}

fn print_nak(nak: Nak, buf: &[u8]) {
    print_ids("nak", nak.header);
    print_line(format_args!("scope {} {}", nak.start, nak.end));
    for (start, end) in nak.segment_request_iter(buf) {
        print_line(format_args!("request {start} {end}"));
    }
    print_line(format_args!("end {}", nak.stop));
}

// What was read is printed in its own words, or why it is refused; whether it was accepted.
fn listed<T, F: FnOnce(T)>(read: Result<T, Refusal>, print: F) -> bool
    requires { ForOk read (F.pre print) }
    ensures { result ≡ is_accepted (answer_of read) }
{
    match read {
        Err(refusal) => {
            print_refusal(refusal);
            false
        }
        Ok(pdu) => {
            print(pdu);
            true
        }
    }
}

// Reads a NAK and prints it; whether it was accepted.
pub fn list(buf: &[u8]) -> bool
    ensures { result ≡ is_accepted (run reading_nak buf.now) }
{
    listed(Nak::from_bytes(buf), |nak| print_nak(nak, buf))
}
