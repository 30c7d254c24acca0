// Prints a Metadata PDU, or why it is refused. A byte of a name that could disturb a terminal is printed in hexadecimal.
ghost use Rattle.std.specs.Prelude.{◌≡◌, ◌≤◌};
ghost use Rattle.fields.specs.Staged.{run};
ghost use Rattle.metadata.specs.Reading.{reading_metadata};
ghost use Rattle.listing.specs.Listing.{is_accepted, is_plain};

use crate::{listed, print, print_bytes, print_ids, print_line};
use metadata::{Metadata, MetadataParams, parts};
use tlv::Field;
use tlv::walk::{FieldCursor, NextField};

// Whether a byte of a name is printed as it is: from the blank to '~', and not the backslash that the others begin with.
#[tactic(auto, unfolding(crate::specs::Listing::is_plain))]
fn is_plain(byte: u8) -> bool
    ensures { result ≡ is_plain byte }
{
    match byte {
        b'\\' => false,
        b' '..=b'~' => true,
        _ => false,
    }
}

// A hexadecimal digit, 0 to 9 or A to F: that of the lower four bits.
// Kept: by hand. A format writes a byte in up to three pieces, and as one text it takes half as long again as this.
fn digit(n: u8) -> u8
    ensures { (48 ≤ result) × (result ≤ 70) }
{
    let low = n % 16;
    if low < 10 {
        return b'0' + low;
    }
    b'A' + (low - 10)
}

fn print_name(word: &str, name: &[u8]) {
    print(word);
    for byte in name {
        if is_plain(*byte) {
            print_bytes(&[*byte]);
        } else {
            print_bytes(&[b'\\', b'x', digit(*byte / 16), digit(*byte)]);
        }
    }
    print_line("");
}

fn print_option(area: &[u8], option: Field) {
    print(format_args!("option {}", option.tag));
    for byte in option.value(area) {
        print_bytes(&[b' ', digit(*byte / 16), digit(*byte)]);
    }
    print_line("");
}

// An area has no more options than bytes.
// Kept: a cursor by value. A cut ends the walk, so an iterator would yield a `Result` for each option, and promise more.
fn print_options(area: &[u8]) {
    let mut cursor = FieldCursor { at: 0 };
    for _ in area {
        let Ok(Some(NextField { field, next })) = parts::next_option(area, cursor) else {
            return;
        };
        print_option(area, field);
        cursor = next;
    }
}

fn print_params(params: MetadataParams) {
    print_ids("metadata", params.header);
    print_line(format_args!("closure {}", u8::from(params.closure)));
    print_line(format_args!("type {}", params.kind));
    print_line(format_args!("size {}", params.size));
}

fn print_metadata(metadata: Metadata, buf: &[u8]) {
    print_params(metadata.params);
    print_name("from ", metadata.source_name(buf));
    print_name("to ", metadata.destination_name(buf));
    print_options(metadata.option_area(buf));
    print_line(format_args!("end {}", metadata.options.stop));
}

// Reads a Metadata PDU and prints it; whether it was accepted.
pub fn list(buf: &[u8]) -> bool
    ensures { result ≡ is_accepted (run reading_metadata buf.now) }
{
    listed(
        Metadata::from_bytes(buf),
        |metadata| print_metadata(metadata, buf),
    )
}
