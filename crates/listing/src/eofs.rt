// Prints an EOF, or why it is refused.
ghost use Rattle.std.specs.Prelude.{◌≡◌};
ghost use Rattle.fields.specs.Staged.{run};
ghost use Rattle.eof.specs.Reading.{reading_eof};
ghost use Rattle.listing.specs.Listing.{is_accepted};

use crate::{listed, print_condition, print_end, print_ids, print_line};
use eof::Eof;

fn print_eof(eof: Eof) {
    print_ids("eof", eof.header);
    print_condition(eof.condition);
    print_line(format_args!("checksum {}", eof.file_checksum));
    print_line(format_args!("size {}", eof.size));
    if let Some(tlv) = eof.fault {
        print_line(format_args!("fault {}", tlv.id.0));
    }
    print_end(eof.header);
}

// Reads an EOF and prints it; whether it was accepted.
pub fn list(buf: &[u8]) -> bool
    ensures { result ≡ is_accepted (run reading_eof buf.now) }
{
    listed(Eof::from_bytes(buf), print_eof)
}
