// Prints an ACK, or why it is refused.
ghost use Rattle.std.specs.Prelude.{◌≡◌};
ghost use Rattle.fields.specs.Staged.{run};
ghost use Rattle.ack.specs.Reading.{reading_ack};
ghost use Rattle.listing.specs.Listing.{is_accepted};

use crate::{listed, print_condition, print_end, print_ids, print_line};
use ack::Ack;

fn print_ack(ack: Ack) {
    print_ids("ack", ack.header);
    print_line(format_args!("of {}", ack.acked));
    print_condition(ack.condition);
    print_line(format_args!("status {}", ack.status.bits()));
    print_end(ack.header);
}

// Reads an ACK and prints it; whether it was accepted.
pub fn list(buf: &[u8]) -> bool
    ensures { result ≡ is_accepted (run reading_ack buf.now) }
{
    listed(Ack::from_bytes(buf), print_ack)
}
