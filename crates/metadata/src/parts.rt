// The names and the options of a Metadata PDU, as parts of the caller's bytes, and a cursor by value over the options (the Rust's `OptionsIter`).
ghost use Rattle.std.specs.Prelude.{◌≡◌};
ghost use Rattle.tlv.specs.Walking.{next_field};
ghost use Rattle.metadata.specs.Metadata.{part_of};

use crate::{Metadata, Part};
use tlv::walk::{FieldCursor, NextField};
use tlv::{Cut, Field, Form};

impl Part {
    // The part itself. One that does not lie in `buf` is empty.
    #[tactic(auto, unfolding(crate::specs::Metadata::part_of))]
    pub fn of(self, buf: &[u8]) -> &[u8]
        ensures { result.now ≡ part_of self buf.now }
    {
        let field = Field {
            tag: 0,
            start: self.start,
            stop: self.stop,
        };
        field.value(buf)
    }
}

impl Metadata {
    pub fn source_name(self, buf: &[u8]) -> &[u8]
        ensures { result.now ≡ part_of self.source buf.now }
    {
        self.source.of(buf)
    }

    pub fn destination_name(self, buf: &[u8]) -> &[u8]
        ensures { result.now ≡ part_of self.destination buf.now }
    {
        self.destination.of(buf)
    }

    pub fn option_area(self, buf: &[u8]) -> &[u8]
        ensures { result.now ≡ part_of self.options buf.now }
    {
        self.options.of(buf)
    }
}

// The option at a cursor of an area, which starts at 0: its type, where its value lies in the area, and the cursor behind it; nothing any
// more; or that it is cut, which no area of an accepted PDU shows.
pub fn next_option(area: &[u8], cursor: FieldCursor) -> Result<Option<NextField>, Cut>
    ensures { result ≡ next_field Form.Tlv area.now cursor.at }
{
    cursor.next(area, Form::Tlv)
}
