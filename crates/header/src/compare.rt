// Comparing two headers: all fields, identifiers and sequence numbers by number, as in the Rust.
ghost use Rattle.std.specs.Prelude.{◌≡◌};
ghost use Rattle.header.specs.Comparing.{same_flags, same_header, same_header_equiv};
ghost use Rattle.std.specs.Cmp.{partial_equiv_from_equiv};

use crate::PduHeader;

// `&` has no branch, so that all flags are compared at once.
fn same_flags(a: &PduHeader, b: &PduHeader) -> bool
    ensures { result ≡ same_flags a.now b.now }
{
    (a.kind == b.kind)
        & (a.direction == b.direction)
        & (a.mode == b.mode)
        & (a.crc == b.crc)
        & (a.file == b.file)
        & (a.control == b.control)
        & (a.metadata == b.metadata)
}

// No derive: the width of an identifier does not count.
impl PartialEq for PduHeader {
    ghost eq = { same_header };

    ghost laws = { partial_equiv_from_equiv same_header_equiv };

    #[tactic(auto, unfolding(crate::specs::Comparing::same_header))]
    fn eq(&self, other: &PduHeader) -> bool {
        same_flags(self, other)
            && self.length == other.length
            && self.source == other.source
            && self.sequence == other.sequence
            && self.destination == other.destination
    }
}

impl Eq for PduHeader {
    ghost laws = { same_header_equiv };
}
