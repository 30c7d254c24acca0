// A value with a width in bytes (the Rust's `util.rs`), and the two kinds of them that a header holds.
ghost use Rattle.std.specs.Prelude.{◌≡◌};
ghost use Rattle.std.proofs.Common.{rules};
ghost use Rattle.std.specs.Cmp.Rules.{comparing};
ghost use Rattle.fields.specs.Width.{is_width, fits_field, same_value};

#[derive(Clone, Copy, Debug)]
pub struct UnsignedByteField {
    pub width: u8,
    pub value: u64,
}

// The identifier of an entity, source or destination. A header keeps one width for both.
#[derive(Clone, Copy, PartialEq, Eq, Debug)]
pub struct EntityId(pub u64);

// The sequence number of a transaction. It is another type than an identifier, so that neither is taken for the other.
#[derive(Clone, Copy, PartialEq, Eq, Debug)]
pub struct TransactionSeqNum(pub UnsignedByteField);

// Whether a width is one that the port, like the Rust, has: at most 8, and exactly one bit of it is set.
pub fn is_width(width: u8) -> bool
    ensures { result ≡ is_width width }
{
    width <= 8 && u8::count_ones(width) == 1
}

impl UnsignedByteField {
    pub fn new(width: u8, value: u64) -> Self
        ensures { result ≡ record { width = width; value = value } }
    {
        Self { width, value }
    }

    // Whether the value fits the width.
    pub fn fits(self) -> bool
        ensures { result ≡ fits_field self }
    {
        crate::be::fits(self.value, self.width as usize)
    }
}

// Equal by number, whatever the widths, as in the Rust: a derived comparison would tell the widths apart.
impl PartialEq for UnsignedByteField {
    ghost eq = { same_value };

    ghost laws = { Prim.search (comparing, rules) };

    fn eq(&self, other: &UnsignedByteField) -> bool {
        self.value == other.value
    }
}

impl Eq for UnsignedByteField {
    ghost laws = { Prim.search (comparing, rules) };
}
