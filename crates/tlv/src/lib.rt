// Fields that say their own length: length and value (the names of a Metadata PDU), type, length and value (its options, an EOF's fault
// location), and the same with a length of two bytes (the entries of a log). Read, walked and written, once for all forms.
#![tactic(auto)]

ghost use Rattle.std.specs.Prelude.{◌≡◌, ◌≤◌};
ghost use Rattle.fields.specs.declared.refusal.Refusal.TheVariants.{FieldCut};
ghost use Rattle.tlv.specs.Form.{tag_bytes, length_bytes, head_bytes};

use fields::Refusal;

pub mod read;
pub mod walk;
pub mod write;

// What stands before a value.
#[derive(Clone, Copy, PartialEq, Eq, Hash, Debug)]
pub enum Form {
    // A length byte: the standard's LV, the Rust's `Lv`.
    Lv,
    // A type byte and a length byte: the standard's TLV, the Rust's `Tlv`.
    Tlv,
    // A tag and a length of two bytes (C-13).
    LongTlv,
}

// A field that was read: its type, 0 where the form has none, and where its value starts and stops. The next field begins at `stop`.
// Kept: a number, since the definition `tag_at` says this 0.
#[derive(Clone, Copy, PartialEq, Eq, Hash, Debug)]
pub struct Field {
    pub tag: u8,
    pub start: usize,
    pub stop: usize,
}

// Why there is no field at a place: its head or its value runs past the end. `at` is the place of its first byte.
#[derive(Clone, Copy, PartialEq, Eq, Hash, Debug)]
pub struct Cut {
    pub at: usize,
}

// A name or an option that is cut is refusal 25 of document 01, with that place; so ? hands a cut on as a refusal.
impl From<Cut> for Refusal {
    ghost from_gives = { λ cut refusal. refusal ≡ FieldCut cut.at };

    fn from(cut: Cut) -> Refusal {
        Refusal::FieldCut(cut.at)
    }
}

impl Form {
    // The bytes of a type: none, or one.
    pub(crate) fn tag_len(self) -> usize
        ensures { (result ≡ tag_bytes self) × (result ≤ 1) }
    {
        match self {
            Form::Lv => 0,
            Form::Tlv => 1,
            Form::LongTlv => 1,
        }
    }

    // The bytes of a length.
    pub(crate) fn length_len(self) -> usize
        ensures { (result ≡ length_bytes self) × (1 ≤ result) × (result ≤ 2) }
    {
        match self {
            Form::Lv => 1,
            Form::Tlv => 1,
            Form::LongTlv => 2,
        }
    }

    // The bytes before a value.
    pub(crate) fn head_len(self) -> usize
        ensures { (result ≡ head_bytes self) × (1 ≤ result) × (result ≤ 3) }
    {
        self.tag_len() + self.length_len()
    }
}
