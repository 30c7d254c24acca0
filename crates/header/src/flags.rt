// The one-bit flags of a header and its version (the Rust's `cfdp/mod.rs`), with the bit of each flag.
ghost use Rattle.std.specs.Prelude.{◌≡◌, ◌≤◌, ℕ, Bool};
ghost use Rattle.header.specs.Flags.{FlagLaws, pdu_type_bit, pdu_type_if, pdu_type_laws, direction_bit, direction_if, direction_laws, mode_bit, mode_if, mode_laws, crc_bit, crc_if, crc_laws, file_bit, file_if, file_laws, control_bit, control_if, control_laws, metadata_bit, metadata_if, metadata_laws};

// The version of CCSDS 727.0-B-5, in the three highest bits of byte 0.
pub const CFDP_VERSION_2: u8 = 1;

// A flag of one bit.
// Kept: two values by name in each impl. No derive makes a flag of a bit, and the standard's tables name both.
pub trait Flag: Copy {
    ghost bit: { Self → ℕ };

    // The flag of a bit that is set or not.
    ghost flag_if: { Bool → Self };

    fn bit(self) -> u8
        ensures { (result ≡ bit self) × (result ≤ 1) };

    fn from_bit(set: bool) -> Self
        ensures { result ≡ flag_if set };

    ghost laws: { FlagLaws bit flag_if };
}

// PDU type: a file directive or file data.
#[derive(Clone, Copy, PartialEq, Eq, Debug)]
pub enum PduType {
    FileDirective,
    FileData,
}

// Which way the PDU goes.
#[derive(Clone, Copy, PartialEq, Eq, Debug)]
pub enum Direction {
    TowardsReceiver,
    TowardsSender,
}

// Transmission mode.
#[derive(Clone, Copy, PartialEq, Eq, Debug)]
pub enum TransmissionMode {
    Acknowledged,
    Unacknowledged,
}

// Whether the PDU ends in a checksum.
#[derive(Clone, Copy, PartialEq, Eq, Debug)]
pub enum CrcFlag {
    NoCrc,
    WithCrc,
}

// Whether offsets have 4 bytes or 8.
#[derive(Clone, Copy, PartialEq, Eq, Debug)]
pub enum LargeFileFlag {
    Normal,
    Large,
}

// Whether record boundaries are kept.
#[derive(Clone, Copy, PartialEq, Eq, Debug)]
pub enum SegmentationControl {
    NoRecordBoundaryPreservation,
    WithRecordBoundaryPreservation,
}

// Whether segment metadata is there.
#[derive(Clone, Copy, PartialEq, Eq, Debug)]
pub enum SegmentMetadataFlag {
    NotPresent,
    Present,
}

impl Flag for PduType {
    ghost bit = { pdu_type_bit };

    ghost flag_if = { pdu_type_if };

    ghost laws = { pdu_type_laws };

    fn bit(self) -> u8 {
        self as u8
    }

    fn from_bit(set: bool) -> Self {
        if set {
            PduType::FileData
        } else {
            PduType::FileDirective
        }
    }
}

impl Flag for Direction {
    ghost bit = { direction_bit };

    ghost flag_if = { direction_if };

    ghost laws = { direction_laws };

    fn bit(self) -> u8 {
        self as u8
    }

    fn from_bit(set: bool) -> Self {
        if set {
            Direction::TowardsSender
        } else {
            Direction::TowardsReceiver
        }
    }
}

impl Flag for TransmissionMode {
    ghost bit = { mode_bit };

    ghost flag_if = { mode_if };

    ghost laws = { mode_laws };

    fn bit(self) -> u8 {
        self as u8
    }

    fn from_bit(set: bool) -> Self {
        if set {
            TransmissionMode::Unacknowledged
        } else {
            TransmissionMode::Acknowledged
        }
    }
}

impl Flag for CrcFlag {
    ghost bit = { crc_bit };

    ghost flag_if = { crc_if };

    ghost laws = { crc_laws };

    fn bit(self) -> u8 {
        self as u8
    }

    fn from_bit(set: bool) -> Self {
        if set {
            CrcFlag::WithCrc
        } else {
            CrcFlag::NoCrc
        }
    }
}

impl Flag for LargeFileFlag {
    ghost bit = { file_bit };

    ghost flag_if = { file_if };

    ghost laws = { file_laws };

    fn bit(self) -> u8 {
        self as u8
    }

    fn from_bit(set: bool) -> Self {
        if set {
            LargeFileFlag::Large
        } else {
            LargeFileFlag::Normal
        }
    }
}

impl Flag for SegmentationControl {
    ghost bit = { control_bit };

    ghost flag_if = { control_if };

    ghost laws = { control_laws };

    fn bit(self) -> u8 {
        self as u8
    }

    fn from_bit(set: bool) -> Self {
        if set {
            SegmentationControl::WithRecordBoundaryPreservation
        } else {
            SegmentationControl::NoRecordBoundaryPreservation
        }
    }
}

impl Flag for SegmentMetadataFlag {
    ghost bit = { metadata_bit };

    ghost flag_if = { metadata_if };

    ghost laws = { metadata_laws };

    fn bit(self) -> u8 {
        self as u8
    }

    fn from_bit(set: bool) -> Self {
        if set {
            SegmentMetadataFlag::Present
        } else {
            SegmentMetadataFlag::NotPresent
        }
    }
}
