// The transaction status, two bits.
ghost use Rattle.std.specs.Prelude.{◌≡◌, ◌≤◌};
ghost use Rattle.ack.specs.Ack.{status_bits, status_of};

// Kept: `from_bits` is no `TryFrom`: it takes any byte and refuses none, and the functions' names are public.
#[derive(Clone, Copy, PartialEq, Eq, Hash, Debug)]
pub enum TransactionStatus {
    Undefined = 0,
    Active = 1,
    Terminated = 2,
    Unrecognized = 3,
}

impl TransactionStatus {
    pub fn bits(self) -> u8
        ensures { (result ≡ status_bits self) × (result ≤ 3) }
    {
        self as u8
    }

    // What is none of 0, 1 and 2 is unrecognized.
    #[tactic(auto, unfolding(crate::specs::Ack::status_of))]
    pub fn from_bits(bits: u8) -> Self
        ensures { result ≡ status_of bits }
    {
        match bits {
            0 => TransactionStatus::Undefined,
            1 => TransactionStatus::Active,
            2 => TransactionStatus::Terminated,
            _ => TransactionStatus::Unrecognized,
        }
    }
}
