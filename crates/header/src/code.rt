// The directive codes of the standard's table 5-4.
ghost use Rattle.std.specs.Prelude.{◌≡◌};
ghost use Rattle.header.specs.Code.{kind_of};

// What a directive code says to a reader.
// Kept: `from_code` is no `TryFrom`: it takes any byte and refuses none. A code is any `u8`, here and in `DirectivePdu::from_bytes`: a
// caller may give any, and 7 and 8 refuse the others.
#[derive(Clone, Copy, PartialEq, Eq, Debug)]
pub enum DirectiveKind {
    // The directive that it reads.
    Own,
    // Another that is known.
    Known,
    Unknown,
}

impl DirectiveKind {
    pub fn from_code(code: u8, own: u8) -> Self
        ensures { result ≡ kind_of own code }
    {
        match code {
            4..=9 | 12 => {
                if code == own {
                    return DirectiveKind::Own;
                }
                DirectiveKind::Known
            }
            _ => DirectiveKind::Unknown,
        }
    }
}
