// The fields of an area, one behind the other: a cursor by value, and whether one of them is cut.
ghost use Rattle.std.specs.Prelude.{◌≡◌};
ghost use Rattle.tlv.specs.Walking.{next_field, first_cut};

use crate::{Cut, Field, Form, read};

// A position in an area.
#[derive(Clone, Copy, PartialEq, Eq, Hash, Debug)]
pub struct FieldCursor {
    pub at: usize,
}

// A field that stands at a cursor, and the cursor behind it.
#[derive(Clone, Copy, PartialEq, Eq, Hash, Debug)]
pub struct NextField {
    pub field: Field,
    pub next: FieldCursor,
}

impl FieldCursor {
    // What stands there: a field, none any more at the area's end, or one that is cut.
    #[tactic(auto, using(crate::proofs::Walking::next_end, crate::proofs::Walking::read_field, crate::proofs::Walking::read_cut))]
    pub fn next(self, area: &[u8], form: Form) -> Result<Option<NextField>, Cut>
        ensures { result ≡ next_field form area.now self.at }
    {
        if area.len() <= self.at {
            return Ok(None);
        }
        let field = read::field_in(form, area, self.at)?;
        let next = FieldCursor { at: field.stop };
        Ok(Some(NextField { field, next }))
    }
}

// The walk over all fields from a place on: the first that is cut, if there is one.
#[tactic(auto, using(crate::proofs::Walking::turns))]
pub fn first_cut(form: Form, area: &[u8], from: usize) -> Result<(), Cut>
    ensures { result ≡ first_cut form area.now from }
{
    let mut at = from;
    while let Some(stop) = read::behind_field(form, area, at) {
        at = stop;
    }
    if at < area.len() {
        return Err(Cut { at });
    }
    Ok(())
}
