// Condition codes (the standard's table 5-5).
ghost use Rattle.std.specs.Prelude.{◌≡◌, [], ◌∷◌};
ghost use Rattle.fields.specs.Answer.{all_of, answer_of};
ghost use Rattle.header.specs.Condition.{reserved_condition};

use fields::Refusal;

// 16: whether a code has four bits and is not reserved.
// Kept: a condition is any `u8`: a caller may give any, and 16 refuses the others.
pub fn judge_condition(code: u8) -> Result<(), Refusal>
    ensures { answer_of result ≡ all_of (reserved_condition code ∷ []) }
{
    match code {
        0..=11 | 14..=15 => Ok(()),
        _ => Err(Refusal::InvalidConditionCode),
    }
}
