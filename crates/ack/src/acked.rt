// The directive that is acknowledged, an EOF or a Finished: whether it is one of them, and what its ACK says of it.
ghost use Rattle.std.specs.Prelude.{◌≡◌, [], ◌∷◌, ◌≤◌};
ghost use Rattle.fields.specs.Answer.{all_of, answer_of};
ghost use Rattle.ack.specs.Ack.{subtype_of, direction_for, not_allowed, code_tests};

use fields::Refusal;
use header::Direction;
use header::condition::judge_condition;

const EOF_CODE: u8 = 4;

const FINISHED_CODE: u8 = 5;

// 17: whether a directive is acknowledged.
// Kept: a code is any u8, here and below, since a caller may give any, and 17 refuses the others (a type of two codes would ask more).
#[tactic(auto, using(crate::proofs::Codes::acked_eof, crate::proofs::Codes::acked_finished, crate::proofs::Codes::acked_other))]
pub fn judge_acked(code: u8) -> Result<(), Refusal>
    ensures { answer_of result ≡ all_of (not_allowed code ∷ []) }
{
    match code {
        EOF_CODE | FINISHED_CODE => Ok(()),
        _ => Err(Refusal::InvalidAckedDirectiveCode),
    }
}

// 16, then 17: the tests of an ACK's own, which reading and writing share.
#[tactic(auto, using(fields::proofs::Handed::handed_on, crate::proofs::Codes::for_judge_codes))]
pub fn judge_codes(condition: u8, acked: u8) -> Result<(), Refusal>
    ensures { answer_of result ≡ all_of (code_tests condition acked) }
{
    judge_condition(condition)?;
    judge_acked(acked)
}

// The directive's subtype: 1 of a Finished.
#[tactic(auto, unfolding(crate::specs::Ack::subtype_of))]
pub fn subtype_of(code: u8) -> u8
    ensures { (result ≡ subtype_of code) × (result ≤ 1) }
{
    (code == FINISHED_CODE) as u8
}

// An EOF is acknowledged towards the sender, a Finished towards the receiver.
#[tactic(auto, unfolding(crate::specs::Ack::direction_for))]
pub fn direction_for(code: u8) -> Direction
    ensures { result ≡ direction_for code }
{
    match code {
        EOF_CODE => Direction::TowardsSender,
        _ => Direction::TowardsReceiver,
    }
}
