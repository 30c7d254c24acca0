// What is still owed: a log run over a state in memory that the caller keeps.
ghost use Rattle.std.specs.Prelude.{◌≡◌, drop};
ghost use Rattle.ranges.specs.Log.{entry_taken, entry_memory, running};
ghost use Rattle.cfdp.specs.Shown.{shown, one_number};
ghost use Rattle.cfdp.specs.Standing.{standing};

use crate::{Answer, show, show_few, show_refusal};
use ranges::owed;
use ranges::owed::State;

// Where a run's offset stands, behind a refusal's values.
const STOOD_AT: usize = 3;

pub fn cfdp_owed_entry(bytes: &[u8], at: usize, state: &mut State, answer: &mut Answer)
    ensures answered { answer.new ≡ shown one_number (entry_taken at bytes.now state.old) }
    ensures stored { state.new ≡ entry_memory at bytes.now state.old }
{
    let taken = owed::entry(bytes, at, state);
    show(taken, answer)
}

pub fn cfdp_owed_run(log: &[u8], from: usize, state: &mut State, answer: &mut Answer)
    ensures answered { answer.new ≡ standing (running from (drop from log.now) state.old).stop }
    ensures stored { state.new ≡ (running from (drop from log.now) state.old).memory }
{
    let ran = owed::run(log, from, state);
    match ran {
        Err(stopped) => {
            show_refusal(stopped.refusal, answer);
            answer[STOOD_AT] = stopped.at as u64;
        }
        Ok(at) => {
            show_few(0, 0, 0, answer);
            answer[STOOD_AT] = at as u64;
        }
    }
}
