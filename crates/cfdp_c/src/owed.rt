// What is still owed: a log run over a state in memory that the caller keeps.
ghost use Rattle.std.specs.Prelude.{◌≡◌, drop};
ghost use Rattle.ranges.specs.Log.{entry_taken, entry_memory, running};
ghost use Rattle.cfdp.specs.Shown.{shown, one_number};
ghost use Rattle.cfdp.specs.Standing.{standing};

use cfdp::Answer;
use ranges::owed::State;

#[unsafe(no_mangle)]
pub extern "C" fn cfdp_owed_entry(bytes: &[u8], at: usize, state: &mut State, answer: &mut Answer)
    ensures answered { answer.new ≡ shown one_number (entry_taken at bytes.now state.old) }
    ensures stored { state.new ≡ entry_memory at bytes.now state.old }
{
    cfdp::owed::cfdp_owed_entry(bytes, at, state, answer)
}

#[unsafe(no_mangle)]
pub extern "C" fn cfdp_owed_run(log: &[u8], from: usize, state: &mut State, answer: &mut Answer)
    ensures answered { answer.new ≡ standing (running from (drop from log.now) state.old).stop }
    ensures stored { state.new ≡ (running from (drop from log.now) state.old).memory }
{
    cfdp::owed::cfdp_owed_run(log, from, state, answer)
}
