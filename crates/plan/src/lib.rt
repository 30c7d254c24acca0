// Plans of NAKs (document 02, C-09): the check of any plan, and a planner of our own. Both go by the gaps between received ranges.
#![tactic(auto)]

pub mod checker;
pub mod gaps;
pub mod judge;
pub mod naks;
pub mod planner;
