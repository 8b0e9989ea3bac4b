//! Tests that cross the crates: the logs that undo others, their replay, and gathered groups. Scripts in `log_scripts` say more of them.
#![tactic(auto)]

#[cfg(test)]
mod gathered_tests;
#[cfg(test)]
mod log_tests;
#[cfg(test)]
mod normal_form_tests;
#[cfg(test)]
mod replay_tests;
#[cfg(test)]
mod sample_undoing_tests;
#[cfg(test)]
mod seed_tests;
