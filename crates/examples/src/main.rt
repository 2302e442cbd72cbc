// Replays each example journal in turn, and prints its file's name and what came of it.
#![tactic(auto)]

use playing::Outcome;
use std::fs;
use std::process::ExitCode;

const FILES: [&str; 16] = [
    // competitions
    "runs_through.journal",
    "rolled_back_and_taken_up_again.journal",
    "parked_overnight.journal",
    "second_round_rolled_back.journal",
    // the worked examples
    "stored_form.journal",
    "back_to_the_savepoint.journal",
    "undone_and_told.journal",
    "empty_private_row_is_due.journal",
    "order_across_a_passed_over_row.journal",
    "savepoint_met_forward_is_struck.journal",
    "savepoint_before_the_failing_row.journal",
    "first_step_fails.journal",
    // two that differ in private entries alone: what is printed is the same
    "cards_of_one_player.journal",
    "cards_of_another_player.journal",
    // what is declined
    "each_way_to_be_declined.journal",
    "sheet_is_full.journal",
];

fn replay(rt: &HostRuntime, file: &str) -> anyhow::Result<()> {
    let text = fs::read(rt, file)?;
    let Outcome {
        printed,
        reported,
        ..
    } = playing::run(rt.alloc(), text.as_slice(), false)?;
    print!(rt; "{file}\n{printed}{reported}\n")?;
    Ok(())
}

fn replay_all(rt: &HostRuntime) -> anyhow::Result<()> {
    for file in FILES {
        replay(rt, file)?;
    }
    Ok(())
}

fn main(rt: HostRuntime) -> ExitCode {
    match replay_all(&rt) {
        Ok(()) => ExitCode::SUCCESS,
        Err(error) => {
            let _ = eprintln!(rt; "examples: {error}");
            ExitCode::FAILURE
        }
    }
}
