ghost use Rattle.std.specs.Prelude.{◌≡◌, ◌++◌, OnOk, option_map, take, decimal};
ghost use Rattle.texts.specs.Appends.{Appends};
ghost use Rattle.landing_rules.specs.Text.{line, block_lines, lines_text};
ghost use Rattle.plan_text.specs.Trial.{trial_head, trial_text};

use crate::block::append_head;
use cps_problem::Objective;
use itoa::Buffer;
use plan_file::Plan;
use std::alloc::AllocError;

// A line with a number behind its word.
fn append_number(word: &[u8], number: u64, into: &mut Vec<u8>) -> Result<(), AllocError>
    ensures { OnOk result (into.new.items ≡ into.old.items ++ line (word.now ++ decimal number)) }
{
    let mut digits = Buffer::new();
    into.extend_from_slice(word)?;
    into.extend_from_slice(digits.format(number).as_bytes())?;
    into.push(b'\n')?;
    Ok(())
}

// The first three lines.
fn append_numbers(flights: u8, k: u8, nodes: u64, into: &mut Vec<u8>) -> Result<(), AllocError>
    ensures { OnOk result (into.new.items ≡ into.old.items ++ lines_text (trial_head flights k
        nodes)) }
{
    append_number(b"flights ", u64::from(flights), into)?;
    append_number(b"k ", u64::from(k), into)?;
    append_number(b"nodes ", nodes, into)
}

// The first line of the plan's block.
fn append_first(
    objective: Objective,
    plan: Option<&Plan>,
    into: &mut Vec<u8>,
) -> Result<(), AllocError>
    ensures { OnOk result (into.new.items ≡ into.old.items ++ lines_text (take 1
        (block_lines objective (option_map (λ p. p.now) plan.entry)))) }
{
    match plan {
        Some(plan) => append_head(objective, plan.value(), into),
        None => into.extend_from_slice(b"infeasible\n"),
    }
}

/// Appends the summary of a trial: how many flights there are, the bound k on shifts, how many candidates were looked
/// at, and the first line of the plan's block. After a refusal, which is want of memory, `into` is as before.
pub fn trial_summary(
    flights: u8,
    k: u8,
    nodes: u64,
    objective: Objective,
    plan: Option<&Plan>,
    into: &mut Vec<u8>,
) -> Result<(), AllocError>
    ensures { Appends into.old.items into.new.items
        (trial_text flights k nodes objective (option_map (λ p. p.now) plan.entry)) result }
{
    let mut text = Vec::new(*into.allocator());
    append_numbers(flights, k, nodes, &mut text)?;
    append_first(objective, plan, &mut text)?;
    into.extend_from_slice(text.as_slice())
}
