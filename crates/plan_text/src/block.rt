ghost use Rattle.std.specs.Prelude.{◌≡◌, ◌++◌, OnOk, option_map, Some, map, drop};
ghost use Rattle.texts.specs.Appends.{Appends};
ghost use Rattle.landing_rules.specs.Text.{line, lines_text, block_text, head_words, landing_words, objective_word, frozen_word};
ghost use Rattle.plan_file.specs.Shown.{shown_of};

use cps_problem::Objective;
use itoa::Buffer;
use plan_file::{Landing, Plan};
use std::alloc::AllocError;

fn objective_word(objective: Objective) -> &'static [u8]
    ensures { result.now ≡ objective_word objective }
{
    match objective {
        Objective::Makespan => b"makespan ",
        Objective::Delay => b"delay ",
    }
}

fn frozen_word(frozen: bool) -> &'static [u8]
    ensures { result.now ≡ frozen_word frozen }
{
    if frozen { b" frozen" } else { b" waiting" }
}

pub(crate) fn append_head(
    objective: Objective,
    value: u64,
    into: &mut Vec<u8>,
) -> Result<(), AllocError>
    ensures { OnOk result (into.new.items ≡ into.old.items ++ line (head_words objective value)) }
{
    let mut number = Buffer::new();
    into.extend_from_slice(objective_word(objective))?;
    into.extend_from_slice(number.format(value).as_bytes())?;
    into.push(b'\n')?;
    Ok(())
}

pub(crate) fn append_landing(landing: &Landing, into: &mut Vec<u8>) -> Result<(), AllocError>
    ensures { OnOk result (into.new.items ≡ into.old.items ++ line (landing_words
        (shown_of landing.now))) }
{
    let mut second = Buffer::new();
    into.extend_from_slice(b"land ")?;
    into.extend_from_slice(landing.callsign.bytes())?;
    into.push(b' ')?;
    into.extend_from_slice(second.format(landing.second).as_bytes())?;
    into.extend_from_slice(frozen_word(landing.frozen))?;
    into.push(b'\n')?;
    Ok(())
}

// The lines of the landings from this place on, counted from 0.
pub(crate) fn append_landings(
    plan: &Plan,
    first: usize,
    into: &mut Vec<u8>,
) -> Result<(), AllocError>
    ensures { OnOk result (into.new.items ≡ into.old.items ++ lines_text (map landing_words
        (drop first plan.now.landings))) }
{
    for i in first..plan.len() {
        let landing = plan.line(i);
        append_landing(&landing, into)?;
    }
    Ok(())
}

fn append_plan(objective: Objective, plan: &Plan, into: &mut Vec<u8>) -> Result<(), AllocError>
    ensures { OnOk result (into.new.items ≡ into.old.items ++ block_text objective (Some
        plan.now)) }
{
    append_head(objective, plan.value(), into)?;
    append_landings(plan, 0, into)
}

// Room for its lines, of which each has at most 29 bytes.
pub(crate) fn room(plan: &Plan) -> usize {
    plan.len().saturating_add(1).saturating_mul(32)
}

/// Appends a plan: a line with its objective and a line for each landing, in landing order; or the line `infeasible`
/// where there is no plan. After a refusal, which is want of memory, `into` is as before.
pub fn plan_block(
    objective: Objective,
    plan: Option<&Plan>,
    into: &mut Vec<u8>,
) -> Result<(), AllocError>
    ensures { Appends into.old.items into.new.items
        (block_text objective (option_map (λ p. p.now) plan.entry)) result }
{
    let Some(plan) = plan else {
        return into.extend_from_slice(b"infeasible\n");
    };
    let mut text = Vec::with_capacity(*into.allocator(), room(plan))?;
    append_plan(objective, plan, &mut text)?;
    into.extend_from_slice(text.as_slice())
}
