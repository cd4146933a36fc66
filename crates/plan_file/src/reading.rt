// The plan that a text is.
ghost use Rattle.std.specs.Prelude.{◌≤◌, IfOk, length, map};
ghost use Rattle.cps_base.specs.Answers.{Gives, GivesAs};
ghost use Rattle.cps_base.specs.Limits.{most_flights};
ghost use Rattle.plan_file.specs.Shown.{shown_of};
ghost use Rattle.texts.specs.Parts.{parts};
ghost use Rattle.plan_file.specs.Reading.{body_lines, memory_fault, nothing_behind, plan_of, HasFewLines};

use crate::block::{Block, BlockLines};
use crate::landing::Landing;
use crate::lines::{head_of, line_of};
use crate::plan::{PlanFault, PlanText};
use std::alloc::Global;
use texts::first_part;

// The lines from the second on.
#[tactic(auto, unfolding(crate::specs::Reading::lines_in))]
fn read_body(alloc: Global, text: &[u8]) -> Result<Vec<Landing>, PlanFault>
    ensures value { GivesAs memory_fault (λ all.
        map shown_of all.items) result (body_lines (parts 10 text.now)) }
    ensures few { IfOk result (λ all. length all.items ≤ most_flights) }
{
    let mut landings = Vec::new(alloc);
    let mut number: u32 = 2;
    let (mut line, mut after) = first_part(text, b'\n');
    while let Some(rest) = after {
        let landing = line_of(number, line)?;
        landings.push(landing)?;
        number += 1;
        (line, after) = first_part(rest, b'\n');
    }
    if !line.is_empty() {
        return Err(PlanFault::Line(number));
    }
    Ok(landings)
}

// Behind the line that there is no plan.
fn read_nothing(text: &[u8]) -> Result<PlanText, PlanFault>
    ensures { Gives memory_fault result (nothing_behind (parts 10 text.now)) }
{
    if !text.is_empty() {
        return Err(PlanFault::Line(2));
    }
    Ok(PlanText::Nothing)
}

/// The plan that a text is, or its first line that is not of its form, does not end with a line feed, or is one line too
/// many: the one line `infeasible`, or a line `makespan V` or `delay V`, with V from 0 to 8,639,950,000, and then at most
/// 500 lines `land CALLSIGN SECOND waiting` or `land CALLSIGN SECOND frozen`, with a second from 0 to 172,799. What is
/// printed of a plan reads back as the plan.
#[tactic(auto, unfolding(crate::specs::Reading::plan_of, crate::specs::Reading::plan_by))]
pub fn read_plan(alloc: Global, bytes: &[u8]) -> Result<PlanText, PlanFault>
    ensures value { Gives memory_fault result (plan_of bytes.now) }
    ensures few { IfOk result HasFewLines }
{
    let (head, rest) = first_part(bytes, b'\n');
    if head == b"infeasible".as_slice() {
        return match rest {
            None => Err(PlanFault::Line(1)),
            Some(rest) => read_nothing(rest),
        };
    }
    let Some((objective, value)) = head_of(head) else {
        return Err(PlanFault::Line(1));
    };
    let Some(rest) = rest else {
        return Err(PlanFault::Line(1));
    };
    let landings = read_body(alloc, rest)?;
    Ok(PlanText::Block(Block {
        objective,
        value,
        lines: BlockLines::new(landings),
    }))
}
