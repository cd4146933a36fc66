// All findings of a block.
ghost use Rattle.std.specs.Prelude.{◌≡◌, ◌≤◌, ◌↔◌, [], IfOk, OnOk, length, map};
ghost use Rattle.cps_base.specs.Limits.{most_flights};
ghost use Rattle.landing_rules.specs.Sound.{IsSound};
ghost use Rattle.landing_rules.specs.Audit.{IsClean, by_line, by_rules, findings, landing_of, lines_found};
ghost use Rattle.audit.specs.Findings.{finding_of, Finds};
ghost use Rattle.plan_file.specs.Blocks.{seen_block};

use crate::Finding;
use crate::found::{Found, lines_found, mismarked};
use crate::head::by_head;
use crate::names::by_name;
use crate::order::disordered;
use crate::rules::{closed, early, late, moved, unseparated};
use crate::shift::shifted;
use landing_joint::laws::findings_are_whole;
use plan_file::Block;
use situations::Situation;
use std::alloc::{AllocError, Global};

// What the landings break, rule by rule.
fn by_rules(
    alloc: Global,
    situation: &Situation,
    found: &[Found],
    all: &mut Vec<Finding>,
) -> Result<(), AllocError>
    requires { length found.now ≤ most_flights }
    ensures { OnOk result (Finds all.old.items all.new.items
        (by_rules situation.now (map landing_of found.now))) }
{
    let fixed = situation.fixed();
    closed(situation, found, all)?;
    unseparated(&fixed.table, found, all)?;
    late(found, all)?;
    moved(found, all)?;
    early(situation.horizon(), found, all)?;
    shifted(alloc, fixed.k, found, all)
}

// What is found where the names are right: of the lines, of the rules and of the first line.
fn by_line(
    alloc: Global,
    situation: &Situation,
    block: &Block,
    found: &[Found],
    all: &mut Vec<Finding>,
) -> Result<(), AllocError>
    requires found { found.now ≡ lines_found situation.now.active block.now.lines }
    requires sound { IsSound situation.now }
    requires few { length block.now.lines ≤ most_flights }
    ensures { OnOk result (Finds all.old.items all.new.items
        (by_line situation.now (seen_block block.now))) }
{
    let meant = situation.fixed().objective;
    disordered(block.lines.all(), all)?;
    mismarked(found, all)?;
    by_rules(alloc, situation, found, all)?;
    by_head(meant, block.objective, block.value, found, all)
}

// The findings of a block: of the names, and where they are right of the rest.
fn found_in(alloc: Global, situation: &Situation, block: &Block) -> Result<Vec<Finding>, AllocError>
    requires sound { IsSound situation.now }
    requires few { length block.now.lines ≤ most_flights }
    ensures { IfOk result (λ all. map finding_of all.items
        ≡ findings situation.now (seen_block block.now)) }
{
    let active = situation.flights();
    let lines = block.lines.all();
    let found = lines_found(alloc, active, lines)?;
    let mut all = Vec::new(alloc);
    by_name(alloc, active, lines, found.len(), &mut all)?;
    if all.is_empty() {
        by_line(alloc, situation, block, &found, &mut all)?;
    }
    Ok(all)
}

/// Every rule that a plan block breaks in a situation, in this order: each active flight without a line, in order of
/// arrival; then, by lines, each line that names no active flight, and each whose callsign an earlier line has. Only
/// where these find nothing: each line from 2 whose second is not above that of the line before; each whose last word is
/// not the flight's state; each second that is not open; each two lines that are not the table's time apart, neighbours
/// or not; each active flight of a line's list that does not land before it; each frozen flight that is not at its second;
/// each waiting flight before the horizon, and each too far from its rank; and where the first line's word is not the
/// aerodrome's objective or its number not the objective of the seconds.
///
/// Nothing is planned. It is asked that the situation is sound and the block has at most 500 lines. There is no finding
/// exactly where the block is that of a feasible schedule.
pub fn audit(
    alloc: Global,
    situation: &Situation,
    block: &Block,
) -> Result<Vec<Finding>, AllocError>
    requires sound { IsSound situation.now }
    requires few { length block.now.lines ≤ most_flights }
    ensures found { IfOk result (λ all. map finding_of all.items
        ≡ findings situation.now (seen_block block.now)) }
    ensures clean { IfOk result (λ all. (all.items ≡ [])
        ↔ IsClean situation.now (seen_block block.now)) }
{
    findings_are_whole();
    found_in(alloc, situation, block)
}
