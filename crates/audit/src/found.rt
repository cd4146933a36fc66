// The lines of a block with their flights.
ghost use Rattle.std.specs.Prelude.{◌≡◌, ◌++◌, [], IfOk, OnOk, map};
ghost use Rattle.std.specs.List.{cons_option};
ghost use Rattle.landing_rules.specs.Audit.{lines_found, is_marked, mismarked, Mark};
ghost use Rattle.plan_file.specs.Shown.{shown_of};
ghost use Rattle.audit.specs.Findings.{Finds, one_found, unless};

use crate::Finding;
use cps_base::Callsign;
use plan_file::Landing;
use situations::Active;
use std::alloc::{AllocError, Global};
use std::marker::Model;

// A line with its flight. Contracts see the pair.
#[derive(Drop)]
pub(crate) struct Found {
    pub(crate) line: Landing,
    pub(crate) active: Active,
}

impl Model for Found {
    ghost use Rattle.landing_rules.specs.Flights as rules;
    ghost use Rattle.landing_rules.specs.Text.{ShownLanding};
    ghost use Rattle.plan_file.specs.Shown.{shown_of};

    ghost Value = { ShownLanding × rules.Active };

    ghost view = { λ f. (shown_of f.line, f.active) };
}

// The flight's callsign.
pub(crate) fn name_of(active: &Active) -> Callsign
    ensures { result ≡ active.now.flight.callsign }
{
    active.flight.callsign
}

// The line with its flight, where it names one that is active.
fn found_of(active: &[Active], line: &Landing) -> Result<Option<Found>, AllocError>
    ensures { IfOk result (λ found. found
        ≡ one_found active.now (shown_of line.now)) }
{
    match active.iter().find(|a| name_of(a) == line.callsign) {
        None => Ok(None),
        Some(named) => {
            let active = named.clone()?;
            Ok(Some(Found {
                line: *line,
                active,
            }))
        }
    }
}

// Takes in what was found.
fn take_found(all: &mut Vec<Found>, found: Option<Found>) -> Result<(), AllocError>
    ensures { OnOk result (all.new.items ≡ all.old.items ++ cons_option found []) }
{
    if let Some(found) = found {
        all.push(found)?;
    }
    Ok(())
}

// The lines that name active flights, with them.
pub(crate) fn lines_found(
    alloc: Global,
    active: &[Active],
    lines: &[Landing],
) -> Result<Vec<Found>, AllocError>
    ensures { IfOk result (λ all. all.items
        ≡ lines_found active.now (map shown_of lines.now)) }
{
    let mut all = Vec::with_capacity(alloc, lines.len())?;
    for line in lines {
        let found = found_of(active, line)?;
        take_found(&mut all, found)?;
    }
    Ok(all)
}

// Whether the last word of the line is the flight's state.
fn is_marked(found: &Found) -> bool
    ensures { result ≡ is_marked found.now }
{
    found.line.frozen == found.active.frozen.is_some()
}

// Notes a line whose last word is not the flight's state.
fn note_mark(f: &Found, all: &mut Vec<Finding>) -> Result<(), AllocError>
    ensures { OnOk result (Finds all.old.items all.new.items
        (unless (is_marked f.now) (Mark f.now.0.callsign))) }
{
    if !is_marked(f) {
        all.push(Finding::Mark(f.line.callsign))?;
    }
    Ok(())
}

// Each line whose last word is not the flight's state.
pub(crate) fn mismarked(found: &[Found], all: &mut Vec<Finding>) -> Result<(), AllocError>
    ensures { OnOk result (Finds all.old.items all.new.items (mismarked found.now)) }
{
    for f in found {
        note_mark(f, all)?;
    }
    Ok(())
}
