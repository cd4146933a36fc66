// The rules over the lines of a block, each with its flight.
ghost use Rattle.std.specs.Prelude.{◌≡◌, OnOk, flat_map, map, unwrap_or};
ghost use Rattle.landing_rules.specs.Rules.{is_open};
ghost use Rattle.landing_rules.specs.Audit.{Closed, Early, Moved, Precedence, Separation, landing_of, closed, are_apart, unseparated, is_before, late, listed_late, is_kept, moved, is_late_enough, early};
ghost use Rattle.landing_rules.specs.Flights.{horizon};
ghost use Rattle.audit.specs.Findings.{Finds, too_near, unless};

use crate::Finding;
use crate::found::Found;
use cps_base::Callsign;
use landing_windows::Closures;
use situations::{Situation, is_open};
use std::alloc::AllocError;
use wake_table::PairTable;

// Whether the line's second is open for its flight.
fn is_at_open_second(closures: &Closures, found: &Found) -> bool
    ensures { result ≡ is_open found.now.1.flight.windows closures.now found.now.0.second }
{
    is_open(&found.active.flight.windows, closures, found.line.second)
}

// Notes a landing at a second that is not open.
fn note_closed(situation: &Situation, f: &Found, all: &mut Vec<Finding>) -> Result<(), AllocError>
    ensures { OnOk result (Finds all.old.items all.new.items
        (unless (is_open f.now.1.flight.windows situation.now.closures f.now.0.second)
        (Closed f.now.1.flight.callsign f.now.0.second))) }
{
    if !is_at_open_second(situation.closures(), f) {
        all.push(Finding::Closed(f.active.flight.callsign, f.line.second))?;
    }
    Ok(())
}

// Each landing at a second that is not open.
pub(crate) fn closed(
    situation: &Situation,
    found: &[Found],
    all: &mut Vec<Finding>,
) -> Result<(), AllocError>
    ensures { OnOk result (Finds all.old.items all.new.items
        (closed situation.now (map landing_of found.now))) }
{
    for f in found {
        note_closed(situation, f, all)?;
    }
    Ok(())
}

// Whether two landings are the table's time apart, whichever is the earlier.
fn are_apart(table: &PairTable, f: &Found, g: &Found) -> bool
    ensures { result ≡ are_apart table.now (landing_of f.now) (landing_of g.now) }
{
    situations::are_apart(table, &f.active, f.line.second, &g.active, g.line.second)
}

// Notes two landings that are not the table's time apart.
fn note_unseparated(
    table: &PairTable,
    f: &Found,
    g: &Found,
    all: &mut Vec<Finding>,
) -> Result<(), AllocError>
    ensures { OnOk result (Finds all.old.items all.new.items
        (unless (are_apart table.now (landing_of f.now) (landing_of g.now))
        (Separation f.now.1.flight.callsign g.now.1.flight.callsign))) }
{
    if !are_apart(table, f, g) {
        all.push(Finding::Separation(f.active.flight.callsign, g.active.flight.callsign))?;
    }
    Ok(())
}

// Each of the others that is not the table's time from the first.
fn unseparated_from(
    table: &PairTable,
    first: &Found,
    others: &[Found],
    all: &mut Vec<Finding>,
) -> Result<(), AllocError>
    ensures { OnOk result (Finds all.old.items all.new.items
        (too_near table.now (landing_of first.now) (map landing_of others.now))) }
{
    for g in others {
        note_unseparated(table, first, g, all)?;
    }
    Ok(())
}

// Each two landings, neighbours or not, that are not the table's time apart.
pub(crate) fn unseparated(
    table: &PairTable,
    found: &[Found],
    all: &mut Vec<Finding>,
) -> Result<(), AllocError>
    ensures { OnOk result (Finds all.old.items all.new.items
        (unseparated table.now (map landing_of found.now))) }
{
    for i in 0..found.len() {
        unseparated_from(table, &found[i], &found[i + 1..], all)?;
    }
    Ok(())
}

// Whether the landing is before d, or is not the one of the callsign.
fn is_before(d: &Found, callsign: Callsign, f: &Found) -> bool
    ensures { result ≡ is_before (landing_of d.now) callsign (landing_of f.now) }
{
    f.active.flight.callsign != callsign || f.line.second < d.line.second
}

// Notes a landing of the callsign that is not before d.
fn note_late(
    d: &Found,
    callsign: Callsign,
    f: &Found,
    all: &mut Vec<Finding>,
) -> Result<(), AllocError>
    ensures { OnOk result (Finds all.old.items all.new.items
        (unless (is_before (landing_of d.now) callsign (landing_of f.now))
        (Precedence callsign d.now.1.flight.callsign))) }
{
    if !is_before(d, callsign, f) {
        all.push(Finding::Precedence(callsign, d.active.flight.callsign))?;
    }
    Ok(())
}

// The flight of the callsign, which d lists, where it is active and does not land before d.
fn listed_late(
    found: &[Found],
    d: &Found,
    callsign: Callsign,
    all: &mut Vec<Finding>,
) -> Result<(), AllocError>
    ensures { OnOk result (Finds all.old.items all.new.items
        (listed_late (map landing_of found.now) (landing_of d.now) callsign)) }
{
    for f in found {
        note_late(d, callsign, f, all)?;
    }
    Ok(())
}

// Each active flight that d lists and that doesn't land before it, in the order of its list.
fn late_for(found: &[Found], d: &Found, all: &mut Vec<Finding>) -> Result<(), AllocError>
    ensures { OnOk result (Finds all.old.items all.new.items
        (flat_map (listed_late (map landing_of found.now) (landing_of d.now))
        d.now.1.flight.after)) }
{
    for callsign in d.active.flight.after.names() {
        listed_late(found, d, *callsign, all)?;
    }
    Ok(())
}

// Line by line, each active flight of the line's list that does not land before it, in the order of the list.
pub(crate) fn late(found: &[Found], all: &mut Vec<Finding>) -> Result<(), AllocError>
    ensures { OnOk result (Finds all.old.items all.new.items (late (map landing_of found.now))) }
{
    for d in found {
        late_for(found, d, all)?;
    }
    Ok(())
}

// Whether a frozen flight is at its second.
fn is_kept(found: &Found) -> bool
    ensures { result ≡ is_kept (landing_of found.now) }
{
    match found.active.frozen {
        None => true,
        Some(second) => found.line.second == second,
    }
}

// Notes a frozen flight that is not at its second.
fn note_moved(f: &Found, all: &mut Vec<Finding>) -> Result<(), AllocError>
    ensures { OnOk result (Finds all.old.items all.new.items
        (unless (is_kept (landing_of f.now))
        (Moved f.now.1.flight.callsign (unwrap_or f.now.1.frozen 0)))) }
{
    if !is_kept(f) {
        all.push(Finding::Moved(f.active.flight.callsign, f.active.frozen.unwrap_or(0)))?;
    }
    Ok(())
}

// Each frozen flight that is not at its second.
pub(crate) fn moved(found: &[Found], all: &mut Vec<Finding>) -> Result<(), AllocError>
    ensures { OnOk result (Finds all.old.items all.new.items (moved (map landing_of found.now))) }
{
    for f in found {
        note_moved(f, all)?;
    }
    Ok(())
}

// Whether a waiting flight lands at the horizon or later.
fn is_late_enough(horizon: u32, found: &Found) -> bool
    ensures { result ≡ is_late_enough horizon (landing_of found.now) }
{
    found.active.frozen.is_some() || horizon <= found.line.second
}

// Notes a waiting flight before the horizon.
fn note_early(horizon: u32, f: &Found, all: &mut Vec<Finding>) -> Result<(), AllocError>
    ensures { OnOk result (Finds all.old.items all.new.items
        (unless (is_late_enough horizon (landing_of f.now)) (Early f.now.1.flight.callsign))) }
{
    if !is_late_enough(horizon, f) {
        all.push(Finding::Early(f.active.flight.callsign))?;
    }
    Ok(())
}

// Each waiting flight before the horizon.
pub(crate) fn early(horizon: u32, found: &[Found], all: &mut Vec<Finding>) -> Result<(), AllocError>
    ensures { OnOk result (Finds all.old.items all.new.items
        (early horizon (map landing_of found.now))) }
{
    for f in found {
        note_early(horizon, f, all)?;
    }
    Ok(())
}
