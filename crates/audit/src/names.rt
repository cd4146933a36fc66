// Whether the lines name each active flight, no other, and none twice.
ghost use Rattle.std.specs.Prelude.{◌≡◌, ◌++◌, ℕ, List, [], OnOk, length, map};
ghost use Rattle.landing_rules.specs.Audit.{by_name, has_line, lines_found, missing, Missing, twice, unknown, Unknown};
ghost use Rattle.landing_rules.specs.Events.{named};
ghost use Rattle.std.specs.List.{list_any};
ghost use Rattle.plan_file.specs.Shown.{shown_of};
ghost use Rattle.audit.specs.Findings.{Finds, repeated, unless};
ghost use Rattle.audit.specs.Seen.{has_name};

use crate::Finding;
use crate::found::name_of;
use crate::seen::Seen;
use cps_base::Callsign;
use plan_file::Landing;
use situations::Active;
use std::alloc::{AllocError, Global};

// Notes an active flight without a line.
fn note_missing(seen: &Seen, a: &Active, all: &mut Vec<Finding>) -> Result<(), AllocError>
    ensures { OnOk result (Finds all.old.items all.new.items
        (unless (has_name seen.now a.now.flight.callsign) (Missing a.now.flight.callsign))) }
{
    if !seen.has(name_of(a)) {
        all.push(Finding::Missing(name_of(a)))?;
    }
    Ok(())
}

// Each active flight without a line, in order of arrival.
fn missing(
    active: &[Active],
    lines: &[Landing],
    seen: &Seen,
    all: &mut Vec<Finding>,
) -> Result<(), AllocError>
    requires { (c : List ℕ) → has_name seen.now c ≡ has_line (map shown_of lines.now) c }
    ensures { OnOk result (Finds all.old.items all.new.items
        (missing active.now (map shown_of lines.now))) }
{
    for a in active {
        note_missing(seen, a, all)?;
    }
    Ok(())
}

// Whether a flight of this name is active.
fn is_active(active: &[Active], callsign: Callsign) -> bool
    ensures { result ≡ list_any (named callsign) active.now }
{
    active.iter().any(|a| name_of(a) == callsign)
}

// Notes a line that names no active flight.
fn note_unknown(active: &[Active], l: &Landing, all: &mut Vec<Finding>) -> Result<(), AllocError>
    ensures { OnOk result (Finds all.old.items all.new.items
        (unless (list_any (named (shown_of l.now).callsign) active.now)
        (Unknown (shown_of l.now).callsign))) }
{
    if !is_active(active, l.callsign) {
        all.push(Finding::Unknown(l.callsign))?;
    }
    Ok(())
}

// Each line that names no active flight.
fn unknown(active: &[Active], lines: &[Landing], all: &mut Vec<Finding>) -> Result<(), AllocError>
    ensures { OnOk result (Finds all.old.items all.new.items
        (unknown active.now (map shown_of lines.now))) }
{
    for l in lines {
        note_unknown(active, l, all)?;
    }
    Ok(())
}

// The same where the flights of so many lines were found: with those of all there is none to look for.
fn unknown_unless(
    active: &[Active],
    lines: &[Landing],
    found: usize,
    all: &mut Vec<Finding>,
) -> Result<(), AllocError>
    requires { found
        ≡ length (lines_found active.now (map shown_of lines.now)) }
    ensures { OnOk result (Finds all.old.items all.new.items
        (unknown active.now (map shown_of lines.now))) }
{
    if found == lines.len() {
        return Ok(());
    }
    unknown(active, lines, all)
}

// Notes a line whose callsign was seen.
fn note_again(was_seen: bool, callsign: Callsign, all: &mut Vec<Finding>) -> Result<(), AllocError>
    ensures { OnOk result (Finds all.old.items all.new.items (repeated was_seen callsign)) }
{
    if was_seen {
        all.push(Finding::Twice(callsign))?;
    }
    Ok(())
}

// Each line whose callsign an earlier line has. Then those of all lines are seen.
fn twice(lines: &[Landing], seen: &mut Seen, all: &mut Vec<Finding>) -> Result<(), AllocError>
    requires { seen.old ≡ [] }
    ensures found { OnOk result (Finds all.old.items all.new.items
        (twice (map shown_of lines.now))) }
    ensures seen { OnOk result ((c : List ℕ) → has_name seen.new c
        ≡ has_line (map shown_of lines.now) c) }
{
    for line in lines {
        let was_seen = seen.add(line.callsign)?;
        note_again(was_seen, line.callsign, all)?;
    }
    Ok(())
}

// The same where the callsigns of the lines were seen, and which stand there again.
fn by_seen(
    active: &[Active],
    lines: &[Landing],
    found: usize,
    seen: &Seen,
    again: &mut Vec<Finding>,
    all: &mut Vec<Finding>,
) -> Result<(), AllocError>
    requires found { found
        ≡ length (lines_found active.now (map shown_of lines.now)) }
    requires seen { (c : List ℕ) → has_name seen.now c ≡ has_line (map shown_of lines.now) c }
    requires again { Finds [] again.old.items (twice (map shown_of lines.now)) }
    ensures { OnOk result (Finds all.old.items all.new.items
        (by_name active.now (map shown_of lines.now))) }
{
    missing(active, lines, seen, all)?;
    unknown_unless(active, lines, found, all)?;
    all.append(again)
}

// What is wrong with the names: each active flight without a line, each line that names none, each that names one again.
pub(crate) fn by_name(
    alloc: Global,
    active: &[Active],
    lines: &[Landing],
    found: usize,
    all: &mut Vec<Finding>,
) -> Result<(), AllocError>
    requires { found
        ≡ length (lines_found active.now (map shown_of lines.now)) }
    ensures { OnOk result (Finds all.old.items all.new.items
        (by_name active.now (map shown_of lines.now))) }
{
    let mut seen = Seen::new(alloc);
    let mut again = Vec::new(alloc);
    twice(lines, &mut seen, &mut again)?;
    by_seen(active, lines, found, &seen, &mut again, all)
}
