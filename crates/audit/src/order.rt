// Whether the seconds of the lines rise.
ghost use Rattle.std.specs.Prelude.{◌≡◌, ◌≤◌, ◌+◌, OnOk, length, map};
ghost use Rattle.landing_rules.specs.Audit.{disordered, disordered_from};
ghost use Rattle.cps_base.specs.Limits.{most_flights};
ghost use Rattle.plan_file.specs.Shown.{shown_of};
ghost use Rattle.audit.specs.Findings.{Finds, out_of_order};

use crate::Finding;
use plan_file::Landing;
use std::alloc::AllocError;

// Notes line i where its second is not above that of the line before.
fn note(i: u32, before: u32, second: u32, all: &mut Vec<Finding>) -> Result<(), AllocError>
    ensures { OnOk result (Finds all.old.items all.new.items (out_of_order i before second)) }
{
    if second <= before {
        all.push(Finding::Order(i))?;
    }
    Ok(())
}

// Of the lines from the second on, behind a line at that second.
fn disordered_behind(
    first: u32,
    lines: &[Landing],
    all: &mut Vec<Finding>,
) -> Result<(), AllocError>
    requires { length lines.now ≤ most_flights }
    ensures { OnOk result (Finds all.old.items all.new.items
        (disordered_from 2 first (map shown_of lines.now))) }
{
    let mut before = first;
    for i in 0..lines.len() {
        let second = lines[i].second;
        note(i as u32 + 2, before, second, all)?;
        before = second;
    }
    Ok(())
}

// Each line from 2 whose second is not above that of the line before.
pub(crate) fn disordered(lines: &[Landing], all: &mut Vec<Finding>) -> Result<(), AllocError>
    requires { length lines.now ≤ most_flights }
    ensures { OnOk result (Finds all.old.items all.new.items
        (disordered (map shown_of lines.now))) }
{
    match lines {
        [] => Ok(()),
        [first, rest @ ..] => disordered_behind(first.second, rest, all),
    }
}
