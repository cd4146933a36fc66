ghost use Rattle.std.specs.Prelude.{◌≡◌, IfOk, ◌≤◌, [], length};
ghost use Rattle.cps_base.specs.Limits.{most_predecessors};
ghost use Rattle.texts.specs.Parts.{parts};
ghost use Rattle.arrivals.specs.Flights.{AreOthers};
ghost use Rattle.flight_file.specs.After.{names_in, name_in, names_from};

use crate::fault::AfterCause;
use arrivals::After;
use cps_base::{Callsign, MOST_PREDECESSORS};
use std::alloc::Global;
use texts::{first_part, has_more_parts};

// One more predecessor, part `number`, behind those of the parts before it.
fn name_in(own: Callsign, number: u8, before: &After, text: &[u8]) -> Result<Callsign, AfterCause>
    ensures { result ≡ name_in own number before.now text.now }
{
    let Some(name) = Callsign::read(text) else {
        return Err(AfterCause::Callsign(number));
    };
    if name == own {
        return Err(AfterCause::Itself(number));
    }
    if before.has(name) {
        return Err(AfterCause::Repeat(number));
    }
    Ok(name)
}

// The predecessors that the parts of a text name.
#[tactic(auto, unfolding(crate::specs::After::names_from))]
fn names_in_parts(alloc: Global, text: &[u8], own: Callsign) -> Result<After, AfterCause>
    requires { length (parts 59 text.now) ≤ most_predecessors }
    ensures { result ≡ names_from own 1 [] (parts 59 text.now) }
{
    let mut names = After::new(alloc);
    let mut number: u8 = 1;
    let mut rest = Some(text);
    while let Some(text) = rest {
        let (part, after) = first_part(text, b';');
        let name = name_in(own, number, &names, part)?;
        names.push(name);
        number += 1;
        rest = after;
    }
    Ok(names)
}

/// The predecessors that a text names: callsigns joined by `;`, none of them the flight's own and
/// none twice. An empty text names none; else each part from the first is tested. It takes no
/// memory.
#[tactic(auto, using(crate::proofs::Names::names_given), unfolding(crate::specs::After::names_in))]
pub fn read_after(alloc: Global, text: &[u8], own: Callsign) -> Result<After, AfterCause>
    ensures value { result ≡ names_in own text.now }
    ensures others { IfOk result (AreOthers own) }
{
    if text.is_empty() {
        return Ok(After::new(alloc));
    }
    if has_more_parts(text, b';', MOST_PREDECESSORS) {
        return Err(AfterCause::TooMany);
    }
    names_in_parts(alloc, text, own)
}
