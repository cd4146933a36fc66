// Why a trial is not planned.
ghost use Rattle.std.specs.Prelude.{◌≡◌, ◌≤◌, length};
ghost use Rattle.landing_rules.specs.Events as rules;
ghost use Rattle.cps_base.specs.Limits.{most_waiting};
ghost use Rattle.situations.specs.Answers.{refusal_of};
ghost use Rattle.whatif.specs.Outcomes.{first_above, shift_refusal, closure_refusal};

use crate::outcome::TrialRefusal;
use arrivals::{Aerodrome, Event, PassedList, is_beyond};
use situations::{Refusal, Situation};

// The number, from 1, of the first passed-over count above the limit of shift.
fn first_above(passed: &PassedList, k: u8) -> Option<u8>
    requires { length passed.now ≤ most_waiting }
    ensures { result ≡ first_above k 1 passed.now }
{
    passed
        .entries()
        .iter()
        .position(|entry| entry.count > k)
        .map(|i| i as u8 + 1)
}

// Why the limit of shift is refused.
pub(crate) fn shift_refusal(aerodrome: &Aerodrome, k: u8) -> Option<TrialRefusal>
    requires { length aerodrome.now.passed ≤ most_waiting }
    ensures { result ≡ shift_refusal aerodrome.now k }
{
    if is_beyond(aerodrome.version, k, aerodrome.objective) {
        return Some(TrialRefusal::DelayShift(k));
    }
    first_above(&aerodrome.passed, k).map(|i| TrialRefusal::PassedAbove(i))
}

// The refusal of a closure, from that of its event.
fn of_event(found: &Refusal) -> Option<TrialRefusal>
    ensures { result ≡ closure_refusal (refusal_of found.now) }
{
    match found {
        Refusal::CoversFrozen(callsign, second) => {
            Some(TrialRefusal::CoversFrozen(*callsign, *second))
        }
        Refusal::TooManyClosures => Some(TrialRefusal::TooManyClosures),
        _ => None,
    }
}

// Why the closure is refused.
pub(crate) fn closure_refusal(situation: &Situation, from: u32, to: u32) -> Option<TrialRefusal>
    ensures { result ≡ closure_refusal (rules.refusal situation.now (rules.Close (from, to))) }
{
    situation
        .refusal(&Event::Close(from, to))
        .and_then(|refusal| of_event(&refusal))
}
