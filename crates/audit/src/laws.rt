//! What holds of the findings, and of the plans that are shown.

ghost use Rattle.std.specs.Prelude.{◌≡◌, [], Some};
ghost use Rattle.landing_rules.specs.Audit.{findings};
ghost use Rattle.landing_rules.specs.Flights.{Active, Landing};
ghost use Rattle.landing_rules.specs.Text.{ShownLanding, ShownPlan, plan_shown};
ghost use Rattle.audit.specs.Members.{EachBreakLaw, EachPairLaw};
ghost use Rattle.landing_joint.specs.AuditLaws.{shown_block};

use cps_problem::Planner;
use landing_joint::laws::findings_are_whole;
use sequencer::Sequencer;

/// Nothing is found in the plan that a sequencer shows, in its situation and under its objective: after it began, and
/// after any events.
pub fn shown_plan_is_clean<P: Planner>(sequencer: &Sequencer<P>)
    ensures { (plan : ShownPlan) → plan_shown sequencer.now.state ≡ Some plan
        → findings sequencer.now.state.situation (shown_block sequencer.now.state plan) ≡ [] }
{
    findings_are_whole();
    let _ = sequencer.problem();
}

/// Each finding by a test is listed exactly where an element fails it: an active flight, a line, a line with its flight or a
/// landing; and each of two landings exactly where these fail it, the first above the second in the block, neighbours or
/// not.
pub fn what_is_broken_is_listed()
    ensures flights { EachBreakLaw Active }
    ensures lines { EachBreakLaw ShownLanding }
    ensures marks { EachBreakLaw (ShownLanding × Active) }
    ensures landings { EachBreakLaw Landing }
    ensures pairs { EachPairLaw Landing }
{}
