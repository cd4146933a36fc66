//! What holds of printed plans.

ghost use Rattle.plan_file.specs.Printed.{NoPlanReadsBackLaw, PlanReadsBackLaw, ShownPlanIsReadableLaw};

/// What is printed of a plan reads back as the plan, where its callsigns, numbers and their count are in their ranges, as
/// they are of every plan that a sound state shows; and the line of no plan reads back as none.
pub fn printed_plans_read_back()
    ensures plan { PlanReadsBackLaw }
    ensures none { NoPlanReadsBackLaw }
    ensures shown { ShownPlanIsReadableLaw }
{}
