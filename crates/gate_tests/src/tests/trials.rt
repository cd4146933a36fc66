use super::given::text_of_three;
use crate::CountingGate;
use std::test::Fail;

const TRIALS: &str = "kind,value
k,2
k,0
close,1000-1240
close,0-172800
";

const OUTCOMES: &str = "base 1240
trial 1 1160
trial 2 1270
trial 3 1480
trial 4 infeasible
";

#[test]
fn each_outcome_of_a_trial_passes_once(rt: HostRuntime) -> Result<(), Fail> {
    let gate = CountingGate::new();
    let text = text_of_three(&rt, rt.alloc(), "whatif", "makespan", TRIALS, &gate)?;
    assert_eq!(rt; text.as_slice(), OUTCOMES.as_bytes());
    assert_eq!(rt; gate.passes(), 5);
    Ok(())
}
