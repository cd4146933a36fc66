//! Back from a best pair of the last stage to an order.

ghost use Rattle.std.specs.Prelude.{◌≡◌, ℕ, ◌+◌, ◌*◌, ◌<◌, length, MatchOption};
ghost use Rattle.cps_network.specs.Pairs.{list_at};
ghost use Rattle.replan.specs.Labels.{last_pair};
ghost use Rattle.replan.specs.LeastValue.{IsLeastPlace};
ghost use Rattle.replan.specs.Stages.{stage_at, AreStages, LandsWithPair};

use crate::labels::Labels;
use crate::stages::LabelledStage;
use cps_network::{last_rank, prefix_laws};
use cps_nodes::window_laws;
use cps_problem::Problem;

// The first place whose last pair is worth least, where there is a list.
pub(crate) fn least_place(labels: &Labels) -> Option<usize>
    requires { (i : ℕ) → i < length labels.now.lists → 0 < length (list_at labels.now.lists i) }
    ensures { MatchOption result (length labels.now.lists ≡ 0) (IsLeastPlace labels.now) }
{
    (0..labels.len()).min_by_key(|place| labels.value(*place))
}

// Writes the order of a legal prefix that ends in this window of the last stage and lands with the last pair of its list.
pub(crate) fn trace<const W: usize>(
    problem: &Problem,
    kept: &[LabelledStage<W>],
    place: usize,
    order: &mut [u8],
)
    requires width { W ≡ 2 * problem.now.k + 1 }
    requires held { AreStages problem.now kept.now }
    requires whole { length kept.now ≡ length problem.now.flights + 1 }
    requires within { place < length (stage_at kept.now (length problem.now.flights)).stage.1 }
    requires room { length order.old ≡ length problem.now.flights }
    ensures room { length order.new ≡ length order.old }
    ensures lands { LandsWithPair problem.now order.new
        (last_pair (list_at (stage_at kept.now (length problem.now.flights)).labels.lists
        place)) }
{
    let n = problem.len() as usize;
    prefix_laws::<W>(problem);
    window_laws::<W>();
    let last = &kept[n];
    let mut place = place;
    let mut index = last.labels.count(place) - 1;
    for i in (0..n).rev() {
        let earlier = &kept[i];
        let later = &kept[i + 1];
        let node = later.stage.node(place);
        let pair = later.labels.pair(place, index);
        (place, index) = earlier.labels.source(problem, &earlier.stage, &node, pair);
        order[i] = last_rank(&node, later.stage.number());
    }
}
