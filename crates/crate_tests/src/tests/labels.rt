// The windows that have no label are left out of a stage; those that have a pair stay.
ghost use Rattle.std.specs.Prelude.{◌≡◌, length};

use super::assert_send_sync;
use cps_network::Stage;
use delay_labels::Costs;
use makespan_labels::{Column, NO_LABEL};
use std::alloc::{AllocError, Global};
use std::test::Fail;

// How many labels and how many windows are left of a label and the first stage.
fn left_of_labels(alloc: Global, column: &mut Column) -> Result<(usize, usize), AllocError>
    requires { length column.old ≡ 1 }
{
    let mut stage: Stage<3> = Stage::start(alloc)?;
    column.keep_landable(&mut stage);
    Ok((column.len(), stage.len()))
}

#[test]
fn windows_without_a_label_are_left_out(rt: HostRuntime) -> Result<(), Fail> {
    let mut column = Column::start(rt.alloc())?;
    assert_send_sync(&column);
    assert_eq!(rt; (column.len(), column.label(0)), (1, 0));
    assert_eq!(rt; left_of_labels(rt.alloc(), &mut column)?, (1, 1));

    column.reserve(1)?;
    assert_eq!(rt; column.label(0), NO_LABEL);
    assert_eq!(rt; left_of_labels(rt.alloc(), &mut column)?, (0, 0));
    Ok(())
}

// How many lists of pairs and how many windows are left of a list and the first stage.
fn left_of_costs(alloc: Global, costs: &mut Costs) -> Result<(usize, usize), AllocError>
    requires { length costs.old ≡ 1 }
{
    let mut stage: Stage<3> = Stage::start(alloc)?;
    costs.keep_landable(&mut stage);
    Ok((costs.len(), stage.len()))
}

#[test]
fn windows_with_a_pair_are_kept(rt: HostRuntime) -> Result<(), Fail> {
    let mut costs = Costs::start(rt.alloc())?;
    assert_send_sync(&costs);
    assert_eq!(rt;
        (costs.len(), costs.count(0), costs.pair(0, 0)),
        (1, 1, (0, 0))
    );
    assert_eq!(rt; left_of_costs(rt.alloc(), &mut costs)?, (1, 1));
    Ok(())
}
