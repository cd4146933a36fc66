ghost use Rattle.std.specs.Prelude.{pos, ◌+ℤ◌, ◌≤ℤ◌};

use cps_nodes::Window;

fn extended(window: Option<Window<3>>, offset: i8) -> Option<Window<3>> {
    if offset < -1 || offset > 1 {
        return None;
    }
    window?.extend(offset)
}

fn offsets(window: &Window<3>) -> (i8, i8, i8) {
    (window.offset(0), window.offset(1), window.last())
}

// Whether each of the ranks 0 to 4 is placed when a stage is done.
fn placed(window: &Window<3>, stage: i32) -> (bool, bool, bool, bool, bool)
    requires { (pos 0 ≤ℤ (stage +ℤ pos 10)) × (stage ≤ℤ pos 100) }
{
    (
        window.placed(0, stage),
        window.placed(1, stage),
        window.placed(2, stage),
        window.placed(3, stage),
        window.placed(4, stage),
    )
}

// The window of rank 2 alone.
fn of_rank_2() -> Option<Window<3>> {
    extended(Some(Window::source()), 1)
}

#[test]
fn a_repeat_and_a_missing_due_flight_are_refused(rt: HostRuntime) {
    assert!(rt; extended(of_rank_2(), 0).is_none(), "rank 2 is repeated");
    assert!(rt; extended(of_rank_2(), 1).is_none(), "rank 1 is due");

    // Ranks 1 and 2 have changed places.
    let second = extended(of_rank_2(), -1).expect(&rt, "rank 1 may land second");
    assert_eq!(rt; offsets(&second), (0, 1, -1));
    assert_eq!(rt; placed(&second, 2), (true, true, true, false, false));
    let third = extended(Some(second), 1).expect(&rt, "rank 2 is due and there");
    assert_eq!(rt; placed(&third, 3), (true, true, true, false, true));
}

#[test]
fn the_first_offset_decides_last(rt: HostRuntime) {
    let source: Window<3> = Window::source();
    let straight = extended(Some(source), 0).expect(&rt, "rank 1 may land first");
    let early = extended(Some(source), 1).expect(&rt, "rank 2 may land first");
    let third = extended(extended(Some(early), -1), 1).expect(&rt, "rank 4 may land third");
    assert!(rt; source == straight && straight < early && third < straight);
    assert!(rt; source.leads_to(&early) && !early.leads_to(&straight));
}
