use super::assert_send_sync;
use precedence::Pairs;

// Two flights before the last one.
fn two_pairs() -> Pairs {
    let mut pairs = Pairs::new();
    pairs.add(1, 40);
    pairs.add(39, 40);
    pairs
}

#[test]
fn a_pair_holds_one_way(rt: HostRuntime) {
    let pairs = two_pairs();
    assert_send_sync(&pairs);
    let kept = pairs;
    assert!(rt; Pairs::new() == Pairs::new() && kept == pairs && kept != Pairs::new());
    for (first, next, want) in [
        (1, 40, true),
        (40, 1, false),
        (1, 39, false),
        (39, 40, true),
    ] {
        assert_eq!(rt;
            pairs.must_precede(first, next),
            want,
            "{first} before {next}"
        );
    }
}

#[test]
fn all_before_are_asked_at_once(rt: HostRuntime) {
    let pairs = two_pairs();
    for (next, placed, want) in [
        (40, 1 << 1, false),
        (40, 1 << 1 | 1 << 39, true),
        (40, u64::MAX, true),
        (1, 0, true),
    ] {
        assert_eq!(rt;
            pairs.all_before(next, placed),
            want,
            "{placed} before {next}"
        );
    }
}
