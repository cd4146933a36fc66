use cps_base::{Callsign, MOST_WAITING};
use fcfs_order::Order;
use std::alloc::Global;
use std::test::Fail;

fn callsign(name: &str) -> Result<Callsign, Fail> {
    Ok(Callsign::read(name.as_bytes()).ok_or("not a callsign")?)
}

// Adds a flight that the order has not yet.
fn add(order: &mut Order, eta: u32, name: &str) -> Result<(), Fail> {
    let flight = callsign(name)?;
    if order.rank_of(eta, flight).is_some() || order.len() >= MOST_WAITING {
        return Err(Fail::new("in the order, or one too many"));
    }
    order.insert(eta, flight)?;
    Ok(())
}

// The order of three flights, of which two have one estimate.
fn three(alloc: Global) -> Result<Order, Fail> {
    let mut order = Order::new(alloc);
    add(&mut order, 1000, "F9")?;
    add(&mut order, 1010, "B1")?;
    add(&mut order, 1000, "A9")?;
    Ok(order)
}

fn rank_of(order: &Order, eta: u32, name: &str) -> Option<u8> {
    order.rank_of(eta, Callsign::read(name.as_bytes())?)
}

// Whether a flight is the first of three.
fn is_first_of_three(order: &Order, eta: u32, flight: Callsign) -> bool {
    order.len() == 3 && order.at(1) == (eta, flight)
}

const RANKS: [(u32, &str, Option<u8>); 4] = [
    (1000, "A9", Some(1)),
    (1000, "F9", Some(2)),
    (1010, "B1", Some(3)),
    (1001, "F9", None),
];

#[test]
fn callsigns_decide_between_equal_estimates(rt: HostRuntime) -> Result<(), Fail> {
    let mut order = three(rt.alloc())?;
    for (eta, name, rank) in RANKS {
        assert_eq!(rt; rank_of(&order, eta, name), rank, "{name}");
    }
    let first = callsign("A9")?;
    assert!(rt; is_first_of_three(&order, 1000, first));
    assert!(rt; order.remove(1000, first) && !order.remove(1000, first));
    let kept = order.copy()?;
    assert!(rt; kept.len() == 2 && !kept.is_empty());
    Ok(())
}
