// The flights that a state makes.
ghost use Rattle.std.specs.Prelude.{◌≡◌, ◌+◌, ◌<◌, ◌≤◌, IfOk};
ghost use Rattle.cps_base.specs.Limits.{most_waiting};
ghost use Rattle.wake_table.specs.Letters.{category_count};
ghost use Rattle.traffic_gen.specs.Draws.{next, drawn};
ghost use Rattle.traffic_gen.specs.Flights.{callsign, category_at, window_from, flight, flights_from};

use crate::draws::{drawn, next};
use arrivals::{After, Flight};
use cps_base::Callsign;
use landing_windows::WindowSet;
use std::alloc::{AllocError, Global};
use wake_table::{CATEGORIES, CATEGORY_COUNT, Category};

// `T` and the number in three digits.
#[tactic(auto, unfolding(crate::specs::Flights::callsign))]
fn callsign(number: u8) -> Callsign
    ensures { result ≡ callsign number }
{
    let text = [
        b'T',
        b'0' + number / 100 % 10,
        b'0' + number / 10 % 10,
        b'0' + number % 10,
    ];
    match Callsign::read(&text) {
        Some(name) => name,
        None => unreachable!(),
    }
}

// The category at this place in letter order.
#[tactic(auto, unfolding(crate::specs::Flights::category_at))]
fn category_at(place: u64) -> Category
    requires { place < category_count }
    ensures { result ≡ category_at place }
{
    CATEGORIES[place as usize]
}

// One window of two hours, from the estimated second on.
#[tactic(auto, using(crate::proofs::Windows::one_window))]
fn window_from(alloc: Global, eta: u32) -> WindowSet
    requires { eta ≤ 100000 }
    ensures { result ≡ window_from eta }
{
    match WindowSet::new(alloc, &[(eta, eta + 7199)]) {
        Ok(windows) => windows,
        Err(_) => unreachable!(),
    }
}

// The flight of this number, behind one that is due at second `before`.
#[tactic(auto, unfolding(crate::specs::Flights::flight))]
fn flight(alloc: Global, number: u8, before: u32, state: u64) -> Flight
    requires { before ≤ 90000 }
    ensures value { result ≡ flight number before state }
    ensures eta { result.eta ≡ before + 60 + drawn 60 (next state) }
    ensures spacing { result.eta ≤ before + 119 }
{
    let spaced = next(state);
    let lettered = next(spaced);
    let weighed = next(lettered);
    let callsign = callsign(number);
    let eta = before + 60 + drawn(60, spaced) as u32;
    Flight {
        callsign,
        category: category_at(drawn(CATEGORY_COUNT as u64, lettered)),
        eta,
        weight: 1 + drawn(5, weighed) as u32,
        windows: window_from(alloc, eta),
        after: After::new(alloc),
    }
}

// So many flights, the first behind second 3600.
#[tactic(auto, unfolding(crate::specs::Flights::flights_from))]
pub(crate) fn flights(alloc: Global, seed: u64, n: u8) -> Result<Vec<Flight>, AllocError>
    requires { n ≤ most_waiting }
    ensures { IfOk result (λ v. v.items ≡ flights_from n 1 3600 seed) }
{
    let mut flights = Vec::new(alloc);
    let mut before = 3600;
    let mut state = seed;
    for made in 0..n {
        let flight = flight(alloc, made + 1, before, state);
        before = flight.eta;
        state = next(next(next(state)));
        flights.push(flight)?;
    }
    Ok(flights)
}
