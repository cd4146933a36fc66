use flight_file::{print_flights, read_flights};
use std::alloc::Global;
use std::test::Fail;
use traffic_gen::generate;
use wake_table::{CATEGORIES, CATEGORY_COUNT, Category};

#[test]
fn the_aerodrome_of_seed_0(rt: HostRuntime) -> Result<(), Fail> {
    let (aerodrome, _) = generate(rt.alloc(), 0, 1, 0)?.into_parts();
    let sep = aerodrome.table.sep(Category::A, Category::F);
    assert_eq!(rt;
        (aerodrome.k, aerodrome.freeze, sep, aerodrome.closures.len()),
        (0, 0, 180, 0)
    );
    Ok(())
}

#[test]
fn the_first_estimate_of_seed_0(rt: HostRuntime) -> Result<(), Fail> {
    let (_, flights) = generate(rt.alloc(), 0, 1, 0)?.into_parts();
    assert_eq!(rt; flights.len(), 1);
    let first = flights.first().ok_or("no flight")?;
    assert_eq!(rt; (first.eta, first.weight, first.after.len()), (3707, 3, 0));
    assert_eq!(rt;
        (first.callsign.bytes(), first.windows.spans()),
        (b"T001".as_slice(), [(3707, 10906)].as_slice())
    );
    Ok(())
}

// The draws of the categories of seed 7, before they are cut to the number of the categories.
const DRAWS: [usize; 40] = [
    2052263231, 572045545, 691615764, 903112195, 1364743280, 1916433405, 2061473951, 1346905654,
    1714798704, 642109893, 348975517, 1573350173, 29865307, 198072445, 1632991010, 1198084704,
    320348490, 1423097357, 140699851, 1338326706, 1114044133, 920731355, 24405683, 508842921,
    1340235523, 1879835718, 200887734, 1254356576, 1551854399, 1794840239, 1175177121, 1904021848,
    370762476, 1036807616, 49889372, 167469555, 1804045271, 1578488628, 707308254, 950787110,
];

#[test]
fn the_categories_of_seed_7(rt: HostRuntime) -> Result<(), Fail> {
    let (_, flights) = generate(rt.alloc(), 7, 40, 3)?.into_parts();
    assert_eq!(rt; flights.len(), DRAWS.len());
    for i in 0..DRAWS.len() {
        assert_eq!(rt; flights[i].category, CATEGORIES[DRAWS[i] % CATEGORY_COUNT]);
    }
    Ok(())
}

#[test]
fn the_last_flight_of_seed_7(rt: HostRuntime) -> Result<(), Fail> {
    let (_, flights) = generate(rt.alloc(), 7, 40, 3)?.into_parts();
    let last = flights.last().ok_or("no flight")?;
    assert_eq!(rt;
        (last.callsign.bytes(), last.eta, last.weight),
        (b"T040".as_slice(), 7229, 3)
    );
    Ok(())
}

// An ordinary bank of arrivals.
const BANK: &str = "callsign,category,eta,weight,windows,after
UAE7,A,36000,5,36000-37800,
EZY81,D,36040,2,36040-37840,
DLH400,B,36090,3,36090-37890,
NJE5,F,36130,1,36130-37930,
BEL3,E,36160,2,36160-37960,
";

// The bank as it is printed once it is read.
fn printed(alloc: Global) -> Result<Vec<u8>, Fail> {
    let flights = read_flights(alloc, BANK.as_bytes())?;
    let mut text = Vec::new(alloc);
    print_flights(flights.as_slice(), &mut text)?;
    Ok(text)
}

#[test]
fn an_ordinary_bank_is_read_and_printed_as_it_was(rt: HostRuntime) -> Result<(), Fail> {
    let text = printed(rt.alloc())?;
    assert!(rt; text.as_slice() == BANK.as_bytes());
    Ok(())
}

#[test]
fn a_flight_of_an_ordinary_bank_is_copied(rt: HostRuntime) -> Result<(), Fail> {
    let flights = read_flights(rt.alloc(), BANK.as_bytes())?;
    assert!(rt; flights.len() == 5);
    let copy = flights[2].copy();
    assert_eq!(rt;
        (copy.callsign.bytes(), copy.eta, copy.after.len()),
        (b"DLH400".as_slice(), 36090, 0)
    );
    Ok(())
}
