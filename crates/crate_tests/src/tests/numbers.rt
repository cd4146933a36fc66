use cps_base::{Callsign, Counted, NumberFault, Silent, Steps, read_number};

// Whether a text is the callsign of its bytes, and none where it is no callsign.
fn is_kept(text: &str) -> Option<bool> {
    let callsign = Callsign::read(text.as_bytes())?;
    Some(callsign.bytes() == text.as_bytes())
}

const CALLSIGNS: [(&str, Option<bool>); 11] = [
    ("A1", Some(true)),
    ("F1", Some(true)),
    ("UAE7", Some(true)),
    ("DLH400", Some(true)),
    ("12345678", Some(true)),
    ("", None),
    ("A", None),
    ("a1", None),
    ("A-1", None),
    ("A 1", None),
    ("ABCDEFGHI", None),
];

#[test]
fn callsigns_are_two_to_eight_capital_letters_and_digits(rt: HostRuntime) {
    for (text, kept) in CALLSIGNS {
        assert!(rt; is_kept(text) == kept, "{text}");
    }
    assert!(rt; Callsign::read(b"A9") < Callsign::read(b"F9"));
}

const OVERLONG: &str = "340282366920938463463374607431768211457";

const NUMBERS: [(&str, Result<u64, NumberFault>); 9] = [
    ("1000", Ok(1000)),
    ("0", Ok(0)),
    ("172799", Ok(172799)),
    ("172800", Err(NumberFault::Above)),
    (OVERLONG, Err(NumberFault::Above)),
    ("01000", Err(NumberFault::NotNumber)),
    ("", Err(NumberFault::NotNumber)),
    ("-1", Err(NumberFault::NotNumber)),
    ("1e3", Err(NumberFault::NotNumber)),
];

#[test]
fn numbers_of_a_range_and_the_faults_of_other_texts(rt: HostRuntime) {
    for (text, read) in NUMBERS {
        assert!(rt; read_number(text.as_bytes(), 0, 172_799) == read, "{text}");
    }
    assert!(rt; read_number(b"0", 1, 100) == Err(NumberFault::Below));
}

#[test]
fn steps_are_counted_up_to_the_last_value(rt: HostRuntime) {
    let mut steps = Steps::new(Counted::new());
    steps.tick(8);
    steps.tick(10);
    assert!(rt; steps.ledger().value() == 18);
    steps.tick(u64::MAX);
    assert!(rt; steps.ledger().value() == u64::MAX);
    Steps::new(Silent).tick(1);
}
