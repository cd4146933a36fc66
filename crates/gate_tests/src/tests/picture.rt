// What there is to see of a situation.
use cps_base::Callsign;
use situations::{Active, Situation};
use std::alloc::{AllocError, Global};
use std::test::Fail;

// A flight's callsign, estimated second, frozen second and count of those that passed it.
type Line = (Callsign, u32, Option<u32>, u8);

// The line of a flight.
fn line_of(active: &Active) -> Line {
    (
        active.flight.callsign,
        active.flight.eta,
        active.frozen,
        active.passed,
    )
}

/// The flights in order of arrival, then the windows of each and the closures, and the horizon.
#[derive(Drop)]
pub(super) struct Picture {
    lines: Vec<Line>,
    spans: Vec<(u32, u32)>,
    horizon: u32,
}

/// The picture of a situation.
pub(super) fn picture_of(alloc: Global, situation: &Situation) -> Result<Picture, AllocError> {
    let lines = situation.flights().iter().map(line_of).collect(alloc)?;
    let mut spans = Vec::new(alloc);
    for active in situation.flights() {
        spans.extend_from_slice(active.flight.windows.spans())?;
    }
    spans.extend_from_slice(situation.closures().pairs())?;
    Ok(Picture {
        lines,
        spans,
        horizon: situation.horizon(),
    })
}

impl Picture {
    /// Whether nothing differs.
    pub(super) fn is(&self, other: &Picture) -> bool {
        self.lines == other.lines && self.spans == other.spans && self.horizon == other.horizon
    }

    /// Whether these flights stand there, and no closure, with this horizon.
    pub(super) fn shows(&self, lines: &[Line], spans: &[(u32, u32)], horizon: u32) -> bool {
        self.lines.as_slice() == lines && self.spans.as_slice() == spans && self.horizon == horizon
    }
}

// The callsign of these bytes.
fn callsign(text: &[u8]) -> Result<Callsign, Fail> {
    Ok(Callsign::read(text).ok_or("no callsign")?)
}

/// Whether this is how the day ends.
pub(super) fn is_last(picture: &Picture) -> Result<bool, Fail> {
    let lines = [
        (callsign(b"A1")?, 1000u32, None, 1u8),
        (callsign(b"F1")?, 1030, Some(1030u32), 0),
        (callsign(b"E9")?, 5000, None, 0),
    ];
    let spans = [(1000u32, 2000u32), (1030, 2000), (5000, 6000)];
    Ok(picture.shows(&lines, &spans, 1050))
}
