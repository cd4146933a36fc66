//! Which windows of a stage lead to each window of the next, found once and kept with the windows.

ghost use Rattle.std.specs.Prelude.{◌≡◌, IfOk};
ghost use Rattle.cps_network.specs.Links.{AreLinks};

use crate::stage::Stage;
use cps_nodes::Window;
use std::alloc::{AllocError, Global};
use std::marker::Model;
use std::sync::Arc;

/// The links from the windows of one list to those of another: half-open ranges of windows of the first that share a tail, and
/// for each window of the second the place, among the ranges, of the one whose windows lead to it. They speak of these two
/// lists alone, which contracts see too.
#[derive(Drop)]
pub struct Links<const W: usize> {
    origin: Arc<Vec<Window<W>>, Global>,
    target: Arc<Vec<Window<W>>, Global>,
    ranges: Vec<(u32, u32)>,
    places: Vec<u32>,
}

impl<const W: usize> Model for Links<W> {
    ghost use Rattle.std.specs.Arc.{arc_value};
    ghost use Rattle.cps_network.specs.Links as links;
    ghost use Rattle.cps_network.specs.Links.{AreLinks};

    ghost Value = { links.Links };

    ghost view = { λ l. record {
      origin = (arc_value l.origin).items;
      target = (arc_value l.target).items;
      ranges = l.ranges.items;
      places = l.places.items;
    } };

    ghost invariant = { λ l. AreLinks (record {
      origin = (arc_value l.origin).items;
      target = (arc_value l.target).items;
      ranges = l.ranges.items;
      places = l.places.items;
    }) };
}

impl<const W: usize> Links<W> {
    // The links from the windows of a stage to those of another, by these ranges and places.
    pub(crate) fn of(
        before: &Stage<W>,
        after: &Stage<W>,
        ranges: Vec<(u32, u32)>,
        places: Vec<u32>,
    ) -> Result<Links<W>, AllocError>
        requires { AreLinks (record {
          origin = before.now.1;
          target = after.now.1;
          ranges = ranges.items;
          places = places.items;
        }) }
        ensures { IfOk result (λ links. (links.origin ≡ before.now.1) × (links.target ≡ after.now.1)) }
    {
        let origin = before.shared_windows()?;
        let target = after.shared_windows()?;
        Ok(Links {
            origin,
            target,
            ranges,
            places,
        })
    }

    // The windows from which the links lead.
    pub(crate) fn origin(&self) -> &[Window<W>]
        ensures { result.now ≡ self.now.origin }
    {
        self.origin.as_slice()
    }

    /// The half-open ranges of the windows that share a tail, by their places in the first list.
    pub fn ranges(&self) -> &[(u32, u32)]
        ensures value { result.now ≡ self.now.ranges }
        ensures links { AreLinks self.now }
    {
        self.ranges.as_slice()
    }

    /// For each window of the second list the place, among the ranges, of the one whose windows lead to it.
    pub fn places(&self) -> &[u32]
        ensures value { result.now ≡ self.now.places }
        ensures links { AreLinks self.now }
    {
        self.places.as_slice()
    }
}
