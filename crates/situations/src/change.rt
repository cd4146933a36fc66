// What an accepted event makes of a situation.
ghost use Rattle.std.specs.Prelude.{◌≡◌, ◌+◌, ◌<◌, ◌≤◌, ◌++◌, [], ◌∷◌, false, not, None, filter, length, option_map, IfSome, IfOk, OnOk};
ghost use Rattle.std.specs.List.{list_any};
ghost use Rattle.landing_rules.specs.Events.{named, newcomer, without_first, same_span, refusal, situation_after};
ghost use Rattle.cps_base.specs.Limits.{most_closures};
ghost use Rattle.landing_rules.specs.Sound.{IsGoodEvent};
ghost use Rattle.arrivals.specs.Seen.{event_of, flight_of};
ghost use Rattle.landing_rules.specs.Rules.{last_second};

use crate::{Active, Situation};
use arrivals::{Event, Flight};
use cps_base::Callsign;
use std::alloc::{AllocError, Global};

impl Situation {
    // A copy.
    fn copy(&self) -> Result<Situation, AllocError>
        ensures { IfOk result (λ copy. copy ≡ self.now) }
    {
        let active = self.active.clone()?;
        Ok(Situation {
            fixed: self.fixed,
            active,
            closures: self.closures,
            clock: self.clock,
        })
    }

    // The flight of the callsign is active no more.
    fn cancel(&mut self, callsign: Callsign)
        ensures { self.new ≡ record self.old {
          active = filter (λ a. not (named callsign a))
              self.old.active;
        } }
    {
        // No callsign stands twice.
        self.known_apart();
        self.active.shift_remove(&callsign);
    }

    // The flight is the last to arrive, and waits. None has passed it.
    fn add(&mut self, flight: &Flight) -> Result<(), AllocError>
        requires { list_any (named flight.now.callsign) self.old.active ≡ false }
        ensures { OnOk result (self.new ≡ record self.old {
          active = self.old.active ++ newcomer
              (flight_of flight.now) ∷ [];
        }) }
    {
        self.active
            .insert(flight.callsign, Active::waiting(flight))?;
        Ok(())
    }

    // The closure stands.
    fn close(&mut self, from: u32, to: u32)
        requires good { (from < to) × (to ≤ last_second + 1) }
        requires room { length self.old.closures < most_closures }
        ensures { self.new ≡ record self.old { closures = self.old.closures ++ (from, to) ∷ [] } }
    {
        let _ = self.closures.add(from, to);
    }

    // The first equal closure stands no more.
    fn reopen(&mut self, from: u32, to: u32)
        ensures { self.new ≡ record self.old {
          closures = without_first (same_span (from, to))
              self.old.closures;
        } }
    {
        self.closures.remove(from, to);
    }

    // Changes it by an accepted event.
    fn change(
        &mut self,
        alloc: Global,
        plan: Option<&[u32]>,
        event: &Event,
    ) -> Result<(), AllocError>
        requires whole { IfSome plan (λ p. length p.now ≡ length self.old.active) }
        requires good { IsGoodEvent (event_of event.now) }
        requires accepted { refusal self.old (event_of event.now) ≡ None }
        ensures { OnOk result (self.new ≡ situation_after self.old (option_map (λ p. p.now) plan.entry)
            (event_of event.now)) }
    {
        match event {
            Event::Revise(callsign, revision) => self.revise(*callsign, revision),
            Event::Cancel(callsign) => self.cancel(*callsign),
            Event::Add(flight) => self.add(flight)?,
            Event::Close(from, to) => self.close(*from, *to),
            Event::Reopen(from, to) => self.reopen(*from, *to),
            Event::Clock(now) => self.set_time(alloc, *now, plan)?,
        }
        Ok(())
    }

    /// The situation after an accepted event. The plan shown, if one is, lands each flight at a second, in order of arrival; a
    /// clock event freezes by it.
    pub fn after(
        &self,
        alloc: Global,
        plan: Option<&[u32]>,
        event: &Event,
    ) -> Result<Situation, AllocError>
        requires whole { IfSome plan (λ p. length p.now ≡ length self.now.active) }
        requires good { IsGoodEvent (event_of event.now) }
        requires accepted { refusal self.now (event_of event.now) ≡ None }
        ensures { IfOk result (λ next. next ≡ situation_after self.now
            (option_map (λ p. p.now) plan.entry) (event_of event.now)) }
    {
        let mut next = self.copy()?;
        next.change(alloc, plan, event)?;
        Ok(next)
    }
}
