//! The mathematics of arrival sequencing under constrained position shifting, over plain lists and abstract functions.
//! No code: definitions, and laws for the layers above, each stated once.
//!
//! A crate above cites a law in one of two ways:
//! - in its own definitions and proofs, by the lemma's name below `Rattle.cps_theory.specs.laws`, as
//!   `use Rattle.cps_theory.specs.laws.LeastObjective.{next_later}`; nothing of `proofs/` is to be named;
//! - in code, by a call of the public function without a body that pins it, whose clauses its proof then has.
//!
//! The words: a *rank* is a flight's place in the first-come-first-served order, from 1; a *landing* is a rank with its
//! second; a *landing trail* is a list of landings, the latest first, so that the head's place is the list's length;
//! rank 0 is the start. `k` is the greatest shift, `g.most`; a flight of rank r goes back by `g.back r` places at most.
#![tactic(auto)]

pub mod best_schedules;
pub mod certificates;
pub mod freezing;
pub mod labels;
pub mod legal_prefixes;
pub mod order_loops;
pub mod retiming;
pub mod separation;
pub mod situations;
