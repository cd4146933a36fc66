//! A column of labels.

ghost use Rattle.std.specs.Prelude.{◌≡◌, ℕ, ◌<◌, List, [], ◌∷◌, All, length, replicate, slice_index, IfOk, OnOk, OnErr};
ghost use Rattle.cps_nodes.specs.Windows.{IsWidth};
ghost use Rattle.landing_rules.specs.Problem.{Problem};
ghost use Rattle.cps_network.specs.Landable.{HasEachLandable};
ghost use Rattle.makespan_labels.specs.Columns.{IsEntry, is_known, known_of};
ghost use Rattle.makespan_labels.specs.Labels.{no_label, AreLabels, HoldsLabels};

use cps_network::Stage;
use std::alloc::{AllocError, Global};
use std::marker::Model;

/// The label of a window that is not landable.
pub const NO_LABEL: u32 = u32::MAX;

/// The labels of the windows of a stage, in the order of its windows: seconds from 0 to 172,799, and `NO_LABEL`.
#[derive(Drop)]
pub struct Column {
    pub(crate) entries: Vec<u32>,
}

impl Model for Column {
    ghost use Rattle.std.specs.Prelude.{ℕ, List, All};
    ghost use Rattle.makespan_labels.specs.Columns.{IsEntry};

    ghost Value = { List ℕ };

    ghost view = { λ column. column.entries.items };

    ghost invariant = { λ column. All IsEntry column.entries.items };
}

// As many entries of one label.
fn entries_of(alloc: Global, label: u32, n: usize) -> Result<Vec<u32>, AllocError>
    ensures { IfOk result (λ entries. entries.items ≡ replicate n label) }
{
    let entries = vec![in alloc; label; n]?;
    Ok(entries)
}

impl Column {
    /// The column with no entry.
    pub fn new(alloc: Global) -> Column
        ensures { result ≡ [] }
    {
        Column {
            entries: Vec::new(alloc),
        }
    }

    /// The column of stage 0: the one entry 0, which no rule reads as a landing.
    pub fn start(alloc: Global) -> Result<Column, AllocError>
        ensures { IfOk result (λ column. column ≡ 0 ∷ []) }
    {
        let entries = entries_of(alloc, 0, 1)?;
        Ok(Column { entries })
    }

    /// Makes it n entries of `NO_LABEL`. After want of memory it is as it was.
    pub fn reserve(&mut self, n: usize) -> Result<(), AllocError>
        ensures made { OnOk result (self.new ≡ replicate n no_label) }
        ensures kept { OnErr result (self.new ≡ self.old) }
    {
        let alloc = *self.entries.allocator();
        self.entries = entries_of(alloc, NO_LABEL, n)?;
        Ok(())
    }

    /// How many entries it has.
    pub fn len(&self) -> usize
        ensures { result ≡ length self.now }
    {
        self.entries.len()
    }

    /// The entry at place i, counted from 0.
    pub fn label(&self, i: usize) -> u32
        requires { i < length self.now }
        ensures value { result ≡ slice_index self.now i }
        ensures range { IsEntry result }
    {
        self.entries[i]
    }

    /// Keeps the windows and the labels at the places whose label is not `NO_LABEL`, in order. It takes no memory.
    pub fn keep_landable<const W: usize>(&mut self, stage: &mut Stage<W>)
        requires width { IsWidth W }
        requires one_each { length self.old ≡ length stage.old.1 }
        ensures number { stage.new.0 ≡ stage.old.0 }
        ensures windows { stage.new.1 ≡ known_of self.old stage.old.1 }
        ensures labels { self.new ≡ known_of self.old self.old }

        // What is left are the landable windows, where none was missing.
        ensures landable { (p : Problem) → HasEachLandable p stage.old
            → AreLabels p stage.old self.old → HoldsLabels p stage.new self.new }
    {
        stage.compact(
            &mut self.entries,
            |label: &u32|
                ensures { result ≡ is_known label.now }
            { *label != NO_LABEL },
        );
    }
}
