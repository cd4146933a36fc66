//! The least second and the least cost of the pairs of each node of a stage.

ghost use Rattle.std.specs.Prelude.{◌≡◌, ◌<◌, ◌≤◌, length, map, IfOk};
ghost use Rattle.landing_rules.specs.Rules.{last_second};
ghost use Rattle.cps_network.specs.Pairs.{list_at};
ghost use Rattle.makespan_labels.specs.LabelPairs.{column_pairs};
ghost use Rattle.replan.specs.WindowNodes.{extremes, lesser, AreInDays, AreLeastOf, AreLeastUpto, HaveLeast};

use crate::labels::Labels;
use crate::window_nodes::WindowNodes;
use makespan_labels::Column;
use std::alloc::{AllocError, Global};

// The lesser second and the lesser cost.
#[inline]
fn lesser(a: (u32, u32), b: (u32, u32)) -> (u32, u32)
    ensures { result ≡ lesser a b }
{
    (a.0.min(b.0), a.1.min(b.1))
}

// Those of the first window of each node.
fn first_extremes(
    alloc: Global,
    labels: &Labels,
    nodes: &WindowNodes,
) -> Result<Vec<(u32, u32)>, AllocError>
    requires { HaveLeast labels.now.lists nodes.now }
    ensures first { IfOk result (λ least. least.items
        ≡ map (λ i. extremes (list_at labels.now.lists i)) nodes.now.firsts) }
    ensures in_days { IfOk result (λ least. AreInDays least.items) }
{
    let firsts = nodes.firsts();
    let mut least = Vec::with_capacity(alloc, firsts.len())?;
    for first in firsts {
        least.push(labels.extremes(*first))?;
    }
    Ok(least)
}

// Lowers those of each node to what its windows have.
fn lower_to_pairs(labels: &Labels, nodes: &WindowNodes, least: &mut [(u32, u32)])
    requires some { HaveLeast labels.now.lists nodes.now }
    requires begun { AreLeastUpto labels.now.lists nodes.now.places nodes.now.firsts 0 least.old }
    requires in_days { AreInDays least.old }
    ensures least { AreLeastUpto labels.now.lists nodes.now.places nodes.now.firsts
        (length nodes.now.places) least.new }
    ensures in_days { AreInDays least.new }
{
    let places = nodes.places();
    for i in 0..places.len() {
        let place = places[i];
        let before = least[place];
        least[place] = lesser(before, labels.extremes(i));
    }
}

// The same for the makespan, by the labels. Few of them lower what is least so far, so a test costs less than a write.
fn lower_to_labels(column: &Column, nodes: &WindowNodes, least: &mut [(u32, u32)])
    requires some { HaveLeast (column_pairs column.now) nodes.now }
    requires begun { AreLeastUpto (column_pairs column.now) nodes.now.places nodes.now.firsts 0
        least.old }
    requires in_days { AreInDays least.old }
    ensures least { AreLeastUpto (column_pairs column.now) nodes.now.places nodes.now.firsts
        (length nodes.now.places) least.new }
    ensures in_days { AreInDays least.new }
{
    let places = nodes.places();
    for i in 0..places.len() {
        let place = places[i];
        let label = column.label(i);
        if label >= least[place].0 {
            continue;
        }
        least[place] = (label, 0);
    }
}

/// For each node the least second and the least cost of the pairs of its windows.
pub(crate) fn least_pairs(
    alloc: Global,
    labels: &Labels,
    nodes: &WindowNodes,
) -> Result<Vec<(u32, u32)>, AllocError>
    requires { HaveLeast labels.now.lists nodes.now }
    ensures least { IfOk result (λ least. AreLeastOf labels.now.lists nodes.now least.items) }
    ensures in_days { IfOk result (λ least. AreInDays least.items) }
{
    let mut least = first_extremes(alloc, labels, nodes)?;
    if let Some(column) = labels.column() {
        lower_to_labels(column, nodes, least.as_mut_slice());
        return Ok(least);
    }
    lower_to_pairs(labels, nodes, least.as_mut_slice());
    Ok(least)
}
