//! A stage: its number, and its windows in ascending order.

ghost use Rattle.std.specs.Prelude.{◌≡◌, ℕ, ℤ, pos, ◌^◌, ◌<◌, ◌≤◌, ◌↔◌, List, [], ◌∷◌, Bool, length, replicate, IsTrue, IfOk, IfSome, vec_len};
ghost use Rattle.std.specs.Arc.{arc_value};
ghost use Rattle.std.specs.Fn.{FnReturnsAt};
ghost use Rattle.std.specs.List.{AllZip};
ghost use Rattle.cps_nodes.specs.Windows.{IsWidth, IsWindow};
ghost use Rattle.cps_network.specs.Compacted.{kept_where};
ghost use Rattle.cps_network.specs.Lists.{AreWindows, IsAscending, most_in_a_stage, node_at};

use crate::compact::{compact_all, copy_into_room, keeps_all, shared_copy};
use crate::links::Links;
use cps_nodes::{Window, window_laws};
use std::alloc::{AllocError, Global};
use std::marker::Model;
use std::sync::Arc;

/// The windows of a stage, in ascending order, none twice. The stage's number is that of the flights that have landed.
#[derive(Drop)]
pub struct Stage<const W: usize> {
    number: u8,
    // All windows that it was made with, a list that other stages may have too. None once some are left out.
    whole: Option<Arc<Vec<Window<W>>, Global>>,
    // The windows that are then left. Before that none, but room for all.
    left: Vec<Window<W>>,
    // The links from the windows of the stage before to these, where they are worth keeping.
    links: Option<Arc<Links<W>, Global>>,
}

impl<const W: usize> Model for Stage<W> {
    ghost use Rattle.std.specs.Prelude.{◌≡◌, ◌≤◌, ℕ, ℤ, List, [], length, vec_capacity, IfSome};
    ghost use Rattle.std.specs.Arc.{arc_value};
    ghost use Rattle.cps_network.specs.Compacted.{whole_or_left};
    ghost use Rattle.cps_network.specs.Lists.{IsAscending, AreWindows};

    ghost Value = { ℕ × List (List ℤ) };

    ghost view = { λ s. (s.number, whole_or_left s.whole (λ list. (arc_value list).items) s.left.items) };

    ghost invariant = { λ s. let windows = whole_or_left s.whole (λ list. (arc_value list).items) s.left.items in
        IsAscending windows × AreWindows W windows
        × IfSome s.whole (λ list. (s.left.items ≡ []) × (length (arc_value list).items ≤ vec_capacity s.left))
        × IfSome s.links (λ l. (arc_value l).target ≡ windows) };
}

impl<const W: usize> Stage<W> {
    /// Stage 0, which has the window before the first landing alone.
    pub fn start(alloc: Global) -> Result<Stage<W>, AllocError>
        requires { IsWidth W }
        ensures { IfOk result (λ s. s ≡ (0, replicate W (pos 0) ∷ [])) }
    {
        window_laws::<W>();
        let mut windows = Vec::new(alloc);
        windows.push(Window::source())?;
        let start = Stage::of(alloc, 0, windows)?;
        Ok(start)
    }

    // The stage of these windows.
    pub(crate) fn of(
        alloc: Global,
        number: u8,
        windows: Vec<Window<W>>,
    ) -> Result<Stage<W>, AllocError>
        requires ascending { IsAscending windows.items }
        requires valid { AreWindows W windows.items }
        ensures { IfOk result (λ s. s ≡ (number, windows.entry.items)) }
    {
        let list = Arc::new(alloc, windows)?;
        let stage = Stage::of_list(alloc, number, list, None)?;
        Ok(stage)
    }

    // The stage of the windows of a list, with these links, and with room for a list of its own.
    fn of_list(
        alloc: Global,
        number: u8,
        list: Arc<Vec<Window<W>>, Global>,
        links: Option<Arc<Links<W>, Global>>,
    ) -> Result<Stage<W>, AllocError>
        requires ascending { IsAscending (arc_value list).items }
        requires valid { AreWindows W (arc_value list).items }
        requires links { IfSome links (λ l. (arc_value l).target ≡ (arc_value list).items) }
        ensures { IfOk result (λ s. s ≡ (number, (arc_value list.entry).items)) }
    {
        let left = Vec::with_capacity(alloc, list.len())?;
        Ok(Stage {
            number,
            whole: Some(list),
            left,
            links,
        })
    }

    // The same stage, with these links.
    pub(crate) fn with_links(self, alloc: Global, links: Links<W>) -> Result<Stage<W>, AllocError>
        requires { links.target ≡ self.1 }
        ensures { IfOk result (λ s. s ≡ self.entry) }
    {
        let links = Arc::new(alloc, links)?;
        Ok(Stage {
            number: self.number,
            whole: self.whole,
            left: self.left,
            links: Some(links),
        })
    }

    // The windows in a list that stages may share: a copy of what is left, where some are left out.
    pub(crate) fn shared_windows(&self) -> Result<Arc<Vec<Window<W>>, Global>, AllocError>
        ensures { IfOk result (λ list. (arc_value list).items ≡ self.now.1) }
    {
        match &self.whole {
            Some(list) => {
                let list = Arc::try_clone(list)?;
                Ok(list)
            }
            None => {
                let list = shared_copy(&self.left)?;
                Ok(list)
            }
        }
    }

    // The links, which stages share.
    fn shared_links(&self) -> Result<Option<Arc<Links<W>, Global>>, AllocError>
        ensures { IfOk result (λ links. IfSome links (λ l. (arc_value l).target ≡ self.now.1)) }
    {
        match &self.links {
            None => Ok(None),
            Some(links) => {
                let links = Arc::try_clone(links)?;
                Ok(Some(links))
            }
        }
    }

    /// The links from the windows of a stage to those of this one, where they are kept.
    pub fn links(&self, before: &Stage<W>) -> Option<&Links<W>>
        ensures { IfSome result (λ l. (l.now.origin ≡ before.now.1) × (l.now.target ≡ self.now.1)) }
    {
        match &self.links {
            None => None,
            Some(links) => {
                if links.origin() == before.windows() {
                    Some(links)
                } else {
                    None
                }
            }
        }
    }

    /// How many flights have landed by this stage.
    pub fn number(&self) -> u8
        ensures { result ≡ self.now.0 }
    {
        self.number
    }

    /// How many windows the stage has: at most W to the power of W, which is 823,543 for the widest.
    pub fn len(&self) -> usize
        ensures value { result ≡ length self.now.1 }
        ensures few { length self.now.1 ≤ W ^ W }
        ensures below { length self.now.1 ≤ most_in_a_stage }
    {
        self.windows().len()
    }

    /// Whether the stage has no window.
    pub fn is_empty(&self) -> bool
        ensures { IsTrue result ↔ (self.now.1 ≡ []) }
    {
        self.windows().is_empty()
    }

    /// The window at place i of the stage, counted from 0.
    pub fn node(&self, i: usize) -> Window<W>
        requires { i < length self.now.1 }
        ensures valid { IsWindow W result }
        ensures value { result ≡ node_at self.now.1 i }
    {
        self.windows()[i]
    }

    /// Keeps the windows and the labels at the places whose label `keep` accepts, in order. Other stages that share the windows
    /// keep them all. It takes no memory.
    pub fn compact<T: Drop, F: Fn(&T) -> bool>(&mut self, labels: &mut Vec<T>, keep: F)
        requires width { IsWidth W }
        requires one_each { vec_len labels.old ≡ length self.old.1 }
        requires callable { F.IsAlwaysCallable keep }
        ensures number { self.new.0 ≡ self.old.0 }
        ensures kept { (answers : List Bool)
            × AllZip (FnReturnsAt F.Fn keep) labels.old.items answers
            × (self.new.1 ≡ kept_where answers self.old.1)
            × (labels.new.items ≡ kept_where answers labels.old.items) }
    {
        if keeps_all(labels, &keep) {
            return;
        }
        // The links lead to the whole list.
        self.links = None;
        let whole = self.whole.take();
        copy_into_room(whole, &mut self.left);
        compact_all(&mut self.left, labels, &keep);
    }

    /// The windows, in ascending order.
    pub fn windows(&self) -> &[Window<W>]
        ensures windows { result.now ≡ self.now.1 }
        ensures ascending { IsAscending self.now.1 }
        ensures valid { AreWindows W self.now.1 }
    {
        match &self.whole {
            Some(list) => list.as_slice(),
            None => self.left.as_slice(),
        }
    }

    /// The same stage once more; its windows are shared.
    pub fn share(&self) -> Result<Stage<W>, AllocError>
        ensures { IfOk result (λ s. s ≡ self.now) }
    {
        let same = self.copy_as(self.number)?;
        Ok(same)
    }

    // A stage of this number with the same windows, which are shared.
    pub(crate) fn copy_as(&self, number: u8) -> Result<Stage<W>, AllocError>
        ensures { IfOk result (λ s. s ≡ (number, self.now.1)) }
    {
        // The windows ascend.
        let _ascending = self.windows();
        let list = self.shared_windows()?;
        let links = self.shared_links()?;
        let stage = Stage::of_list(*self.left.allocator(), number, list, links)?;
        Ok(stage)
    }
}
