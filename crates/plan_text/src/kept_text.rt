ghost use Rattle.std.specs.Prelude.{◌≡◌, ◌≤◌, ◌++◌, [], ◌∷◌, OnOk, IsTrue, drop, option_map, length, map, take};
ghost use Rattle.landing_rules.specs.Text.{block_text, landing_words, lines_text};
ghost use Rattle.plan_file.specs.Shown.{shown_of};
ghost use Rattle.plan_text.specs.Kept.{landing_of, written_text, EndAt};

use crate::block::{append_head, append_landing};
use cps_problem::Objective;
use plan_file::{Landing, Plan};
use std::alloc::{AllocError, Global};
use std::marker::Model;

// A landing, and where its line ends, counted from where the first one begins.
#[derive(Clone, Copy)]
struct Line {
    landing: Landing,
    end: usize,
}

/// A text that ends with landing lines, kept for the next one, which takes over the lines of the first landings that both
/// have: no event moves a frozen landing, and few move one that lands soon.
///
/// Contracts see what stands before the lines, and the landings.
#[derive(Drop)]
pub struct KeptText {
    head: usize,
    lines: Vec<Line>,
    text: Vec<u8>,
}

impl Model for KeptText {
    ghost use Rattle.plan_text.specs.Kept.{Written, written, AreLinesOf};

    ghost Value = { Written };

    ghost view = { written };

    ghost invariant = { AreLinesOf };
}

// Whether they show the same.
fn is_same(landing: &Landing, other: &Landing) -> bool
    ensures { IsTrue result → shown_of landing.now ≡ shown_of other.now }
{
    landing.second == other.second
        && landing.frozen == other.frozen
        && landing.callsign == other.callsign
}

// How many first landings the lines and the plan have in common.
fn count_same(lines: &[Line], plan: &Plan) -> usize
    ensures within { result ≤ length lines.now }
    ensures same { map landing_of (take result lines.now) ≡ take result plan.now.landings }
{
    let most = lines.len().min(plan.len());
    for i in 0..most {
        if !is_same(&lines[i].landing, &plan.line(i)) {
            return i;
        }
    }
    most
}

// Where the first lines end, so many of them.
fn end_of(lines: &[Line], count: usize) -> usize
    requires ends { EndAt 0 lines.now }
    requires within { count ≤ length lines.now }
    ensures { result ≡ length (lines_text (map landing_words (map landing_of (take count
        lines.now)))) }
{
    if count == 0 { 0 } else { lines[count - 1].end }
}

// Puts these bytes in place of the first ones.
fn overwrite(text: &mut [u8], bytes: &[u8])
    requires { length bytes.now ≤ length text.old }
    ensures { text.new ≡ bytes.now ++ drop (length bytes.now) text.old }
{
    text[..bytes.len()].copy_from_slice(bytes);
}

impl KeptText {
    /// No text.
    pub fn new(alloc: Global) -> KeptText
        ensures { written_text result ≡ [] }
    {
        KeptText {
            head: 0,
            lines: Vec::new(alloc),
            text: Vec::new(alloc),
        }
    }

    /// The text.
    pub fn text(&self) -> &[u8]
        ensures { result.now ≡ written_text self.now }
    {
        self.text.as_slice()
    }

    // How many landings stay in the text of the plan.
    fn count_kept(&self, plan: &Plan) -> usize
        ensures within { result ≤ length self.now.landings }
        ensures same { take result self.now.landings ≡ take result plan.now.landings }
    {
        count_same(&self.lines, plan)
    }

    // Keeps the lines of the first landings, so many of them.
    fn keep(&mut self, count: usize)
        requires { count ≤ length self.old.landings }
        ensures { self.new ≡ record self.old { landings = take count self.old.landings } }
    {
        let end = self.head + end_of(&self.lines, count);
        self.lines.truncate(count);
        self.text.truncate(end);
    }

    // Puts a head before the lines.
    fn set_head(&mut self, head: Vec<u8>) -> Result<(), AllocError>
        ensures { OnOk result (self.new ≡ record self.old { head = head.items }) }
    {
        let count = head.len();
        if count == self.head {
            overwrite(self.text.as_mut_slice(), &head);
            return Ok(());
        }
        let mut text = head;
        text.extend_from_slice(&self.text[self.head..])?;
        self.text = text;
        self.head = count;
        Ok(())
    }

    // One landing more, with its line. After a refusal there is no text.
    fn push(&mut self, landing: Landing) -> Result<(), AllocError>
        ensures { OnOk result (self.new ≡ record self.old {
          landings = self.old.landings ++ shown_of landing ∷ [];
        }) }
    {
        let is_written = append_landing(&landing, &mut self.text).is_ok();
        let end = self.text.len().saturating_sub(self.head);
        if !is_written || self.lines.push(Line { landing, end }).is_err() {
            self.head = 0;
            self.lines.clear();
            self.text.clear();
            return Err(AllocError);
        }
        Ok(())
    }

    // The landings of the plan that are left.
    fn go_on(&mut self, plan: &Plan) -> Result<(), AllocError>
        requires { self.old.landings ≡ take (length self.old.landings) plan.now.landings }
        ensures { OnOk result (self.new ≡ record self.old { landings = plan.now.landings }) }
    {
        for i in self.lines.len()..plan.len() {
            self.push(plan.line(i))?;
        }
        Ok(())
    }

    /// Writes a head, and behind it a plan as `plan_block` does, whatever was written before. It fails only for want of
    /// memory.
    pub fn write(
        &mut self,
        head: Vec<u8>,
        objective: Objective,
        plan: Option<&Plan>,
    ) -> Result<(), AllocError>
        ensures { OnOk result (written_text self.new
            ≡ head.items ++ block_text objective (option_map (λ p. p.now) plan.entry)) }
    {
        let mut head = head;
        let Some(plan) = plan else {
            head.extend_from_slice(b"infeasible\n")?;
            self.keep(0);
            return self.set_head(head);
        };
        append_head(objective, plan.value(), &mut head)?;
        self.keep(self.count_kept(plan));
        self.set_head(head)?;
        self.go_on(plan)
    }
}
