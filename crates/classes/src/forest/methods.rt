//! What a forest is told and asked.

ghost use Rattle.std.specs.Prelude.{◌≡◌, ◌<◌, true, IfOk};
ghost use Rattle.terms.specs.Answers.{Answers};
ghost use Rattle.contents.specs.Contents.{HeldIn};
ghost use Rattle.classes.specs.Forests.{made_in, Barren, Fresh, Grows, Narrowed, Narrows, KeepsRows, Throughout, LeastSays, GreatestSays, OneValue, MadeSays, RootFound, HeldSays, RangeSays};

use super::{Forest, NotMade};
use crate::pair::{is_one_value, meeting};
use crate::row::ClassRow;
use crate::rows::{is_below, link};
use contents::content::Content;
use std::alloc::{AllocError, Global};

/// How many variables a forest can hold.
pub const CAPACITY: usize = 256;

impl<C: Content> Forest<C> {
    /// No variable made, and every valuation left.
    pub fn new(heap: Global) -> Result<Forest<C>, AllocError>
        ensures { IfOk result (λ f. Fresh C.Content.holds f) }
    {
        Ok(Forest {
            rows: Vec::with_capacity(heap, CAPACITY)?,
            failed: false,
        })
    }

    /// The same again, in the memory that is there.
    pub fn clear(&mut self)
        ensures { Fresh C.Content.holds self.new }
    {
        self.rows.clear();
        self.failed = false;
    }

    /// A new variable, which can have every value; none at the capacity.
    pub fn make(&mut self) -> Option<u8>
        ensures { Grows C.Content.holds self.old result self.new }
    {
        let count = self.rows.len();
        if count >= CAPACITY {
            return None;
        }
        let parent = count as u8;
        self.rows.push_reserved(ClassRow {
            parent,
            rank: 0,
            content: C::all(),
        });
        Some(parent)
    }

    /// How many variables are made.
    pub fn count(&self) -> usize
        ensures { result ≡ made_in self.now }
    {
        self.rows.len()
    }

    /// Whether no valuation is left.
    pub fn failed(&self) -> bool
        ensures { Answers result (Barren C.Content.holds self.now) }
    {
        self.failed
    }

    /// Leaves every valuation if `holds`, else none.
    pub fn keep(&mut self, holds: bool)
        ensures { Narrowed C.Content.holds self.old (λ _. holds ≡ true) self.new }
    {
        if !holds {
            self.failed = true;
        }
    }

    /// Leaves the valuations in which `a` and `b` are the same; refuses, and changes nothing, if one of them is not made.
    pub fn join(&mut self, a: u8, b: u8) -> Result<(), NotMade>
        ensures narrows { Narrows C.Content.holds self.old ((a < made_in self.old) × (b < made_in self.old)) (λ v. v a ≡ v b) result self.new }
        ensures kept { KeepsRows self.old self.new }
    {
        let known = self.made(a).and(self.made(b));
        if self.failed || known.is_err() {
            return known;
        }
        let one = self.root(a)?;
        let other = self.root(b)?;
        if one == other {
            return Ok(());
        }
        let left = self.rows[one as usize].content;
        let right = self.rows[other as usize].content;
        match left.meet(right) {
            None => self.failed = true,
            Some(content) if is_below(&self.rows, one, other) => {
                link(&mut self.rows, one, other, content);
            }
            Some(content) => link(&mut self.rows, other, one, content),
        }
        Ok(())
    }

    /// Leaves the valuations in which `by` holds the value of `x`; refuses, and changes nothing, if `x` is not made.
    pub fn confine(&mut self, x: u8, by: Option<C>) -> Result<(), NotMade>
        ensures narrows { Narrows C.Content.holds self.old (x < made_in self.old) (λ v. HeldIn C.Content.holds by (v x)) result self.new }
        ensures kept { KeepsRows self.old self.new }
    {
        if self.failed {
            return self.made(x);
        }
        let top = self.root(x)?;
        match meeting(self.rows[top as usize].content, by) {
            Some(content) => self.rows[top as usize].content = content,
            None => self.failed = true,
        }
        Ok(())
    }

    /// Whether `a` and `b` are made, and the same in every valuation.
    pub fn same(&self, a: u8, b: u8) -> bool
        ensures { Answers result ((a < made_in self.now) × (b < made_in self.now) × Throughout C.Content.holds self.now (λ v. v a ≡ v b)) }
    {
        if self.made(a).is_err() || self.made(b).is_err() {
            return false;
        }
        if self.failed {
            return true;
        }
        match (self.root(a), self.root(b)) {
            (Ok(one), Ok(other)) if one == other => true,
            (Ok(one), Ok(other)) => {
                let left = self.rows[one as usize].content;
                let right = self.rows[other as usize].content;
                is_one_value(left, right)
            }
            _ => false,
        }
    }

    /// Whether `x` is made, and `by` holds its value in every valuation.
    pub fn lies_in(&self, x: u8, by: Option<C>) -> bool
        ensures { Answers result ((x < made_in self.now) × Throughout C.Content.holds self.now (λ v. HeldIn C.Content.holds by (v x))) }
    {
        if self.failed {
            return self.made(x).is_ok();
        }
        let Some(content) = by else {
            return false;
        };
        match self.held(x) {
            Ok(held) => held.is_within(content),
            Err(NotMade) => false,
        }
    }

    /// The least value of `x`; none if `x` is not made, or no valuation is left.
    pub fn least(&self, x: u8) -> Option<i32>
        ensures { LeastSays C.Content.holds self.now x result }
    {
        Some(self.range(x)?.least())
    }

    /// The greatest value of `x`; none if `x` is not made, or no valuation is left.
    pub fn greatest(&self, x: u8) -> Option<i32>
        ensures { GreatestSays C.Content.holds self.now x result }
    {
        Some(self.range(x)?.greatest())
    }

    /// Whether `x` is made and has one value.
    pub fn fixed(&self, x: u8) -> bool
        ensures { Answers result (OneValue C.Content.holds self.now x) }
    {
        if self.failed {
            return self.made(x).is_ok();
        }
        match self.held(x) {
            Ok(content) => content.least() == content.greatest(),
            Err(NotMade) => false,
        }
    }

    /// Refuses a variable that is not made.
    fn made(&self, x: u8) -> Result<(), NotMade>
        ensures { MadeSays self.now x result }
    {
        if x as usize >= self.rows.len() {
            return Err(NotMade);
        }
        Ok(())
    }

    /// The root of the class of `x`, if `x` is made.
    fn root(&self, x: u8) -> Result<u8, NotMade>
        ensures { RootFound self.now x result }
    {
        self.made(x)?;
        let mut at = x;
        while self.rows[at as usize].parent != at {
            at = self.rows[at as usize].parent;
        }
        Ok(at)
    }

    /// What the class of `x` holds, if `x` is made.
    fn held(&self, x: u8) -> Result<C, NotMade>
        ensures { HeldSays C.Content.holds self.now x result }
    {
        let root = self.root(x)?;
        Ok(self.rows[root as usize].content)
    }

    /// What `x` can be; none if `x` is not made, or no valuation is left.
    fn range(&self, x: u8) -> Option<C>
        ensures { RangeSays C.Content.holds self.now x result }
    {
        if self.failed {
            return None;
        }
        self.held(x).ok()
    }
}
