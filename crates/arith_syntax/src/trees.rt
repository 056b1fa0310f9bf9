//! The trees of a cell's statements.

ghost use Rattle.std.specs.Prelude.{◌≡◌, ◌++◌, [], ◌∷◌, ◌↔◌, IfOk, IsTrue, MatchResult, drop, length};
ghost use Rattle.arith_syntax.specs.Packed.{IsFirst, size_of};

use crate::mark::Mark;
use crate::parts::{Parts, PartsRef};
use crate::stream::Stream;
use std::alloc::{AllocError, Global};
use std::collections::VecDeque;
use std::marker::Model;

/// How much is kept of a tree.
#[derive(Clone, Copy)]
pub(crate) struct Size {
    /// How many marks.
    marks: u32,
    /// How many numbers below 2^32.
    narrow: u32,
    /// How many other numbers.
    wide: u32,
}

impl Size {
    /// How much a tree's parts are, if there are fewer than 2^32 of each.
    fn of(parts: PartsRef<'_>) -> Result<Size, AllocError>
        ensures { IfOk result (λ size. size ≡ size_of parts.entry) }
    {
        Ok(Size {
            marks: u32::try_from(parts.marks.len()).map_err(|_| AllocError)?,
            narrow: u32::try_from(parts.narrow.len()).map_err(|_| AllocError)?,
            wide: u32::try_from(parts.wide.len()).map_err(|_| AllocError)?,
        })
    }
}

/// The trees of statements, in their order: a contract sees the parts of each.
#[derive(Drop)]
pub struct Trees {
    /// How much is kept of each.
    sizes: VecDeque<Size>,
    /// The marks of all parts.
    marks: Stream<Mark>,
    /// The numbers below 2^32.
    narrow: Stream<u32>,
    /// The other numbers.
    wide: Stream<u64>,
}

impl Model for Trees {
    ghost use Rattle.std.specs.Prelude.{List};
    ghost use Rattle.arith_syntax.specs.declared.part.Part.{Part};
    ghost use Rattle.arith_syntax.specs.Packed.{AreKept, rows_in};

    ghost Value = { List (List Part) };

    ghost view = { λ t. rows_in t.sizes.items t.marks t.narrow t.wide };

    ghost invariant = { λ t. AreKept (rows_in t.sizes.items t.marks t.narrow t.wide) t.sizes.items t.marks t.narrow
        t.wide };
}

impl Trees {
    /// No trees.
    pub(crate) fn new(alloc: Global) -> Trees
        ensures { result ≡ [] }
    {
        Trees {
            sizes: VecDeque::new(alloc),
            marks: Stream::new(alloc),
            narrow: Stream::new(alloc),
            wide: Stream::new(alloc),
        }
    }

    /// How many there are.
    pub fn len(&self) -> u64
        ensures { result ≡ length self.now }
    {
        self.sizes.len() as u64
    }

    /// Whether there is none.
    pub fn is_empty(&self) -> bool
        ensures { IsTrue result ↔ (length self.now ≡ 0) }
    {
        self.sizes.is_empty()
    }

    /// Adds a tree after the others.
    ///
    /// # Errors
    ///
    /// If memory is refused, or the tree has 2^32 parts or more. Then no tree is left.
    pub(crate) fn push(&mut self, parts: &Parts) -> Result<(), AllocError>
        ensures { MatchResult result (λ _. self.new ≡ self.old ++ parts.now ∷ []) (λ _. self.new ≡ []) }
    {
        let kept = parts.lend();
        match put(
            &mut self.sizes,
            &mut self.marks,
            &mut self.narrow,
            &mut self.wide,
            kept,
        ) {
            Ok(()) => Ok(()),
            Err(fault) => {
                self.sizes.clear();
                self.marks.clear();
                self.narrow.clear();
                self.wide.clear();
                Err(fault)
            }
        }
    }

    /// The parts of the first tree, if there is one.
    pub fn first(&self) -> Option<PartsRef<'_>>
        ensures { IsFirst self.now result }
    {
        let size = self.sizes.front()?;
        Some(PartsRef {
            marks: &self.marks.as_slice()[..size.marks as usize],
            narrow: self.narrow.as_slice(),
            wide: self.wide.as_slice(),
        })
    }

    /// Takes the first tree away, if there is one.
    pub fn remove_first(&mut self)
        ensures { self.new ≡ drop 1 self.old }
    {
        if let Some(size) = self.sizes.pop_front() {
            self.marks.skip(size.marks as usize);
            self.narrow.skip(size.narrow as usize);
            self.wide.skip(size.wide as usize);
        }
    }
}

/// Keeps a tree behind others.
fn put(
    sizes: &mut VecDeque<Size>,
    marks: &mut Stream<Mark>,
    narrow: &mut Stream<u32>,
    wide: &mut Stream<u64>,
    parts: PartsRef<'_>,
) -> Result<(), AllocError>
    ensures sizes { IfOk result (λ _. sizes.new.items ≡ sizes.old.items ++ size_of parts.entry ∷ []) }
    ensures marks { IfOk result (λ _. marks.new ≡ marks.old ++ parts.entry.marks.now) }
    ensures narrow { IfOk result (λ _. narrow.new ≡ narrow.old ++ parts.entry.narrow.now) }
    ensures wide { IfOk result (λ _. wide.new ≡ wide.old ++ parts.entry.wide.now) }
{
    let size = Size::of(parts)?;
    marks.append(parts.marks)?;
    narrow.append(parts.narrow)?;
    wide.append(parts.wide)?;
    sizes.push_back(size)?;
    Ok(())
}
