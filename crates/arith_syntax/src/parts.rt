//! The parts of a tree in little memory.

ghost use Rattle.std.specs.Prelude.{◌≡◌, ◌++◌, ◌∷◌, [], ℕ, List, IfOk, MatchOption, MatchResult};
ghost use Rattle.arith_syntax.specs.declared.part.Part.TheVariants.{Assignment, Variable};
ghost use Rattle.arith_syntax.specs.Machine.{IsNameOf};
ghost use Rattle.arith_syntax.specs.Packed.{GoesOn, IsKept, IsNoAssignment, mark_of, narrow_left, narrow_number};
ghost use Rattle.arith_syntax.specs.Packed.{narrow_part, next_number, parts_of, wide_left, wide_number, wide_part};
ghost use Rattle.arith_syntax.specs.Packed.{width_of};
ghost use Rattle.arith_syntax.specs.Parts.{tree_of};

use crate::mark::{Mark, Width};
use crate::operator::AssignmentOperator;
use crate::part::Part;
use std::alloc::{AllocError, Global};
use std::marker::Model;

/// The parts of a tree: a contract sees the list of them. Each has a mark of two octets, and a number has four if it is
/// below 2^32.
#[derive(Drop)]
pub struct Parts {
    /// The marks of the parts.
    marks: Vec<Mark>,
    /// The numbers below 2^32.
    narrow: Vec<u32>,
    /// The other numbers.
    wide: Vec<u64>,
}

impl Model for Parts {
    ghost use Rattle.std.specs.Prelude.{List};
    ghost use Rattle.arith_syntax.specs.declared.part.Part.{Part};
    ghost use Rattle.arith_syntax.specs.Packed.{IsKept, parts_in};

    ghost Value = { List Part };

    ghost view = { λ p. parts_in p.marks.items p.narrow.items p.wide.items };

    ghost invariant = { λ p. IsKept (parts_in p.marks.items p.narrow.items p.wide.items) p.marks.items
        p.narrow.items p.wide.items };
}

impl Parts {
    /// No parts.
    pub fn new(alloc: Global) -> Parts
        ensures { result ≡ [] }
    {
        Parts {
            marks: Vec::new(alloc),
            narrow: Vec::new(alloc),
            wide: Vec::new(alloc),
        }
    }

    /// No parts, with room for so many.
    pub(crate) fn with_room(alloc: Global, room: usize) -> Result<Parts, AllocError>
        ensures { IfOk result (λ parts. parts ≡ []) }
    {
        let marks = Vec::with_capacity(alloc, room)?;
        let narrow = Vec::with_capacity(alloc, room)?;
        Ok(Parts {
            marks,
            narrow,
            wide: Vec::new(alloc),
        })
    }

    /// Adds a part behind the others.
    ///
    /// # Errors
    ///
    /// If memory is refused. Then no part is left.
    #[inline(always)]
    pub fn push(&mut self, part: Part) -> Result<(), AllocError>
        ensures { MatchResult result (λ _. self.new ≡ self.old ++ part ∷ []) (λ _. self.new ≡ []) }
    {
        match put(&mut self.marks, &mut self.narrow, &mut self.wide, part) {
            Ok(()) => Ok(()),
            Err(fault) => {
                self.marks.clear();
                self.narrow.clear();
                self.wide.clear();
                Err(fault)
            }
        }
    }

    /// Whether the tree is a name.
    pub(crate) fn are_a_name(&self) -> bool
        ensures { (text : List ℕ) → IsNameOf (tree_of text self.now) result }
    {
        match self.marks.last() {
            Some(mark) => mark.is_variable(),
            None => false,
        }
    }

    /// The parts, lent.
    pub fn lend(&self) -> PartsRef<'_>
        ensures parts { parts_of result ≡ self.now }
        ensures kept { IsKept self.now result.marks.now result.narrow.now result.wide.now }
    {
        PartsRef {
            marks: &self.marks,
            narrow: &self.narrow,
            wide: &self.wide,
        }
    }
}

/// Keeps a part behind others. If memory is refused, a number may be left without its mark.
#[inline(always)]
fn put(
    marks: &mut Vec<Mark>,
    narrow: &mut Vec<u32>,
    wide: &mut Vec<u64>,
    part: Part,
) -> Result<(), AllocError>
    ensures marks { IfOk result (λ _. marks.new.items ≡ marks.old.items ++ mark_of part ∷ []) }
    ensures narrow { IfOk result (λ _. narrow.new.items ≡ narrow.old.items ++ narrow_part part) }
    ensures wide { IfOk result (λ _. wide.new.items ≡ wide.old.items ++ wide_part part) }
{
    let mark = match part {
        Part::Constant(number) => Mark::Constant(keep(narrow, wide, number)?),
        Part::Variable(place) => Mark::Variable(keep(narrow, wide, place)?),
        Part::Group => Mark::Group,
        Part::Unary(operator) => Mark::Unary(operator),
        Part::Binary(operator) => Mark::Binary(operator),
        Part::Conditional => Mark::Conditional,
        Part::Assignment(operator) => Mark::Assignment(operator),
    };
    marks.push(mark)?;
    Ok(())
}

/// Keeps a number, and answers among which.
#[inline(always)]
fn keep(narrow: &mut Vec<u32>, wide: &mut Vec<u64>, number: u64) -> Result<Width, AllocError>
    ensures width { IfOk result (λ width. width ≡ width_of number) }
    ensures narrow { IfOk result (λ _. narrow.new.items ≡ narrow.old.items ++ narrow_number number) }
    ensures wide { IfOk result (λ _. wide.new.items ≡ wide.old.items ++ wide_number number) }
{
    if number < 1 << 32 {
        narrow.push(number as u32)?;
        Ok(Width::Narrow)
    } else {
        wide.push(number)?;
        Ok(Width::Wide)
    }
}

/// The parts of a tree, lent.
#[derive(Clone, Copy)]
pub struct PartsRef<'p> {
    /// The marks of the parts.
    pub(crate) marks: &'p [Mark],
    /// The numbers below 2^32; those behind the last one of the tree don't count.
    pub(crate) narrow: &'p [u32],
    /// The other numbers; those behind the last one of the tree don't count.
    pub(crate) wide: &'p [u64],
}

/// The parts of a tree that assigns to a name, lent.
#[derive(Clone, Copy)]
pub struct AssignmentRef<'p> {
    /// The place of the name in the text, which counts octets.
    pub place: u64,
    /// The operator.
    pub operator: AssignmentOperator,
    /// The parts of what is assigned.
    pub operand: PartsRef<'p>,
}

impl<'p> PartsRef<'p> {
    /// Takes the first part.
    #[inline(always)]
    pub fn next(&mut self) -> Option<Part>
        ensures { GoesOn (parts_of self.old) result (parts_of self.new) }
    {
        let (mark, rest) = self.marks.split_first()?;
        self.marks = rest;
        Some(match *mark {
            Mark::Constant(width) => Part::Constant(self.number(width)),
            Mark::Variable(width) => Part::Variable(self.number(width)),
            Mark::Group => Part::Group,
            Mark::Unary(operator) => Part::Unary(operator),
            Mark::Binary(operator) => Part::Binary(operator),
            Mark::Conditional => Part::Conditional,
            Mark::Assignment(operator) => Part::Assignment(operator),
        })
    }

    /// Takes the next number. If none is there, as is never so of parts that were kept, it is 0.
    #[inline(always)]
    fn number(&mut self, width: Width) -> u64
        ensures number { result ≡ next_number width self.old.narrow.now self.old.wide.now }
        ensures marks { self.new.marks.now ≡ self.old.marks.now }
        ensures narrow { self.new.narrow.now ≡ narrow_left width self.old.narrow.now }
        ensures wide { self.new.wide.now ≡ wide_left width self.old.wide.now }
    {
        match width {
            Width::Narrow => match self.narrow.split_first() {
                Some((number, rest)) => {
                    self.narrow = rest;
                    u64::from(*number)
                }
                None => 0,
            },
            Width::Wide => match self.wide.split_first() {
                Some((number, rest)) => {
                    self.wide = rest;
                    *number
                }
                None => 0,
            },
        }
    }

    /// What assigns, if the parts begin with a name and end with an operator that assigns, as those of a tree do that
    /// assigns to a name. Of others none.
    pub fn assignment(self) -> Option<AssignmentRef<'p>>
        ensures { MatchOption result (IsNoAssignment (parts_of self.entry)) (λ a. parts_of self.entry
            ≡ Variable a.place ∷ (parts_of a.operand ++ Assignment a.operator ∷ [])) }
    {
        let (mark, rest) = self.marks.split_last()?;
        let operator = mark.assignment()?;
        let mut operand = PartsRef {
            marks: rest,
            narrow: self.narrow,
            wide: self.wide,
        };
        let place = operand.next()?.variable()?;
        Some(AssignmentRef {
            place,
            operator,
            operand,
        })
    }

    /// The parts, each with its number.
    ///
    /// # Errors
    ///
    /// If memory is refused.
    pub fn unpacked(self, alloc: Global) -> Result<Vec<Part>, AllocError>
        ensures { IfOk result (λ parts. parts.items ≡ parts_of self.entry) }
    {
        let mut parts = Vec::with_capacity(alloc, self.marks.len())?;
        let mut left = self;
        while let Some(part) = left.next() {
            parts.push(part)?;
        }
        Ok(parts)
    }
}
