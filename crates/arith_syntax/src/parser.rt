//! Parsing by precedence: constructs that have begun wait on a stack for the operands that end them, and each leaves
//! its part behind those that it is made of.

ghost use Rattle.std.specs.Bool.{nat_le};
ghost use Rattle.std.specs.Prelude.{◌≡◌, ◌≤◌, ℕ, List, [], false, true, MatchResult};
ghost use Rattle.std.specs.List.{All};
ghost use Rattle.arith_syntax.specs.Grammar.{Tree};
ghost use Rattle.arith_syntax.specs.Machine.{rank, room, room_of, settle, start, advance, sign_of, take_due};
ghost use Rattle.arith_syntax.specs.Machine.{take_behind, take_colon, take_close, take_assign, close, begun_of};
ghost use Rattle.arith_syntax.specs.Machine.{stack_of, state_of, around, turned};
ghost use Rattle.arith_syntax.specs.Machine.{ends_at, IsBuilt, IsWholeStack, PushesTo, IsMemory, IsNameOf, HoldsMore};
ghost use Rattle.arith_syntax.specs.Machine.{Pops, PopsEnding, PopsCondition, PopsOpen, SettlesTo, LeadsTo, ClosesTo};
ghost use Rattle.arith_syntax.specs.Parsing.{IsParsed, Parses};
ghost use Rattle.arith_syntax.specs.Parts.{IsNamed, trees_in, tree_of};
ghost use Rattle.arith_syntax.specs.declared.token.Token.TheVariants.{Operator, Question};

use crate::fault::ReadFault;
use crate::operator::{AssignmentOperator, BinaryOperator, UnaryOperator};
use crate::part::Part;
use crate::parts::Parts;
use crate::token::{Placed, Token};
use std::alloc::Global;

/// The level of `||`, the weakest of the operators with two operands.
const WEAKEST_OPERATOR: u8 = 11;

/// The level of a conditional.
const CONDITIONAL: u8 = 12;

/// The level of an assignment, the weakest of all.
const ASSIGNMENT: u8 = 13;

/// The rank of what no operator ends.
const NEVER: u8 = 14;

/// A construct that has begun; what has been read of it are the last trees.
#[derive(Clone, Copy)]
enum Frame {
    /// `(`
    Open,
    /// An operator in front of its operand.
    Unary(UnaryOperator),
    /// An operator behind its left operand.
    Binary(BinaryOperator),
    /// `?` behind its condition.
    Question,
    /// `:` behind the condition and the middle.
    Colon,
    /// An operator that assigns, behind its name.
    Assign(AssignmentOperator),
}

impl Frame {
    /// The level of the strongest operator that ends the construct.
    #[inline(always)]
    fn rank(self) -> u8
        ensures { (trees : List Tree) → result ≡ rank (begun_of self trees) }
    {
        match self {
            Frame::Open | Frame::Question => NEVER,
            Frame::Unary(_) => 1,
            Frame::Binary(operator) => operator.level(),
            Frame::Colon => CONDITIONAL,
            Frame::Assign(_) => ASSIGNMENT,
        }
    }

    /// Whether an assignment fits into the construct.
    fn takes_assignment(self) -> bool
        ensures { (trees : List Tree) → result ≡ nat_le 13 (room (begun_of self trees)) }
    {
        match self {
            Frame::Open | Frame::Question | Frame::Assign(_) => true,
            Frame::Unary(_) | Frame::Binary(_) | Frame::Colon => false,
        }
    }

    /// The part that the construct becomes behind its last operand.
    fn part(self) -> Part
        requires { rank (begun_of self []) ≤ 13 }
        ensures { IsBuilt self result }
    {
        match self {
            Frame::Unary(operator) => Part::Unary(operator),
            Frame::Binary(operator) => Part::Binary(operator),
            Frame::Colon => Part::Conditional,
            Frame::Assign(operator) => Part::Assignment(operator),
            Frame::Open | Frame::Question => unreachable!(),
        }
    }
}

/// What has been read of a statement. Its contracts name the text that the places of names are in.
#[derive(Drop)]
struct Parser {
    /// The constructs that have begun, the innermost last.
    frames: Vec<Frame>,
    /// The parts of what was read.
    parts: Parts,
    /// Whether an operand was read last; else one is due.
    held: bool,
}

impl Parser {
    /// A parser that has read nothing, with room for so many parts.
    fn new(alloc: Global, room: usize) -> Result<Parser, ReadFault>
        ensures { MatchResult result (λ parser. (text : List ℕ) → state_of text parser ≡ start) IsMemory }
    {
        Ok(Parser {
            parts: Parts::with_room(alloc, room)?,
            frames: Vec::new(alloc),
            held: false,
        })
    }

    /// Takes a token, or says that no statement goes on with it.
    fn take(&mut self, text: &str, placed: &Placed) -> Result<bool, ReadFault>
        requires { IsNamed text.now placed.now }
        ensures { LeadsTo (advance (state_of text.now self.old) placed.now.token) result
            (state_of text.now self.new) }
    {
        if self.held {
            self.take_behind(text, &placed.token)
        } else {
            self.take_due(text, placed)
        }
    }

    /// Takes a token where an operand is due.
    fn take_due(&mut self, text: &str, placed: &Placed) -> Result<bool, ReadFault>
        requires due { self.old.held ≡ false }
        requires named { IsNamed text.now placed.now }
        ensures { LeadsTo (take_due (stack_of self.old.frames.items (trees_in text.now self.old.parts))
            placed.now.token) result (state_of text.now self.new) }
    {
        match &placed.token {
            Token::Constant(value) => self.hold(Part::Constant(*value))?,
            Token::Name(_) => self.hold(Part::Variable(placed.place))?,
            Token::Open => self.push(Frame::Open)?,
            Token::Operator(_)
            | Token::Assign(_)
            | Token::Complement
            | Token::Not
            | Token::Increment
            | Token::Decrement
            | Token::Question
            | Token::Colon
            | Token::Close
            | Token::Semicolon => {
                let Some(operator) = unary_operator(&placed.token) else {
                    return Ok(false)
                };
                self.push(Frame::Unary(operator))?;
            }
        }
        Ok(true)
    }

    /// Adds a part, behind which an operand was read.
    #[inline(always)]
    fn hold(&mut self, part: Part) -> Result<(), ReadFault>
        ensures { HoldsMore part self.old result self.new }
    {
        self.parts.push(part)?;
        self.held = true;
        Ok(())
    }

    /// Takes a token behind an operand.
    fn take_behind(&mut self, text: &str, token: &Token) -> Result<bool, ReadFault>
        requires { self.old.held ≡ true }
        ensures { LeadsTo (take_behind (around text.now self.old) (tree_of text.now self.old.parts) token.now)
            result (state_of text.now self.new) }
    {
        match token {
            Token::Operator(operator) => self.take_operator(text, *operator),
            Token::Assign(operator) => self.take_assign(text, *operator),
            Token::Question => self.take_question(text),
            Token::Colon => {
                self.settle(text, ASSIGNMENT)?;
                self.take_colon(text)
            }
            Token::Close => {
                self.settle(text, ASSIGNMENT)?;
                self.take_close(text)
            }
            Token::Constant(_)
            | Token::Name(_)
            | Token::Complement
            | Token::Not
            | Token::Increment
            | Token::Decrement
            | Token::Open
            | Token::Semicolon => Ok(false),
        }
    }

    /// Takes an operator between two operands.
    fn take_operator(&mut self, text: &str, operator: BinaryOperator) -> Result<bool, ReadFault>
        ensures { LeadsTo (take_behind (around text.now self.old) (tree_of text.now self.old.parts)
            (Operator operator)) result (state_of text.now self.new) }
    {
        self.settle(text, operator.level())?;
        self.push(Frame::Binary(operator))?;
        Ok(true)
    }

    /// Takes `?` behind a condition.
    fn take_question(&mut self, text: &str) -> Result<bool, ReadFault>
        ensures { LeadsTo (take_behind (around text.now self.old) (tree_of text.now self.old.parts) Question)
            result (state_of text.now self.new) }
    {
        self.settle(text, WEAKEST_OPERATOR)?;
        self.push(Frame::Question)?;
        Ok(true)
    }

    /// Ends the innermost constructs that aren't weaker than a level; the operand becomes their tree.
    #[inline(always)]
    fn settle(&mut self, text: &str, weakest: u8) -> Result<(), ReadFault>
        requires { weakest ≤ 13 }
        ensures { SettlesTo (settle weakest (around text.now self.old) (tree_of text.now self.old.parts)) result
            (around text.now self.new) (tree_of text.now self.new.parts) }
    {
        while let Some(frame) = self.pop_ending(weakest) {
            self.parts.push(frame.part())?;
        }
        Ok(())
    }

    /// Begins a construct, in which an operand is due.
    #[inline(always)]
    fn push(&mut self, frame: Frame) -> Result<(), ReadFault>
        ensures frame { PushesTo frame self.old.frames.items result self.new.frames.items }
        ensures parts { self.new.parts ≡ self.old.parts }
        ensures due { MatchResult result (λ _. self.new.held ≡ false) IsMemory }
    {
        self.frames.push(frame)?;
        self.held = false;
        Ok(())
    }

    /// Takes the innermost construct off.
    fn pop(&mut self) -> Option<Frame>
        ensures frame { Pops self.old.frames.items result self.new.frames.items }
        ensures parts { self.new.parts ≡ self.old.parts }
    {
        self.frames.pop()
    }

    /// Takes the innermost construct off, unless it is weaker than a level.
    #[inline(always)]
    fn pop_ending(&mut self, weakest: u8) -> Option<Frame>
        ensures frame { PopsEnding weakest self.old.frames.items result self.new.frames.items }
        ensures parts { self.new.parts ≡ self.old.parts }
    {
        if self.ends_at(weakest) {
            self.pop()
        } else {
            None
        }
    }

    /// Whether the innermost construct isn't weaker than a level.
    #[inline(always)]
    fn ends_at(&self, weakest: u8) -> bool
        ensures { (trees : List Tree) → result ≡ ends_at weakest (stack_of self.now.frames.items trees) }
    {
        match self.frames.last() {
            Some(frame) => frame.rank() <= weakest,
            None => false,
        }
    }

    /// Takes a `?` off that waits for its `:`, or says that the innermost construct is none.
    fn pop_condition(&mut self) -> bool
        ensures frame { PopsCondition self.old.frames.items result self.new.frames.items }
        ensures parts { self.new.parts ≡ self.old.parts }
    {
        matches!(self.pop(), Some(Frame::Question))
    }

    /// Takes a `(` off, or says that the innermost construct is none.
    fn pop_open(&mut self) -> bool
        ensures frame { PopsOpen self.old.frames.items result self.new.frames.items }
        ensures parts { self.new.parts ≡ self.old.parts }
    {
        matches!(self.pop(), Some(Frame::Open))
    }

    /// Takes `:` behind the middle of a conditional.
    fn take_colon(&mut self, text: &str) -> Result<bool, ReadFault>
        ensures { LeadsTo (take_colon (around text.now self.old) (tree_of text.now self.old.parts)) result
            (state_of text.now self.new) }
    {
        if !self.pop_condition() {
            return Ok(false);
        }
        self.push(Frame::Colon)?;
        Ok(true)
    }

    /// Takes `)` behind what stands in parentheses.
    fn take_close(&mut self, text: &str) -> Result<bool, ReadFault>
        ensures { LeadsTo (take_close (around text.now self.old) (tree_of text.now self.old.parts)) result
            (state_of text.now self.new) }
    {
        if !self.pop_open() {
            return Ok(false);
        }
        self.hold(Part::Group)?;
        Ok(true)
    }

    /// Takes an operator that assigns, behind a name.
    fn take_assign(&mut self, text: &str, operator: AssignmentOperator) -> Result<bool, ReadFault>
        ensures { LeadsTo (take_assign operator (around text.now self.old) (tree_of text.now self.old.parts))
            result (state_of text.now self.new) }
    {
        if !self.ends_with_name(text) || !self.takes_assignment() {
            return Ok(false);
        }
        self.push(Frame::Assign(operator))?;
        Ok(true)
    }

    /// Whether what was read last is a name.
    fn ends_with_name(&self, text: &str) -> bool
        ensures { IsNameOf (tree_of text.now self.now.parts) result }
    {
        self.parts.are_a_name()
    }

    /// Whether an assignment fits into the innermost construct.
    fn takes_assignment(&self) -> bool
        ensures { (trees : List Tree) → result ≡ nat_le 13 (room_of (stack_of self.now.frames.items trees)) }
    {
        match self.frames.last() {
            Some(frame) => frame.takes_assignment(),
            None => true,
        }
    }

    /// Whether no construct waits for its end.
    fn is_whole(&self) -> bool
        ensures { IsWholeStack self.now.frames.items result }
    {
        self.frames.is_empty()
    }

    /// Ends a statement, or says that what was read is none.
    fn finish(&mut self, text: &str) -> Result<bool, ReadFault>
        ensures { ClosesTo (close (state_of text.now self.old)) result (tree_of text.now self.new.parts) }
    {
        if !self.held {
            return Ok(false);
        }
        self.settle(text, ASSIGNMENT)?;
        Ok(self.is_whole())
    }

    /// Reads a statement's tokens from the first to the last, which ends at `end`.
    fn read(&mut self, text: &str, tokens: &[Placed], end: u64) -> Result<(), ReadFault>
        requires start { state_of text.now self.old ≡ start }
        requires named { All (IsNamed text.now) tokens.now }
        ensures { Parses (record { tokens = tokens.now; end = end }) (tree_of text.now self.new.parts) result }
    {
        for placed in tokens {
            if !self.take(text, placed)? {
                return Err(ReadFault::Syntax(placed.place));
            }
        }
        if self.finish(text)? {
            Ok(())
        } else {
            Err(ReadFault::Syntax(end))
        }
    }
}

/// The operator in front of an operand that a token is.
fn unary_operator(token: &Token) -> Option<UnaryOperator>
    ensures { result ≡ sign_of token.now }
{
    match token {
        Token::Operator(BinaryOperator::Add) => Some(UnaryOperator::Plus),
        Token::Operator(BinaryOperator::Subtract) => Some(UnaryOperator::Minus),
        Token::Complement => Some(UnaryOperator::Complement),
        Token::Not => Some(UnaryOperator::Not),
        Token::Operator(_)
        | Token::Constant(_)
        | Token::Name(_)
        | Token::Assign(_)
        | Token::Increment
        | Token::Decrement
        | Token::Question
        | Token::Colon
        | Token::Open
        | Token::Close
        | Token::Semicolon => None,
    }
}

/// The parts of the tree of a statement's tokens, which stand in `text`; `end` is the place of its end.
///
/// # Errors
///
/// `Syntax` with the place of the first token with which no statement goes on, or of the end where the tokens are no
/// whole statement; `OutOfMemory` where no memory was left.
pub(crate) fn parse(
    alloc: Global,
    text: &str,
    tokens: &[Placed],
    end: u64,
) -> Result<Parts, ReadFault>
    requires { All (IsNamed text.now) tokens.now }
    ensures { IsParsed (record { tokens = tokens.now; end = end }) text.now result }
{
    let mut parser = Parser::new(alloc, tokens.len())?;
    match parser.read(text, tokens, end) {
        Ok(()) => Ok(parser.parts),
        Err(fault) => Err(fault),
    }
}
