ghost use Rattle.std.specs.Prelude.{◌≡◌, IfOk};
ghost use Rattle.token_grammar_examples.specs.Effects as spec;

use crate::expression::Expression;
use crate::mark::Mark;
use crate::symbol::Rule::{Add, Join, Members, More, Negate, Others};
use crate::symbol::Symbol::{self, Row, Taken};
use crate::symbol::Taker::{CloseRow, FirstPlus, Number, OpenRow};
use std::alloc::Global;
use std::mem::replace;
use text_core::{Boxed, List, Memory};
use token_grammar::{Builder, Stack};

/// Builds the value of an expression while it is read.
#[derive(Debug, Drop)]
pub struct ExpressionBuilder {
    alloc: Global,
    // The expression or operand that was last read.
    current: Expression,
    // The operands of the sum that is open, and those of the sums around it.
    operands: List<Expression>,
    sums: Stack<List<Expression>>,
    // The members of the row that is open, and those of the rows around it.
    members: List<Expression>,
    rows: Stack<List<Expression>>,
}

impl ExpressionBuilder {
    /// A builder of an expression; so far it is the number 0.
    pub fn new(alloc: Global) -> ExpressionBuilder {
        ExpressionBuilder {
            alloc,
            current: Expression::Number(0),
            operands: List::new(alloc),
            sums: Stack::new(alloc),
            members: List::new(alloc),
            rows: Stack::new(alloc),
        }
    }

    /// The expression that was read.
    pub fn into_expression(self) -> Expression
        ensures { result ≡ self.current }
    {
        self.current
    }

    fn take_current(&mut self) -> Expression
        ensures taken { result ≡ self.old.current }
        ensures left { self.new ≡ spec.cleared self.old }
    {
        replace(&mut self.current, Expression::Number(0))
    }

    fn begin_sum(&mut self) -> Result<(), Memory>
        ensures { IfOk result (λ _. self.new ≡ spec.sum_begun self.old) }
    {
        let outer = replace(&mut self.operands, List::new(self.alloc));
        self.sums.push(outer)?;
        self.add_operand()
    }

    fn add_operand(&mut self) -> Result<(), Memory>
        ensures { IfOk result (λ _. self.new ≡ spec.operand_added self.old) }
    {
        let operand = self.take_current();
        self.operands.push(operand)
    }

    fn end_sum(&mut self) -> Result<(), Memory>
        ensures { IfOk result (λ _. self.new ≡ spec.sum_ended self.old) }
    {
        let outer = self.sums.pop_or(List::new(self.alloc));
        self.current = Expression::Sum(replace(&mut self.operands, outer));
        Ok(())
    }

    fn negate(&mut self) -> Result<(), Memory>
        ensures { IfOk result (λ _. self.new ≡ spec.negated self.old) }
    {
        let operand = self.take_current();
        self.current = Expression::Negated(Boxed::new(self.alloc, operand)?);
        Ok(())
    }

    fn begin_row(&mut self) -> Result<(), Memory>
        ensures { IfOk result (λ _. self.new ≡ spec.row_begun self.old) }
    {
        let outer = replace(&mut self.members, List::new(self.alloc));
        self.rows.push(outer)
    }

    fn add_member(&mut self) -> Result<(), Memory>
        ensures { IfOk result (λ _. self.new ≡ spec.member_added self.old) }
    {
        let member = self.take_current();
        self.members.push(member)
    }

    fn end_row(&mut self) -> Result<(), Memory>
        ensures { IfOk result (λ _. self.new ≡ spec.row_ended self.old) }
    {
        let outer = self.rows.pop_or(List::new(self.alloc));
        self.current = Expression::Row(replace(&mut self.members, outer));
        Ok(())
    }

    fn read_number(&mut self, token: Mark) -> Result<(), Memory>
        ensures { IfOk result (λ _. self.new ≡ spec.number_read token self.old) }
    {
        self.current = Expression::Number(match token {
            Mark::Number(number) => number,
            _ => 0,
        });
        Ok(())
    }
}

impl Builder<Symbol, Vec<Mark>> for ExpressionBuilder {
    ghost use Rattle.std.proofs.Common.{refl};
    ghost use Rattle.token_grammar_examples.specs.Grammar.{expressions};
    ghost use Rattle.token_grammar_examples.specs.Values.{Value, expression_making};
    ghost use Rattle.token_grammar_examples.specs.declared.builder.ExpressionBuilder.{ExpressionBuilder};
    ghost use Rattle.token_grammar_examples.specs.Effects.{acts, passes, effect};
    ghost use Rattle.token_grammar_examples.specs.EffectsLaw.{expression_building};

    ghost grammar = { expressions };

    ghost Value = { Value };

    ghost making = { λ tokens. expression_making };

    ghost Built = { ExpressionBuilder };

    ghost built = { λ builder. builder };

    ghost takes = { λ tokens. acts };

    ghost passes = { passes };

    ghost effect = { λ tokens. effect };

    ghost Watched = { λ part token. Unit {0} };

    fn take(
        &mut self,
        _tokens: &Vec<Mark>,
        _number: usize,
        part: Symbol,
        token: Mark,
    ) -> Result<(), Memory> {
        match part {
            Taken(Number) => self.read_number(token),
            Taken(FirstPlus) => self.begin_sum(),
            Taken(OpenRow) => self.begin_row(),
            Taken(CloseRow) => self.end_row(),
            _ => Ok(()),
        }
    }

    fn pass(&mut self, part: Symbol) -> Result<(), Memory> {
        match part {
            Row(Join) => self.add_operand(),
            Row(More) => self.end_sum(),
            Row(Negate) => self.negate(),
            Row(Add) => self.add_member(),
            Row(Members | Others) => {
                self.take_current();
                Ok(())
            }
            _ => Ok(()),
        }
    }

    ghost reads = { refl };

    ghost watches = { λ before after part token sees. tt };

    ghost building = { λ tokens. expression_building };
}
