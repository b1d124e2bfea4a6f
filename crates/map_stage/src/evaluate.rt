//! The values of expressions.
ghost use Rattle.std.specs.Prelude.{IfOk};
ghost use Rattle.index_tree.specs.Trees.{Binary, Dot, If, Load, Unary};
ghost use Rattle.index_tree.specs.declared.expression.BinaryOp.TheVariants.{And, Or};
ghost use Rattle.index_tree.specs.Evaluate.{as_flag, in_turn};
ghost use Rattle.map_stage.specs.Reached.{Does, value_under};

use crate::held::Held;
use crate::load::load;
use crate::lookup::Lookup;
use crate::operator::{binary, part_of, unary};
use crate::scene::{Scene, value_of};
use index_tree::{BinaryOp, Expr, ExprKind, UnaryOp};
use raven_base::NoMemory;
use raven_value::{Ids, Text};
use std::borrow::Cow;

impl<'a, T: Lookup> Scene<'a, T> {
    /// The value of an expression, or nothing if the document fails. The ids that it asks for are added to those asked for before.
    #[cycle(evaluate)]
    pub fn evaluate(&self, expr: &'a Expr, asked: &mut Ids) -> Result<Option<Held<'a>>, NoMemory>
        ensures { IfOk result (Does (value_under (T.rows self.now.rows.now) self.now.bound.items expr.now) asked.old asked.new) }
    {
        match expr.kind() {
            ExprKind::If(test, value, other) => self.choose(test, value, other, asked),
            ExprKind::Binary(BinaryOp::Or, left, right) => self.either(left, right, asked),
            ExprKind::Binary(BinaryOp::And, left, right) => self.both(left, right, asked),
            ExprKind::Binary(op, left, right) => self.combine(*op, left, right, asked),
            ExprKind::Unary(op, operand) => self.apply(*op, operand, asked),
            ExprKind::Dot(holder, name) => self.part(holder, name, asked),
            ExprKind::Load(id, collection) => self.load(id, collection, asked),
            ExprKind::Num(number) => Ok(Some(Held::Num(*number))),
            ExprKind::Text(text) => Ok(Some(Held::Text(Cow::Borrowed(text)))),
            ExprKind::Flag(flag) => Ok(Some(Held::Flag(*flag))),
            ExprKind::Null => Ok(Some(Held::Null)),
            ExprKind::Var(name) => Ok(Some(value_of(&self.bound, name)?)),
        }
    }

    #[cycle(evaluate)]
    fn choose(
        &self,
        test: &'a Expr,
        value: &'a Expr,
        other: &'a Expr,
        asked: &mut Ids,
    ) -> Result<Option<Held<'a>>, NoMemory>
        ensures { IfOk result (Does (value_under (T.rows self.now.rows.now) self.now.bound.items (If test.now value.now other.now)) asked.old asked.new) }
    {
        let Some(held) = self.evaluate(test, asked)? else {
            return Ok(None);
        };
        if held.is_true() {
            self.evaluate(value, asked)
        } else {
            self.evaluate(other, asked)
        }
    }

    #[cycle(evaluate)]
    fn either(
        &self,
        left: &'a Expr,
        right: &'a Expr,
        asked: &mut Ids,
    ) -> Result<Option<Held<'a>>, NoMemory>
        ensures { IfOk result (Does (value_under (T.rows self.now.rows.now) self.now.bound.items (Binary Or left.now right.now)) asked.old asked.new) }
    {
        let Some(held) = self.evaluate(left, asked)? else {
            return Ok(None);
        };
        if held.is_true() {
            return Ok(Some(Held::Flag(true)));
        }
        self.flag(right, asked)
    }

    #[cycle(evaluate)]
    fn both(
        &self,
        left: &'a Expr,
        right: &'a Expr,
        asked: &mut Ids,
    ) -> Result<Option<Held<'a>>, NoMemory>
        ensures { IfOk result (Does (value_under (T.rows self.now.rows.now) self.now.bound.items (Binary And left.now right.now)) asked.old asked.new) }
    {
        let Some(held) = self.evaluate(left, asked)? else {
            return Ok(None);
        };
        if !held.is_true() {
            return Ok(Some(Held::Flag(false)));
        }
        self.flag(right, asked)
    }

    #[cycle(evaluate)]
    fn flag(&self, expr: &'a Expr, asked: &mut Ids) -> Result<Option<Held<'a>>, NoMemory>
        ensures { IfOk result (Does (as_flag (value_under (T.rows self.now.rows.now) self.now.bound.items expr.now)) asked.old asked.new) }
    {
        let Some(held) = self.evaluate(expr, asked)? else {
            return Ok(None);
        };
        Ok(Some(Held::Flag(held.is_true())))
    }

    #[cycle(evaluate)]
    fn combine(
        &self,
        op: BinaryOp,
        left: &'a Expr,
        right: &'a Expr,
        asked: &mut Ids,
    ) -> Result<Option<Held<'a>>, NoMemory>
        ensures { IfOk result (Does (in_turn op (value_under (T.rows self.now.rows.now) self.now.bound.items left.now) (value_under (T.rows self.now.rows.now) self.now.bound.items right.now)) asked.old asked.new) }
    {
        let Some(first) = self.evaluate(left, asked)? else {
            return Ok(None);
        };
        let Some(second) = self.evaluate(right, asked)? else {
            return Ok(None);
        };
        binary(self.alloc, op, &first, &second)
    }

    #[cycle(evaluate)]
    fn apply(
        &self,
        op: UnaryOp,
        operand: &'a Expr,
        asked: &mut Ids,
    ) -> Result<Option<Held<'a>>, NoMemory>
        ensures { IfOk result (Does (value_under (T.rows self.now.rows.now) self.now.bound.items (Unary op operand.now)) asked.old asked.new) }
    {
        let Some(held) = self.evaluate(operand, asked)? else {
            return Ok(None);
        };
        Ok(unary(op, &held))
    }

    #[cycle(evaluate)]
    fn part(
        &self,
        holder: &'a Expr,
        name: &'a Text,
        asked: &mut Ids,
    ) -> Result<Option<Held<'a>>, NoMemory>
        ensures { IfOk result (Does (value_under (T.rows self.now.rows.now) self.now.bound.items (Dot holder.now name.now)) asked.old asked.new) }
    {
        let Some(held) = self.evaluate(holder, asked)? else {
            return Ok(None);
        };
        Ok(Some(part_of(self.alloc, &held, name)?))
    }

    #[cycle(evaluate)]
    fn load(
        &self,
        id: &'a Expr,
        collection: &'a Text,
        asked: &mut Ids,
    ) -> Result<Option<Held<'a>>, NoMemory>
        ensures { IfOk result (Does (value_under (T.rows self.now.rows.now) self.now.bound.items (Load id.now collection.now)) asked.old asked.new) }
    {
        let Some(held) = self.evaluate(id, asked)? else {
            return Ok(None);
        };
        Ok(Some(load(self.alloc, self.rows, collection, &held, asked)?))
    }
}
