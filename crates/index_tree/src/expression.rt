//! Expressions.
ghost use Rattle.std.specs.Prelude.{◌≡◌, IfOk};
ghost use Rattle.index_tree.specs.View.{tree_of};

use raven_base::NoMemory;
use raven_value::Text;
use std::alloc::Global;
use std::marker::Model;

/// An operator between two operands.
#[derive(Clone, Copy, Drop)]
pub enum BinaryOp {
    /// `||`
    Or,
    /// `&&`
    And,
    /// `==`
    Equal,
    /// `!=`
    NotEqual,
    /// `<`
    Below,
    /// `<=`
    AtMost,
    /// `>`
    Above,
    /// `>=`
    AtLeast,
    /// `+`
    Plus,
    /// `-`
    Minus,
    /// `*`
    Times,
    /// `/`
    Over,
    /// `%`
    Rest,
}

/// An operator before its operand.
#[derive(Clone, Copy, Drop)]
pub enum UnaryOp {
    /// `!`
    Bang,
    /// `-`
    Minus,
}

/// An expression, seen by contracts as a plain tree.
#[cycle(expression)]
pub struct Expr {
    kind: Box<ExprKind>,
}

// Opaque drop: see raven_base.
impl Drop for Expr {
    #[cycle(dropped)]
    fn drop(self) {
        let Expr { kind: _kind } = self;
    }
}

/// What an expression is.
#[cycle(expression)]
pub enum ExprKind {
    /// `test ? value : other`
    If(Expr, Expr, Expr),
    /// Two operands with an operator between them.
    Binary(BinaryOp, Expr, Expr),
    /// An operand after an operator.
    Unary(UnaryOp, Expr),
    /// A member of a value.
    Dot(Expr, Text),
    /// The document of this id, if it is in that collection.
    Load(Expr, Text),
    /// A number, from 0 on if it is read from a text.
    Num(i64),
    /// A text.
    Text(Text),
    /// A flag.
    Flag(bool),
    /// `null`
    Null,
    /// A variable.
    Var(Text),
}

// Opaque drop: see raven_base.
impl Drop for ExprKind {
    #[cycle(dropped)]
    fn drop(self) {
        match self {
            ExprKind::If(_first, _second, _third) => {}
            ExprKind::Binary(_first, _second, _third) => {}
            ExprKind::Unary(_first, _second) => {}
            ExprKind::Dot(_first, _second) => {}
            ExprKind::Load(_first, _second) => {}
            ExprKind::Num(_value) => {}
            ExprKind::Text(_value) => {}
            ExprKind::Flag(_value) => {}
            ExprKind::Null => {}
            ExprKind::Var(_value) => {}
        }
    }
}

impl Model for Expr {
    ghost use Rattle.index_tree.specs.Trees.{Tree};
    ghost use Rattle.index_tree.specs.TreeCode.{tree_code};

    ghost Value = { Tree };

    ghost coded = { tree_code };

    ghost use Rattle.index_tree.specs.View.{tree_of};

    ghost view = { λ a. tree_of a.kind.value };

    ghost use Rattle.index_tree.specs.Trees.{height};

    ghost size = { height };
}

impl Expr {
    /// An expression of this kind.
    pub fn of(alloc: Global, kind: ExprKind) -> Result<Expr, NoMemory>
        ensures { IfOk result (λ e. e ≡ tree_of kind) }
    {
        Ok(Expr {
            kind: Box::new(alloc, kind)?,
        })
    }

    /// What it is.
    pub fn kind(&self) -> &ExprKind
        ensures { tree_of result.now ≡ self.now }
    {
        &self.kind
    }
}
