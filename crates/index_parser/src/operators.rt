//! The operators among the tokens.
ghost use Rattle.std.specs.Prelude.{◌≡◌};
ghost use Rattle.exact_parse.specs.Steps.{head};
ghost use Rattle.index_grammar.specs.ExpressionReading.{operator_at as spec_operator_at, sign_at as spec_sign_at};
ghost use Rattle.index_grammar.specs.Operators.{operator_as, sign_as, level_of as spec_level_of};

use index_tokens::Token;
use index_tree::{BinaryOp, UnaryOp};
use token_reader::Tokens;

fn operator(token: &Token) -> Option<BinaryOp>
    ensures { result ≡ operator_as token.now }
{
    let operator = match token {
        Token::OrOr => BinaryOp::Or,
        Token::AndAnd => BinaryOp::And,
        Token::Equals => BinaryOp::Equal,
        Token::NotEquals => BinaryOp::NotEqual,
        Token::Below => BinaryOp::Below,
        Token::AtMost => BinaryOp::AtMost,
        Token::Above => BinaryOp::Above,
        Token::AtLeast => BinaryOp::AtLeast,
        Token::Plus => BinaryOp::Plus,
        Token::Dash => BinaryOp::Minus,
        Token::Star => BinaryOp::Times,
        Token::Slash => BinaryOp::Over,
        Token::Percent => BinaryOp::Rest,
        _ => return None,
    };
    Some(operator)
}

fn sign(token: &Token) -> Option<UnaryOp>
    ensures { result ≡ sign_as token.now }
{
    match token {
        Token::Bang => Some(UnaryOp::Bang),
        Token::Dash => Some(UnaryOp::Minus),
        _ => None,
    }
}

// How loosely an operator binds, from 1 on.
fn level_of(operator: BinaryOp) -> usize
    ensures { result ≡ spec_level_of operator }
{
    match operator {
        BinaryOp::Times | BinaryOp::Over | BinaryOp::Rest => 1,
        BinaryOp::Plus | BinaryOp::Minus => 2,
        BinaryOp::Below | BinaryOp::AtMost | BinaryOp::Above | BinaryOp::AtLeast => 3,
        BinaryOp::Equal | BinaryOp::NotEqual => 4,
        BinaryOp::And => 5,
        BinaryOp::Or => 6,
    }
}

/// The operator between two operands that comes next, if it is of this level.
pub fn operator_at(tokens: &Tokens<'_>, level: usize) -> Option<BinaryOp>
    ensures { result ≡ spec_operator_at level (head tokens.now.rest.now) }
{
    let operator = operator(&tokens.rest.first()?.token)?;
    if level_of(operator) == level {
        Some(operator)
    } else {
        None
    }
}

/// The operator before an operand that comes next.
pub fn sign_at(tokens: &Tokens<'_>) -> Option<UnaryOp>
    ensures { result ≡ spec_sign_at (head tokens.now.rest.now) }
{
    sign(&tokens.rest.first()?.token)
}
