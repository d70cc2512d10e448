//! Where statements begin.

ghost use Rattle.std.specs.Prelude.{◌≡◌};
ghost use Rattle.plural_syntax.specs.declared.tree.Expr.{out-Expr};
ghost use Rattle.script_model.specs.Evaluation.{expr_start, start_of as start};

use plural_lexer::Token;
use plural_syntax::{Base, Expr, Statement};

/// The line of a statement's first token.
pub fn line_of(statement: &Statement) -> u32
    ensures { result ≡ (start statement.now).line }
{
    match statement {
        Statement::Empty { semicolon } => semicolon.line,
        Statement::Ring { keyword, .. }
        | Statement::SetRing { keyword, .. }
        | Statement::NcAlgebra { keyword, .. }
        | Statement::Def { keyword, .. }
        | Statement::Poly { keyword, .. }
        | Statement::Ideal { keyword, .. }
        | Statement::Module { keyword, .. }
        | Statement::Matrix { keyword, .. }
        | Statement::Option { keyword, .. }
        | Statement::Short { keyword, .. }
        | Statement::Quit { keyword, .. } => keyword.line,
        Statement::Assign { name, .. } | Statement::AssignEntry { name, .. } => name.line,
        Statement::Print { value, .. } => expr_start(value.get()).line,
    }
}

// The first token of an expression.
fn expr_start(expr: &Expr) -> Token
    ensures { result ≡ expr_start (out-Expr expr.now).sign expr.now }
{
    if let Some(sign) = expr.sign {
        return sign;
    }
    match &expr.first.first.base {
        Base::Int { number } => *number,
        Base::Name { name, .. } => *name,
        Base::Group { opening, .. } => *opening,
        Base::Call { name, .. } => name.token,
    }
}
