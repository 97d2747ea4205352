//! Laws of what rules give: it may stand, and is made of few operators.

ghost use Rattle.derivation.specs.Logs.{founds, knowledge};
ghost use Rattle.book.specs.Book.{BookIsFormed};
ghost use Rattle.rules.specs.Formed.{Rises};
ghost use Rattle.bindings.specs.Bindings.{GivesBinding};
ghost use Rattle.bindings.specs.Founding.{IsResultBehind};
ghost use Rattle.bindings.specs.Shallow.{BookIsShallow};

use crate::binding::Binding;
use algebra::Expr;
use logs::Log;

/// The columns that an expression keeps, and those of its input, rise. This does nothing: that they do is known of each set of columns.
fn rises(log: &Log<'_>, expr: &Expr)
    ensures { Rises log.now.instances log.now.own (knowledge log.now.instances log.now.log) (founds log.now.log) expr.now }
{
    match expr {
        Expr::Keep(columns, input) => {
            let _kept = columns.as_slice();
            if let Some(input) = log.classes().columns.columns.get(*input as usize) {
                let _input = input.as_slice();
            }
        }
        Expr::Group(keys, _, _) => {
            let _keys = keys.as_slice();
        }
        _ => {}
    }
}

/// What the rule of a binding gives may stand, whatever classes are founded first. This does nothing: its contract is the law.
#[tactic(auto, using(crate::proofs::Results::top_there))]
pub fn result_may_stand(log: &Log<'_>, binding: Binding)
    requires { GivesBinding log.now.instances log.now.log binding }
    ensures { IsResultBehind log.now binding }
{
    let _lines = log.lines();
    let Some(top) = log.member(binding.lines.top()) else {
        unreachable!()
    };
    rises(log, top.expr);
}

/// Of lines that may stand each rule gives what may stand too, with the columns of the top line's class. This does nothing: its contract is the law.
pub fn results_may_stand()
    ensures { BookIsFormed }
{}

/// What a rule gives has three operators at most. This does nothing: its contract is the law.
pub fn results_are_shallow()
    ensures { BookIsShallow }
{}
