//! What the types of conditions keep: numbers are within their ranges, and texts valid. The functions only read what they are lent, and their
//! contracts say what is known of it then.

ghost use Rattle.std.specs.List.{AllByRecursion};
ghost use Rattle.values.specs.Short.{IsShort as IsShortValue};
ghost use Rattle.certificate_text.specs.Conditions.{terms_of};
ghost use Rattle.certificate_text.specs.Spelled.{IsReadableTerm, IsReadableValue};

use algebra::{Condition, Term};
use values::Value;

fn value_is_kept(value: &Value)
    requires { IsShortValue value.now }
    ensures { IsReadableValue value.now }
{
    match value {
        Value::Null | Value::Int(_) => {}
        Value::Text(own) => {
            let _text = own.as_str();
        }
    }
}

fn term_is_kept(term: &Term)
    ensures { IsReadableTerm term.now }
{
    match term {
        Term::Column(column) => {
            let _column = *column;
        }
        Term::Literal(literal) => value_is_kept(literal.value()),
    }
}

#[cycle(kept)]
#[tactic(auto, using(crate::proofs::KeptTerms::terms_compare, crate::proofs::KeptTerms::terms_is_null, crate::proofs::KeptTerms::terms_not, crate::proofs::KeptTerms::terms_and, crate::proofs::KeptTerms::terms_or, crate::proofs::KeptTerms::terms_exists, crate::proofs::KeptTerms::terms_in))]
fn condition_is_kept(condition: &Condition)
    ensures { AllByRecursion IsReadableTerm (terms_of condition.now) }
{
    match condition {
        Condition::Compare(_, a, b) => {
            term_is_kept(a);
            term_is_kept(b);
        }
        Condition::IsNull(a) => term_is_kept(a),
        Condition::Not(part) => condition_is_kept(part.get()),
        Condition::And(a, b, more) => {
            condition_is_kept(a.get());
            condition_is_kept(b.get());
            conditions_are_kept(more.as_slice());
        }
        Condition::Or(a, b, more) => {
            condition_is_kept(a.get());
            condition_is_kept(b.get());
            conditions_are_kept(more.as_slice());
        }
        Condition::Exists(class) => {
            let _class = *class;
        }
        Condition::In(a, class, column) => {
            term_is_kept(a);
            let _class = *class;
            let _column = *column;
        }
    }
}

#[cycle(kept)]
pub(crate) fn conditions_are_kept(conditions: &[Condition])
    ensures { AllByRecursion (λ c. AllByRecursion IsReadableTerm (terms_of c)) conditions.now }
{
    for condition in conditions {
        condition_is_kept(condition);
    }
}
