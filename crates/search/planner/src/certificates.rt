//! The certificate that follows a query's frame, operator by operator.

ghost use Rattle.std.specs.Prelude.{◌≡◌, ◌<◌, IfOk, Ok, true, length, map};
ghost use Rattle.frame.specs.Frames.{is_framed};
ghost use Rattle.derivation.specs.declared.line.Line.TheVariants.{Founds};
ghost use Rattle.certificate.specs.Replay.{replayed};
ghost use Rattle.planner.specs.Canonical as spec;

use algebra::{ClassId, Expr};
use certificate::Certificate;
use derivation::{Line, copy_expr};
use physical::{GroupMethod, JoinMethod, Matching, Node, Operator, OrderKey, Plan};
use prepared_query::PreparedQuery;
use query::ids::id_of;
use std::alloc::{AllocError, Global};
use values::Items;

/// The operator that implements an expression.
fn operator_of(alloc: Global, expr: &Expr) -> Result<Operator, AllocError>
    requires { is_framed expr.now ≡ true }
    ensures { IfOk result (spec.IsBasicOf expr.now) }
{
    match expr {
        Expr::Get(instance) => {
            let instance = *instance;
            Ok(Operator::Scan { instance })
        }
        Expr::Select(own, _) => {
            let conjuncts = own.copy(alloc)?;
            if own.is_plain() {
                Ok(Operator::Filter { conjuncts })
            } else {
                Ok(Operator::FilterSubqueries { conjuncts })
            }
        }
        Expr::Join(own, _, _) => Ok(Operator::JoinRows {
            method: JoinMethod::NestedLoop,
            matching: Matching::Inner(own.copy(alloc)?),
        }),
        Expr::LeftJoin(own, _, _) => Ok(Operator::JoinRows {
            method: JoinMethod::NestedLoop,
            matching: Matching::Left(own.copy(alloc)?),
        }),
        Expr::Semi(_, _, _) | Expr::Anti(_, _, _, _) => unreachable!(),
        Expr::Keep(own, _) => Ok(Operator::Projection {
            columns: own.copy(alloc)?,
        }),
        Expr::Distinct(_) => Ok(Operator::DistinctRows {
            method: GroupMethod::Hash,
        }),
        Expr::Group(own, added, _) => Ok(Operator::GroupRows {
            method: GroupMethod::Hash,
            keys: own.copy(alloc)?,
            added: added.copy(alloc)?,
        }),
    }
}

/// The plan of a class: the operator of its line, over the plans of the classes that the line names.
fn plan_of(alloc: Global, frame: &[Expr], class: ClassId) -> Result<Plan, AllocError>
    requires earlier { spec.NameEarlier frame.now }
    requires class { class < length frame.now }
    ensures { IfOk result (spec.IsPlanOf frame.now class) }
{
    let expr = &frame[class as usize];
    let classes = expr.inputs(alloc)?;
    let mut inputs = Items::new(alloc);
    for input in classes.as_slice() {
        inputs.push(plan_of(alloc, frame, *input)?)?;
    }
    let operator = operator_of(alloc, expr)?;
    let node = Node::Implements {
        line: class,
        operator,
    };
    Ok(Plan { node, inputs })
}

/// The plan with a sort by the keys, if there are any.
fn sorted(alloc: Global, keys: Items<OrderKey>, plan: Plan) -> Result<Plan, AllocError>
    ensures { IfOk result (λ sorted. sorted ≡ spec.top keys plan) }
{
    if keys.is_empty() {
        return Ok(plan);
    }
    let mut inputs = Items::new(alloc);
    inputs.push(plan)?;
    Ok(Plan {
        node: Node::Sort { keys },
        inputs,
    })
}

/// The lines that found a query's classes.
fn lines_of(alloc: Global, frame: &[Expr]) -> Result<Items<Line>, AllocError>
    ensures { IfOk result (λ lines. lines ≡ map Founds frame.now) }
{
    let mut lines = Items::new(alloc);
    for expr in frame {
        lines.push(Line::Founds(copy_expr(alloc, expr)?))?;
    }
    Ok(lines)
}

/// The certificate whose lines are the query's frame and whose plan follows it, with the sort of the ORDER BY on top.
pub fn canonical(alloc: Global, query: &PreparedQuery<'_>) -> Result<Certificate, AllocError>
    ensures canonical { IfOk result (spec.IsCanonical query.now) }
    ensures replays { IfOk result (λ certificate. replayed query.now certificate ≡ Ok certificate) }
    ensures only { IfOk result (spec.IsOnlyCanonical query.now) }
{
    // its contract says that it is bound
    let _query = query.query();
    let order = Items::from_vec(Vec::from_slice(alloc, query.order())?);
    let frame = query.frame();
    let root = id_of(frame.len() - 1)?;
    let below = plan_of(alloc, frame, root)?;
    let plan = sorted(alloc, order, below)?;
    let lines = lines_of(alloc, frame)?;
    Ok(Certificate { lines, plan })
}
