//! The nodes of a plan against a log.

ghost use Rattle.std.specs.Prelude.{◌≡◌, ◌+◌, ◌==◌, ◌&&◌, ◌∷◌, [], IfOk, length, map, Ok};
ghost use Rattle.values.specs.Faults.{Gives, wanted_if};
ghost use Rattle.values.specs.declared.fault.Fault.TheVariants.{Refused};
ghost use Rattle.algebra.specs.Columns.{has, columns_at};
ghost use Rattle.physical.specs.EachOrder as each;
ghost use Rattle.physical.specs.Orders.{are_columns};
ghost use Rattle.certificate.specs.declared.certificate.CheckReason.TheVariants.{OtherOperator};
ghost use Rattle.certificate.specs.declared.certificate.CheckRefusal.{CheckRefusal};
ghost use Rattle.certificate.specs.Replay as spec;

use crate::certificate::{CheckFault, CheckReason, CheckRefusal};
use crate::index_fit::{index_fits, names_lines};
use crate::join_fit::{join_implements, joined_classes};
use crate::needed::needed_classes;
use crate::order_fit::{inputs_sorted, is_delivered};
use algebra::{ClassId, Columns, Conjuncts, Expr, LineId};
use logs::Log;
use physical::node_orders::{Delivered, each_order};
use physical::{Node, Operator, OrderKey, Plan};
use query::{ColumnId, Query};
use std::alloc::{AllocError, Global};
use values::Fault;

/// What the nodes of a plan are judged by: a log, and the columns of its classes.
#[derive(Clone, Copy)]
struct Derived<'a, 'q> {
    log: &'a Log<'q>,
    columns: &'a [Columns],
}

/// What a fault of a line or node is.
pub fn refused(line: usize, reason: CheckReason) -> CheckFault
    ensures { result ≡ Refused (spec.refusal line reason) }
{
    Fault::Refused(CheckRefusal { line, reason })
}

/// Whether an operator computes an expression over classes with these columns from what its inputs produce.
pub fn implements(
    alloc: Global,
    columns: &[Columns],
    operator: &Operator,
    expr: &Expr,
) -> Result<bool, AllocError>
    ensures { IfOk result (λ r. r ≡ spec.implements (columns_at columns.now) operator.now expr.now) }
{
    match (operator, expr) {
        (Operator::Scan { instance }, Expr::Get(own)) => Ok(*instance == *own),
        (Operator::IndexScan { conjuncts, .. }, Expr::Get(_)) => Ok(conjuncts.same(&Conjuncts::none(
            alloc,
        ))),
        (Operator::IndexScan { conjuncts, .. }, Expr::Select(own, _)) => Ok(
            own.is_plain() && conjuncts.same(own),
        ),
        (Operator::Filter { conjuncts }, Expr::Select(own, _)) => Ok(
            own.is_plain() && conjuncts.same(own),
        ),
        (Operator::FilterSubqueries { conjuncts }, Expr::Select(own, _)) => Ok(
            !own.is_plain() && conjuncts.same(own),
        ),
        (Operator::Projection { columns }, Expr::Keep(own, _)) => Ok(columns.same(own)),
        (Operator::JoinRows { method, matching }, _) => {
            join_implements(alloc, columns, *method, matching, expr)
        }
        (Operator::IndexJoin { matching, .. }, _) => Ok(joined_classes(matching, expr).is_some()),
        (Operator::GroupRows { keys, added, .. }, Expr::Group(own, others, _)) => Ok(
            keys.same(own) && added.same(others),
        ),
        (Operator::DistinctRows { .. }, Expr::Distinct(_)) => Ok(true),
        _ => Ok(false),
    }
}

/// Whether the class has the column.
fn is_column(columns: &[Columns], class: ClassId, column: ColumnId) -> bool
    ensures { result ≡ has (columns_at columns.now class) column }
{
    match columns.get(class as usize) {
        Some(own) => own.contains(column),
        None => false,
    }
}

/// Whether the class has the columns of the keys.
pub fn are_columns(columns: &[Columns], class: ClassId, keys: &[OrderKey]) -> bool
    ensures { result ≡ are_columns (columns_at columns.now class) keys.now }
{
    keys.iter().all(|key| is_column(columns, class, key.column))
}

/// The class of the only input of a sort of the class.
fn sort_fits(
    alloc: Global,
    columns: &[Columns],
    keys: &[OrderKey],
    inputs: usize,
    class: ClassId,
    number: usize,
) -> Result<Vec<ClassId>, CheckFault>
    ensures classes { Gives (λ classes. classes.items) result (spec.sort_fits (columns_at columns.now) keys.now inputs class number) }
    ensures count { IfOk result (λ classes. length classes.items ≡ inputs) }
{
    if !are_columns(columns, class, keys) {
        return Err(refused(number, CheckReason::IllFormed));
    }
    only_input(alloc, inputs, class, number)
}

/// The class alone, where there is one input.
fn only_input(
    alloc: Global,
    inputs: usize,
    class: ClassId,
    number: usize,
) -> Result<Vec<ClassId>, CheckFault>
    ensures classes { Gives (λ classes. classes.items) result (wanted_if (spec.refusal number OtherOperator) (inputs == 1) (class ∷ [])) }
    ensures count { IfOk result (λ classes. length classes.items ≡ inputs) }
{
    if inputs != 1 {
        return Err(refused(number, CheckReason::OtherOperator));
    }
    let mut classes = Vec::new(alloc);
    classes.push(class)?;
    Ok(classes)
}

/// Whether an operator of a line with the expression, over so many inputs, computes it.
fn operator_is_of(
    alloc: Global,
    derived: Derived<'_, '_>,
    line: LineId,
    operator: &Operator,
    expr: &Expr,
) -> Result<bool, AllocError>
    ensures { IfOk result (λ r. r ≡ (spec.implements (columns_at derived.entry.columns.now) operator.now expr.now && spec.index_fits derived.entry.log.now.instances derived.entry.log.now.log line operator.now expr.now)) }
{
    if !implements(alloc, derived.columns, operator, expr)? {
        return Ok(false);
    }
    index_fits(alloc, derived.log, line, operator, expr)
}

/// The classes of the inputs that an operator needs, where it implements this line of the class.
fn operator_fits(
    alloc: Global,
    derived: Derived<'_, '_>,
    line: LineId,
    operator: &Operator,
    inputs: usize,
    class: ClassId,
    number: usize,
) -> Result<Vec<ClassId>, CheckFault>
    ensures classes { Gives (λ classes. classes.items) result (spec.operator_fits derived.entry.log.now.instances derived.entry.log.now.log (columns_at derived.entry.columns.now) line operator.now inputs class number) }
    ensures count { IfOk result (λ classes. length classes.items ≡ inputs) }
{
    let names = (line as usize) < derived.log.len() && names_lines(alloc, derived.log, operator)?;
    if !names {
        return Err(refused(number, CheckReason::UnknownLine));
    }
    let Some(member) = derived.log.member(line) else {
        return Err(refused(number, CheckReason::OtherOperator));
    };
    let expr = member.expr;
    if !derived.log.are_same(member.class, class)
        || !operator_is_of(alloc, derived, line, operator, expr)?
    {
        return Err(refused(number, CheckReason::OtherOperator));
    }
    as_many_inputs(alloc, operator, expr, inputs, number)
}

/// The classes of the inputs that an operator needs, where there are so many.
fn as_many_inputs(
    alloc: Global,
    operator: &Operator,
    expr: &Expr,
    inputs: usize,
    number: usize,
) -> Result<Vec<ClassId>, CheckFault>
    ensures classes { Gives (λ classes. classes.items) result (wanted_if (spec.refusal number OtherOperator) (inputs == length (spec.needed_classes operator.now expr.now)) (spec.needed_classes operator.now expr.now)) }
    ensures count { IfOk result (λ classes. length classes.items ≡ inputs) }
{
    let classes = needed_classes(alloc, operator, expr)?;
    if inputs == classes.len() {
        Ok(classes)
    } else {
        Err(refused(number, CheckReason::OtherOperator))
    }
}

/// The classes of the inputs that a node needs, where it is of the class.
fn node_fits(
    alloc: Global,
    derived: Derived<'_, '_>,
    node: &Node,
    inputs: usize,
    class: ClassId,
    number: usize,
) -> Result<Vec<ClassId>, CheckFault>
    ensures classes { Gives (λ classes. classes.items) result (spec.node_fits derived.entry.log.now.instances derived.entry.log.now.log (columns_at derived.entry.columns.now) node.now inputs class number) }
    ensures count { IfOk result (λ classes. length classes.items ≡ inputs) }
{
    match node {
        Node::Implements { line, operator } => {
            operator_fits(alloc, derived, *line, operator, inputs, class, number)
        }
        Node::Sort { keys } => {
            sort_fits(
                alloc,
                derived.columns,
                keys.as_slice(),
                inputs,
                class,
                number,
            )
        }
    }
}

/// The number after this one. A plan with more nodes than there are numbers has no room in memory.
fn next(number: usize) -> Result<usize, CheckFault>
    ensures { Gives {R = CheckRefusal} (λ n. n) result (Ok (number + 1)) }
{
    match number.checked_add(1) {
        Some(next) => Ok(next),
        None => Err(Fault::Memory),
    }
}

/// Checks that the plan is of the class, its nodes being numbered from a number on, and that it is ordered as is wanted.
/// Gives the number after them.
#[cycle(fits)]
#[tactic(auto, using(crate::proofs::Fits::plan_fits_out, physical::proofs::DeliveredOrders::inputs_at, physical::proofs::DeliveredOrders::orders_at))]
fn plan_fits(
    alloc: Global,
    derived: Derived<'_, '_>,
    plan: &Plan,
    delivered: &Delivered,
    ordered: bool,
    class: ClassId,
    number: usize,
) -> Result<usize, CheckFault>
    requires { delivered.now ≡ each.each_order derived.log.now.instances plan.now }
    ensures { Gives (λ n. n) result (spec.plan_fits derived.entry.log.now.instances derived.entry.log.now.log (columns_at derived.entry.columns.now) plan.now ordered class number) }
{
    let inputs = plan.inputs.as_slice();
    let classes = node_fits(alloc, derived, &plan.node, inputs.len(), class, number)?;
    let orders = delivered.inputs.as_slice();
    if !inputs_sorted(
        alloc,
        derived.columns,
        &plan.node,
        classes.as_slice(),
        orders,
    )? {
        return Err(refused(number, CheckReason::UnsortedInput));
    }
    if !ordered {
        return Err(refused(number, CheckReason::UnsortedAnswer));
    }
    inputs_fit(
        alloc,
        derived,
        inputs,
        orders,
        classes.as_slice(),
        next(number)?,
    )
}

#[cycle(fits)]
fn inputs_fit(
    alloc: Global,
    derived: Derived<'_, '_>,
    inputs: &[Plan],
    delivered: &[Delivered],
    classes: &[ClassId],
    number: usize,
) -> Result<usize, CheckFault>
    requires count { length inputs.now ≡ length classes.now }
    requires orders { delivered.now ≡ map (each.each_order derived.log.now.instances) inputs.now }
    ensures { Gives (λ n. n) result (spec.inputs_fit (map (spec.plan_fits derived.entry.log.now.instances derived.entry.log.now.log (columns_at derived.entry.columns.now)) inputs.now) classes.now number) }
{
    let mut after = number;
    for i in 0..inputs.len() {
        after = plan_fits(
            alloc,
            derived,
            &inputs[i],
            &delivered[i],
            true,
            classes[i],
            after,
        )?;
    }
    Ok(after)
}

/// Checks that a plan is of the query's class, the last of its frame, in a log that begins with the frame, and that it delivers the
/// ORDER BY. Else the first fault of its nodes is reported, which are numbered on from the lines, each before its inputs. A plan with
/// more nodes than there are numbers has no room in memory, and is reported so.
pub fn fit(
    alloc: Global,
    query: &Query,
    root: ClassId,
    log: &Log<'_>,
    plan: &Plan,
) -> Result<(), CheckFault>
    requires instances { log.now.instances ≡ query.now.tables }
    requires root { root ≡ spec.root query.now }
    ensures { Gives (λ _. plan.now) result (spec.fitted_plan query.now log.now.log plan.now) }
{
    let delivered = each_order(alloc, query.tables.as_slice(), plan)?;
    let ordered = is_delivered(alloc, query, delivered.order.as_slice())?;
    let derived = Derived {
        log,
        columns: log.classes().columns.columns,
    };
    plan_fits(alloc, derived, plan, &delivered, ordered, root, log.len())?;
    Ok(())
}
