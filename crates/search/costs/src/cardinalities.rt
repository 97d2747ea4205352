//! How many rows the classes of a log are estimated to have.

ghost use Rattle.std.specs.Prelude.{◌≡◌, ◌≤◌, ◌<◌, ◌++◌, ℕ, [], length, map, option_map, reverse, slice_get, vec_len, IfOk};
ghost use Rattle.algebra.specs.declared.expr.Expr.TheVariants as expr;
ghost use Rattle.props.specs.Knowledge.{known, root_in};
ghost use Rattle.costs.specs.Cardinalities as spec;
ghost use Rattle.costs.specs.Equalities as equal;

use crate::condition_lists::{lent, passing, split, split_plain, with_others};
use crate::equalities::{Equation, both, counted, with_equations, within};
use crate::numbers::product;
use crate::tables::rows_of;
use algebra::{ClassId, Columns, Condition, Conjuncts, Expr, LineId};
use derivation::Line;
use logs::Log;
use props::KnownClasses;
use query::TableInstance;
use query::ids::id_of;
use statistics::Statistics;
use std::alloc::{AllocError, Global};
use std::marker::Model;
use values::Items;

/// The rows of the classes of a log, which contracts see as a list by the classes' numbers.
#[derive(Drop)]
pub struct Cardinalities {
    rows: Vec<u64>,
}

impl Model for Cardinalities {
    ghost use Rattle.std.specs.Prelude.{ℕ, List};

    ghost Value = { List ℕ };

    ghost view = { λ c. c.rows.items };
}

fn rows_at(rows: &[u64], class: ClassId) -> u64
    ensures { result ≡ spec.rows_at rows.now class }
{
    match rows.get(class as usize) {
        Some(rows) => *rows,
        None => 0,
    }
}

fn instance_rows(statistics: &Statistics, instances: &[TableInstance], instance: u32) -> u64
    ensures { result ≡ spec.instance_rows statistics.now (slice_get instances.now instance) }
{
    match instances.get(instance as usize) {
        Some(instance) => rows_of(statistics, instance),
        None => 0,
    }
}

fn groups(keys: &Columns, rows: u64) -> u64
    ensures { result ≡ spec.groups keys.now rows }
{
    if keys.as_slice().is_empty() {
        1
    } else {
        rows.div_ceil(10)
    }
}

/// What rows are estimated by: the statistics of the tables, what is known of the classes of a log, and lines of it with the rows of the classes that they
/// found and the columns that are equal in these.
#[derive(Clone, Copy)]
struct Estimator<'a> {
    statistics: &'a Statistics,
    instances: &'a [TableInstance],
    classes: KnownClasses<'a>,
    lines: &'a [Line],
    rows: &'a [u64],
    equations: &'a [Items<Equation>],
}

impl<'a> Estimator<'a> {
    /// The same by the lines before this one.
    fn before(self, line: LineId) -> Estimator<'a>
        requires rows { spec.HasRows self }
        requires within { line ≤ length self.lines.now }
        ensures { spec.IsBefore self.entry line result }
    {
        let count = line as usize;
        Estimator {
            statistics: self.statistics,
            instances: self.instances,
            classes: self.classes,
            lines: &self.lines[..count],
            rows: &self.rows[..count],
            equations: &self.equations[..count],
        }
    }

    /// Of so many rows, those that make all of the conditions true.
    fn passing(self, conditions: &[&Condition], rows: u64) -> u64
        ensures { result ≡ spec.passing self.entry.statistics.now self.entry.instances.now (map (λ c. c.now) conditions.now) rows }
    {
        passing(self.statistics, self.instances, conditions, rows)
    }

    /// Of so many rows in which columns are equal, those that make all of the conditions true.
    fn passing_counted(
        self,
        alloc: Global,
        equations: &[Equation],
        conditions: &[&Condition],
        rows: u64,
    ) -> Result<u64, AllocError>
        ensures { IfOk result (λ n. n ≡ spec.passing self.entry.statistics.now self.entry.instances.now (equal.counted equations.now (map (λ c. c.now) conditions.now)) rows) }
    {
        let counted = counted(alloc, equations, conditions)?;
        Ok(self.passing(counted.as_slice(), rows))
    }

    /// The equations of a class by its own line.
    fn own_equations(self, class: ClassId) -> &'a [Equation]
        requires { spec.HasRows self }
        ensures { result.now ≡ spec.own_equations_by self.entry class }
    {
        match self.equations.get(class as usize) {
            Some(equations) => equations.as_slice(),
            None => &[],
        }
    }

    /// The equations of the class that stands for this one and all that are the same.
    fn root_equations(self, class: ClassId) -> &'a [Equation]
        requires { spec.HasRows self }
        ensures { result.now ≡ spec.equations_by self.entry class }
    {
        self.own_equations(self.classes.root(class))
    }

    /// The rows of the class that stands for this one and all that are the same.
    fn root_rows(self, class: ClassId) -> u64
        requires { spec.HasRows self }
        ensures { result ≡ spec.own_rows_by self.entry (root_in self.entry.classes.sets.now self.entry.classes.roots.now class) [] }
    {
        rows_at(self.rows, self.classes.root(class))
    }
}

/// The expression of a line that founds a class.
fn founded(line: &Line) -> Option<&Expr>
    ensures { option_map (λ x. x.now) result ≡ spec.founded line.now }
{
    match line {
        Line::Founds(expr) => Some(expr),
        Line::Adds(_, _, _) | Line::Unites(_, _, _) | Line::Alike(_, _) | Line::Gives(_, _, _) => {
            None
        }
    }
}

/// The equations of an expression over classes of the lines.
fn expr_equations(
    alloc: Global,
    by: Estimator<'_>,
    expr: &Expr,
) -> Result<Vec<Equation>, AllocError>
    requires { spec.HasRows by }
    ensures { IfOk result (λ equations. equations.items ≡ spec.expr_equations (spec.equations_by by.entry) expr.now) }
{
    match expr {
        Expr::Get(_) => Ok(Vec::new(alloc)),
        Expr::Select(own, x) => {
            let own = lent(alloc, own.as_slice())?;
            with_equations(alloc, by.root_equations(*x), own.as_slice())
        }
        Expr::Join(on, a, b) => {
            let sides = both(alloc, by.root_equations(*a), by.root_equations(*b))?;
            let on = lent(alloc, on.as_slice())?;
            with_equations(alloc, sides.as_slice(), on.as_slice())
        }
        Expr::LeftJoin(_, x, _)
        | Expr::Semi(_, x, _)
        | Expr::Anti(_, _, x, _)
        | Expr::Distinct(x) => Vec::from_slice(alloc, by.root_equations(*x)),
        Expr::Keep(columns, x) | Expr::Group(columns, _, x) => {
            within(alloc, columns, by.root_equations(*x))
        }
    }
}

/// The equations that hold in the rows of both sides of a join, of each those of its rows at which conditions are true.
fn equations_of_sides(
    alloc: Global,
    by: Estimator<'_>,
    sides: (ClassId, ClassId),
    of_left: &[&Condition],
    of_right: &[&Condition],
) -> Result<Vec<Equation>, AllocError>
    requires { spec.HasRows by }
    ensures { IfOk result (λ all. all.items ≡ equal.with_equations (spec.equations_by by.entry sides.0) (map (λ c. c.now) of_left.now) ++ equal.with_equations (spec.equations_by by.entry sides.1) (map (λ c. c.now) of_right.now)) }
{
    let (left, right) = sides;
    let left = with_equations(alloc, by.root_equations(left), of_left)?;
    let right = with_equations(alloc, by.root_equations(right), of_right)?;
    both(alloc, left.as_slice(), right.as_slice())
}

/// The rows of an inner join at which conditions are true.
#[cycle(rows)]
fn join_rows<'c>(
    alloc: Global,
    by: Estimator<'c>,
    on: &'c Conjuncts,
    sides: (ClassId, ClassId),
    conditions: &[&'c Condition],
) -> Result<u64, AllocError>
    requires { spec.HasRows by }
    ensures { IfOk result (λ n. n ≡ spec.expr_rows_by by.entry (expr.Join on.entry.now sides.0 sides.1) (map (λ c. c.now) conditions.now)) }
{
    let (left, right) = sides;
    let (plain, others) = split_plain(alloc, conditions)?;
    let (of_left, rest) = split(alloc, by.classes, right, plain.as_slice())?;
    let (of_right, of_pairs) = split(alloc, by.classes, left, rest.as_slice())?;
    let equations = equations_of_sides(alloc, by, sides, of_left.as_slice(), of_right.as_slice())?;
    let left = class_rows(alloc, by, left, of_left.as_slice())?;
    let right = class_rows(alloc, by, right, of_right.as_slice())?;
    let on = with_others(alloc, on.as_slice(), of_pairs.as_slice())?;
    let pairs = by.passing_counted(
        alloc,
        equations.as_slice(),
        on.as_slice(),
        product(left, right),
    )?;
    Ok(by.passing(others.as_slice(), pairs))
}

/// The rows of a left join.
fn left_join_rows(
    alloc: Global,
    by: Estimator<'_>,
    on: &Conjuncts,
    sides: (ClassId, ClassId),
) -> Result<u64, AllocError>
    requires { spec.HasRows by }
    ensures { IfOk result (λ n. n ≡ spec.left_join_rows by.entry.statistics.now by.entry.instances.now (spec.equations_by by.entry) (λ g. spec.own_rows_by by.entry ((known by.entry.classes).root g)) on.now sides.0 sides.1) }
{
    let (left, right) = sides;
    let equations = both(alloc, by.root_equations(left), by.root_equations(right))?;
    let (left, right) = (by.root_rows(left), by.root_rows(right));
    let on = lent(alloc, on.as_slice())?;
    let pairs = by.passing_counted(
        alloc,
        equations.as_slice(),
        on.as_slice(),
        product(left, right),
    )?;
    Ok(left.max(pairs))
}

/// The rows of an expression over classes of the lines at which conditions are true. Its equations are these.
#[cycle(rows)]
fn expr_rows<'c>(
    alloc: Global,
    by: Estimator<'c>,
    expr: &'c Expr,
    equations: &[Equation],
    conditions: &[&'c Condition],
) -> Result<u64, AllocError>
    requires rows { spec.HasRows by }
    requires equations { equations.now ≡ spec.expr_equations (spec.equations_by by) expr.now }
    ensures { IfOk result (λ n. n ≡ spec.expr_rows_by by.entry expr.entry.now (map (λ c. c.now) conditions.now)) }
{
    match expr {
        Expr::Select(own, x) => {
            let all = with_others(alloc, own.as_slice(), conditions)?;
            class_rows(alloc, by, *x, all.as_slice())
        }
        Expr::Join(on, a, b) => join_rows(alloc, by, on, (*a, *b), conditions),
        Expr::Get(instance) => {
            let rows = instance_rows(by.statistics, by.instances, *instance);
            by.passing_counted(alloc, equations, conditions, rows)
        }
        Expr::LeftJoin(on, a, b) => {
            let rows = left_join_rows(alloc, by, on, (*a, *b))?;
            by.passing_counted(alloc, equations, conditions, rows)
        }
        Expr::Semi(_, a, _) | Expr::Anti(_, _, a, _) => {
            let rows = by.root_rows(*a).div_ceil(2);
            by.passing_counted(alloc, equations, conditions, rows)
        }
        Expr::Keep(_, x) => by.passing_counted(alloc, equations, conditions, by.root_rows(*x)),
        Expr::Distinct(x) => {
            let rows = by.root_rows(*x).div_ceil(10);
            by.passing_counted(alloc, equations, conditions, rows)
        }
        Expr::Group(keys, _, x) => {
            let rows = groups(keys, by.root_rows(*x));
            by.passing_counted(alloc, equations, conditions, rows)
        }
    }
}

/// The rows at which conditions are true of a class of the lines, by the line that founds the class that stands for it.
#[cycle(rows)]
fn class_rows<'c>(
    alloc: Global,
    by: Estimator<'c>,
    class: ClassId,
    conditions: &[&'c Condition],
) -> Result<u64, AllocError>
    requires { spec.HasRows by }
    ensures { IfOk result (λ n. n ≡ spec.own_rows_by by.entry (root_in by.entry.classes.sets.now by.entry.classes.roots.now class) (map (λ c. c.now) conditions.now)) }
{
    let root = by.classes.root(class);
    if conditions.is_empty() {
        return Ok(rows_at(by.rows, root));
    }
    let Some(line) = by.lines.get(root as usize) else {
        return Ok(0);
    };
    match founded(line) {
        Some(expr) => {
            let equations = by.own_equations(root);
            expr_rows(alloc, by.before(root), expr, equations, conditions)
        }
        None => Ok(0),
    }
}

/// The equations of the class that a line founds, over classes of the lines before it.
fn line_equations(
    alloc: Global,
    by: Estimator<'_>,
    line: &Line,
) -> Result<Vec<Equation>, AllocError>
    requires { spec.HasRows by }
    ensures { IfOk result (λ equations. equations.items ≡ spec.founded_equations (spec.equations_by by.entry) (spec.founded line.now)) }
{
    match founded(line) {
        Some(expr) => expr_equations(alloc, by, expr),
        None => Ok(Vec::new(alloc)),
    }
}

/// The rows of the class that a line founds, over classes of the lines before it. Its equations are these.
fn line_rows(
    alloc: Global,
    by: Estimator<'_>,
    line: &Line,
    equations: &[Equation],
) -> Result<u64, AllocError>
    requires rows { spec.HasRows by }
    requires equations { equations.now ≡ spec.founded_equations (spec.equations_by by) (spec.founded line.now) }
    ensures { IfOk result (λ n. n ≡ spec.line_rows by.entry.statistics.now by.entry.instances.now (known by.entry.classes) (spec.equations_by by.entry) (λ g. spec.own_rows_by by.entry ((known by.entry.classes).root g)) line.entry.now []) }
{
    match founded(line) {
        Some(expr) => expr_rows(alloc, by, expr, equations, &[]),
        None => Ok(0),
    }
}

/// The rows of each class by its own line.
fn own_rows(
    alloc: Global,
    statistics: &Statistics,
    instances: &[TableInstance],
    classes: KnownClasses<'_>,
    lines: &[Line],
) -> Result<Vec<u64>, AllocError>
    ensures { IfOk result (λ rows. (k : ℕ) → spec.rows_at rows.items k ≡ spec.own_rows statistics.now instances.now (known classes.entry) (reverse lines.now) k []) }
{
    let mut rows = Vec::with_capacity(alloc, lines.len())?;
    let mut equations = Vec::with_capacity(alloc, lines.len())?;
    for (number, line) in lines.iter().enumerate() {
        let by = Estimator {
            statistics,
            instances,
            classes,
            lines: &lines[..number],
            rows: rows.as_slice(),
            equations: equations.as_slice(),
        };
        let equal = line_equations(alloc, by, line)?;
        let own = line_rows(alloc, by, line, equal.as_slice())?;
        rows.push(own)?;
        equations.push(Items::from_vec(equal))?;
    }
    Ok(rows)
}

/// The rows of so many classes, each by the line of the class that stands for it.
fn shared_rows(
    alloc: Global,
    classes: KnownClasses<'_>,
    own: &[u64],
    count: usize,
) -> Result<Vec<u64>, AllocError>
    ensures { IfOk result (λ rows. spec.ShareRows (root_in classes.entry.sets.now classes.entry.roots.now) own.now count rows.items) }
{
    let mut rows = Vec::with_capacity(alloc, count)?;
    for class in 0..count {
        rows.push(rows_at(own, classes.root(id_of(class)?)))?;
    }
    Ok(rows)
}

impl Cardinalities {
    /// The rows of the classes of the log. It takes time in proportion to the lines and their conditions, and to the inner joins below each selection.
    pub fn of(
        alloc: Global,
        statistics: &Statistics,
        log: &Log<'_>,
    ) -> Result<Cardinalities, AllocError>
        ensures { IfOk result (λ rows. spec.AreRows statistics.now log.now.instances log.now.log rows) }
    {
        let classes = log.classes();
        let lines = log.lines();
        let own = own_rows(alloc, statistics, log.instances(), classes, lines)?;
        let rows = shared_rows(alloc, classes, own.as_slice(), lines.len())?;
        Ok(Cardinalities { rows })
    }

    /// The rows of a class; of a number that is no class's, none.
    pub fn rows(&self, class: ClassId) -> u64
        ensures { result ≡ spec.rows_at self.now class }
    {
        rows_at(self.rows.as_slice(), class)
    }
}
