//! What is known by the lines of a log.

ghost use Rattle.std.specs.Prelude.{◌≡◌, ◌<◌, ◌≤◌, ◌+◌, ◌∷◌, ◌==◌, ℕ, [], true, false, nat_lt, if◌then◌else◌, List, length, reverse, OnErr, OnOk};
ghost use Rattle.query.specs.declared.query.TableInstance as instance;
ghost use Rattle.algebra.specs.Columns.{columns_at};
ghost use Rattle.algebra.specs.Expressions.{classes_pass};
ghost use Rattle.props.specs.Facts.{with_fact};
ghost use Rattle.props.specs.Knowledge.{known};
ghost use Rattle.derivation.specs.Logs as logs;
ghost use Rattle.logs.specs.Knowledge as spec;
ghost use Rattle.logs.specs.Sets.{AreSets, AreUnited, root_of, facts_of};

use crate::free::free_columns;
use crate::lookups::member;
use crate::sets::ClassSets;
use algebra::{ClassColumns, ClassId, Columns, Expr, LineId};
use derivation::Line;
use props::{Fact, KnownClasses};
use query::TableInstance;
use query::ids::id_behind;
use std::alloc::{AllocError, Global};

/// What is known of the classes of a log, by their numbers. A line that founds none counts as a class without columns, so that the
/// lists are as long as the log.
pub struct Known {
    /// Their columns.
    pub columns: Vec<Columns>,
    /// The columns of the environment on which their rows depend, up to the last class that has such columns.
    pub free: Vec<Columns>,
    /// Which of them are the same, and their facts.
    pub sets: ClassSets,
}

// By hand, so that where it is dropped is one call.
impl Drop for Known {
    fn drop(self) {
        let Known {
            columns: _,
            free: _,
            sets: _,
        } = self;
    }
}

/// The class of a line's expression; the line's own number where it has none.
fn class_at(lines: &[Line], line: LineId) -> ClassId
    ensures { result ≡ logs.class_at (reverse lines.now) line }
{
    match member(lines, line) {
        Some(member) => member.class,
        None => line,
    }
}

/// Notes the free columns of a class that is past the end of the list. Classes without any need no entry. Where there is no memory,
/// nothing is changed.
fn put_free(
    alloc: Global,
    list: &mut Vec<Columns>,
    class: ClassId,
    free: Columns,
) -> Result<(), AllocError>
    requires { length list.old.items ≤ class }
    ensures class { OnOk result ((g : ℕ) → columns_at list.new.items g ≡ (if g == class then free else columns_at list.old.items g)) }
    ensures count { OnOk result (length list.new.items ≤ class + 1) }
    ensures refused { OnErr result (list.new.items ≡ list.old.items) }
{
    if free.as_slice().is_empty() {
        return Ok(());
    }
    let count = list.as_slice().len();
    list.reserve(class as usize - count + 1)?;
    for _none in count..class as usize {
        list.push_reserved(Columns::from_vec(Vec::new(alloc)));
    }
    list.push_reserved(free);
    Ok(())
}

impl Known {
    /// What is known without lines.
    pub fn new(alloc: Global) -> Known
        ensures { (instances : List instance.TableInstance) → spec.IsKnown instances [] result }
    {
        Known {
            columns: Vec::new(alloc),
            free: Vec::new(alloc),
            sets: ClassSets::new(alloc),
        }
    }

    /// What is known, as rules are given it.
    pub fn classes(&self) -> KnownClasses<'_>
        ensures known { known result ≡ spec.known_by self.now }
        ensures columns { result.columns.columns.now ≡ self.now.columns.items }
    {
        KnownClasses {
            columns: ClassColumns {
                columns: self.columns.as_slice(),
                free: self.free.as_slice(),
            },
            sets: self.sets.sets.as_slice(),
            roots: self.sets.roots.as_slice(),
            facts: self.sets.facts.as_slice(),
        }
    }

    /// Makes room for one class more.
    fn make_room(&mut self) -> Result<(), AllocError>
        ensures same { spec.IsAlike self.old self.new }
        ensures room { OnOk result (spec.HasRoom self.new) }
    {
        self.columns.reserve(1)?;
        self.sets.make_room()
    }

    /// Adds a class with its columns, where there is room for it.
    fn put(&mut self, columns: Columns, class: ClassId)
        requires sets { AreSets self.old.sets }
        requires count { length self.old.columns.items ≡ length self.old.sets.sets.items }
        requires room { spec.HasRoom self.old }
        requires class { class ≡ length self.old.columns.items }
        ensures sets { AreSets self.new.sets }
        ensures in_step { length self.new.columns.items ≡ length self.new.sets.sets.items }
        ensures count { length self.new.columns.items ≡ length self.old.columns.items + 1 }
        ensures columns { (g : ℕ) → columns_at self.new.columns.items g ≡ (if g == length self.old.columns.items then columns else columns_at self.old.columns.items g) }
        ensures free { self.new.free.items ≡ self.old.free.items }
        ensures roots { (g : ℕ) → root_of self.new.sets g ≡ root_of self.old.sets g }
        ensures facts { (g : ℕ) → facts_of self.new.sets g ≡ facts_of self.old.sets g }
    {
        self.columns.push_reserved(columns);
        self.sets.put(class);
    }

    /// Adds a class that has neither columns nor free columns, where there is room for it.
    fn put_idle(&mut self, alloc: Global, class: ClassId)
        requires step { spec.AreInStep self.old }
        requires room { spec.HasRoom self.old }
        requires class { class ≡ length self.old.columns.items }
        ensures step { spec.AreInStep self.new }
        ensures class { spec.HasClass self.old [] (λ c. false) self.new }
        ensures roots { (g : ℕ) → root_of self.new.sets g ≡ root_of self.old.sets g }
        ensures facts { (g : ℕ) → facts_of self.new.sets g ≡ facts_of self.old.sets g }
    {
        self.put(Columns::from_vec(Vec::new(alloc)), class);
    }

    /// Adds the class that a line founds, where there is room for it.
    fn found(
        &mut self,
        alloc: Global,
        instances: &[TableInstance],
        expr: &Expr,
        class: ClassId,
    ) -> Result<(), AllocError>
        requires step { spec.AreInStep self.old }
        requires room { spec.HasRoom self.old }
        requires class { class ≡ length self.old.columns.items }
        requires named { classes_pass (λ g. nat_lt g (length self.old.columns.items)) expr.now ≡ true }
        ensures step { spec.AreInStep self.new }
        ensures class { OnOk result (spec.HasClass self.old (spec.expr_columns instances.now self.old expr.now) (spec.expr_free self.old expr.now) self.new) }
        ensures roots { (g : ℕ) → root_of self.new.sets g ≡ root_of self.old.sets g }
        ensures facts { (g : ℕ) → facts_of self.new.sets g ≡ facts_of self.old.sets g }
        ensures refused { OnErr result (spec.IsAlike self.old self.new) }
    {
        let columns = expr.columns(alloc, instances, self.columns.as_slice())?;
        let free = free_columns(alloc, expr, self.classes().columns)?;
        put_free(alloc, &mut self.free, class, free)?;
        self.put(columns, class);
        Ok(())
    }

    /// Makes the sets of two classes one, and adds a line that founds no class, where there is room for it.
    fn unite(
        &mut self,
        alloc: Global,
        first: ClassId,
        second: ClassId,
        class: ClassId,
    ) -> Result<(), AllocError>
        requires step { spec.AreInStep self.old }
        requires room { spec.HasRoom self.old }
        requires class { class ≡ length self.old.columns.items }
        requires first { first < length self.old.columns.items }
        requires second { second < length self.old.columns.items }
        ensures step { OnOk result (spec.AreInStep self.new) }
        ensures class { OnOk result (spec.HasClass self.old [] (λ c. false) self.new) }
        ensures united { OnOk result (AreUnited self.old.sets first second self.new.sets) }
        ensures refused { OnErr result (spec.IsAlike self.old self.new) }
    {
        self.sets.unite(alloc, first, second)?;
        self.put_idle(alloc, class);
        Ok(())
    }

    /// Adds a fact of a class, and a line that founds no class, where there is room for it.
    fn learn(
        &mut self,
        alloc: Global,
        of: ClassId,
        fact: &Fact,
        class: ClassId,
    ) -> Result<(), AllocError>
        requires step { spec.AreInStep self.old }
        requires room { spec.HasRoom self.old }
        requires class { class ≡ length self.old.columns.items }
        requires of { of < length self.old.columns.items }
        ensures step { spec.AreInStep self.new }
        ensures class { OnOk result (spec.HasClass self.old [] (λ c. false) self.new) }
        ensures roots { (g : ℕ) → root_of self.new.sets g ≡ root_of self.old.sets g }
        ensures facts { OnOk result ((g : ℕ) → facts_of self.new.sets g ≡ (if root_of self.old.sets g == root_of self.old.sets of then with_fact (facts_of self.old.sets g) fact.now else facts_of self.old.sets g)) }
        ensures refused { OnErr result ((g : ℕ) → facts_of self.new.sets g ≡ facts_of self.old.sets g) }
        ensures refused_columns { OnErr result ((self.new.columns.items ≡ self.old.columns.items) × (self.new.free.items ≡ self.old.free.items)) }
    {
        self.sets.learn(alloc, of, fact)?;
        self.put_idle(alloc, class);
        Ok(())
    }

    /// Adds what a line says that may stand behind the earlier ones, where there is room for it. Where there is no memory, what is known
    /// stays.
    fn add(
        &mut self,
        alloc: Global,
        instances: &[TableInstance],
        lines: &[Line],
        line: &Line,
        class: ClassId,
    ) -> Result<(), AllocError>
        requires known { spec.IsKnown instances.now (reverse lines.now) self.old }
        requires closed { spec.IsClosed instances.now (reverse lines.now) }
        requires names { spec.NamesEarlier (reverse lines.now) line.now }
        requires room { spec.HasRoom self.old }
        requires class { class ≡ length lines.now }
        ensures known { OnOk result (spec.IsKnown instances.now (line.now ∷ reverse lines.now) self.new) }
        ensures refused { OnErr result (spec.IsKnown instances.now (reverse lines.now) self.new) }
    {
        match line {
            Line::Founds(expr) => self.found(alloc, instances, expr, class),
            Line::Adds(_, _, _) => {
                self.put_idle(alloc, class);
                Ok(())
            }
            Line::Unites(first, second, _) => self.unite(alloc, *first, *second, class),
            Line::Alike(first, second) => {
                let first = class_at(lines, *first);
                let second = class_at(lines, *second);
                self.unite(alloc, first, second, class)
            }
            Line::Gives(of, _, fact) => self.learn(alloc, *of, fact, class),
        }
    }

    /// Adds what a line says that may stand behind the earlier ones. Where there is no memory, what is known stays.
    pub fn note(
        &mut self,
        alloc: Global,
        instances: &[TableInstance],
        lines: &[Line],
        line: &Line,
    ) -> Result<(), AllocError>
        requires known { spec.IsKnown instances.now (reverse lines.now) self.old }
        requires closed { spec.IsClosed instances.now (reverse lines.now) }
        requires names { spec.NamesEarlier (reverse lines.now) line.now }
        ensures known { OnOk result (spec.IsKnown instances.now (line.now ∷ reverse lines.now) self.new) }
        ensures refused { OnErr result (spec.IsKnown instances.now (reverse lines.now) self.new) }
    {
        let class = id_behind(0, lines.len())?;
        self.make_room()?;
        self.add(alloc, instances, lines, line, class)
    }
}
