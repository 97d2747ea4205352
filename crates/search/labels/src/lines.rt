//! All nodes against all labels: class by class, each line of the class, each node of the line.

ghost use Rattle.std.specs.Prelude.{◌≡◌, ◌<◌, ◌↔◌, ℕ, true, length, map, IfOk, IsTrue};
ghost use Rattle.std.specs.List.{AllByRecursion, list_all};
ghost use Rattle.algebra.specs.Columns.{columns_at};
ghost use Rattle.physical.specs.declared.plan.Node.TheVariants.{Sort};
ghost use Rattle.labels.specs.Bounding as spec;
ghost use Rattle.labels.specs.ByClass.{of_class};
ghost use Rattle.labels.specs.Candidates.{AreAccesses};
ghost use Rattle.labels.specs.Nodes.{node_fits};

use crate::bounds::{Labelling, bounds};
use crate::goal::Label;
use crate::nodes::nodes_of;
use algebra::{ClassId, LineId};
use physical::{IndexAccess, Node};
use query::ids::id_of;
use std::alloc::{AllocError, Global};
use values::Items;

/// Whether a node that fits its line keeps all labels.
fn node_keeps(
    alloc: Global,
    by: &Labelling<'_, '_>,
    labels: &[&Label],
    node: &Node,
) -> Result<bool, AllocError>
    requires labels { spec.IsKept by.now }
    requires fits { node_fits by.now.derived.log.now.instances by.now.derived.log.now.log (columns_at by.now.derived.columns.now) node.now ≡ true }
    ensures { IfOk result (λ b. b ≡ list_all (λ l. spec.keeps by.now l node.now) (map (λ l. l.now) labels.now)) }
{
    for label in labels {
        if !bounds(alloc, by, label, node)? {
            return Ok(false);
        }
    }
    Ok(true)
}

fn nodes_keep(
    alloc: Global,
    by: &Labelling<'_, '_>,
    labels: &[&Label],
    nodes: &[Node],
) -> Result<bool, AllocError>
    requires labels { spec.IsKept by.now }
    requires fit { list_all (node_fits by.now.derived.log.now.instances by.now.derived.log.now.log (columns_at by.now.derived.columns.now)) nodes.now ≡ true }
    ensures { IfOk result (λ b. b ≡ list_all (λ node. list_all (λ l. spec.keeps by.now l node) (map (λ l. l.now) labels.now)) nodes.now) }
{
    for node in nodes {
        if !node_keeps(alloc, by, labels, node)? {
            return Ok(false);
        }
    }
    Ok(true)
}

/// Whether all nodes of a line keep all labels.
fn line_keeps(
    alloc: Global,
    by: &Labelling<'_, '_>,
    accesses: &[IndexAccess],
    labels: &[&Label],
    line: LineId,
) -> Result<bool, AllocError>
    requires labels { spec.IsKept by.now }
    requires accesses { AreAccesses by.now.derived.log.now.instances by.now.derived.log.now.log accesses.now }
    ensures { IfOk result (λ b. IsTrue b ↔ spec.LineKeeps by.now (map (λ l. l.now) labels.now) line) }
{
    let nodes = nodes_of(alloc, by.derived, accesses, line)?;
    let keep = nodes_keep(alloc, by, labels, nodes.as_slice())?;
    Ok(keep)
}

fn lines_keep(
    alloc: Global,
    by: &Labelling<'_, '_>,
    accesses: &[IndexAccess],
    labels: &[&Label],
    lines: &[LineId],
) -> Result<bool, AllocError>
    requires labels { spec.IsKept by.now }
    requires accesses { AreAccesses by.now.derived.log.now.instances by.now.derived.log.now.log accesses.now }
    ensures { IfOk result (λ b. IsTrue b ↔ AllByRecursion (spec.LineKeeps by.now (map (λ l. l.now) labels.now)) lines.now) }
{
    for line in lines {
        if !line_keeps(alloc, by, accesses, labels, *line)? {
            return Ok(false);
        }
    }
    Ok(true)
}

/// Whether the sort by each label's order keeps the label.
fn sorts_keep(alloc: Global, by: &Labelling<'_, '_>, labels: &[&Label]) -> Result<bool, AllocError>
    requires labels { spec.IsKept by.now }
    ensures { IfOk result (λ b. b ≡ list_all (λ l. spec.keeps by.now l (Sort l.goal.order)) (map (λ l. l.now) labels.now)) }
{
    for label in labels {
        let keys = Items::from_slice(alloc, label.goal.order.as_slice())?;
        if !bounds(alloc, by, label, &Node::Sort { keys })? {
            return Ok(false);
        }
    }
    Ok(true)
}

/// Whether all nodes keep the labels of a class. Those that implement no line of the class aren't offered there.
fn class_keeps(
    alloc: Global,
    by: &Labelling<'_, '_>,
    accesses: &[IndexAccess],
    class: ClassId,
) -> Result<bool, AllocError>
    requires labels { spec.IsKept by.now }
    requires accesses { AreAccesses by.now.derived.log.now.instances by.now.derived.log.now.log accesses.now }
    ensures { IfOk result (λ b. IsTrue b ↔ AllByRecursion (spec.IsKeptByAll by.now) (of_class by.now.labels.now class)) }
{
    let Some(own) = by.by_class.of(class) else {
        return Ok(true);
    };
    let labels = own.as_slice();
    if labels.is_empty() {
        return Ok(true);
    }
    let lines = by.derived.log.members(alloc, class)?;
    if !lines_keep(alloc, by, accesses, labels, lines.as_slice())? {
        return Ok(false);
    }
    let keep = sorts_keep(alloc, by, labels)?;
    Ok(keep)
}

/// Whether all nodes keep all labels.
pub(crate) fn all_keep(
    alloc: Global,
    by: &Labelling<'_, '_>,
    accesses: &[IndexAccess],
) -> Result<bool, AllocError>
    requires labels { spec.IsKept by.now }
    requires accesses { AreAccesses by.now.derived.log.now.instances by.now.derived.log.now.log accesses.now }
    requires classes { AllByRecursion (λ l. l.goal.class < length by.now.derived.log.now.log) by.now.labels.now }
    ensures { IfOk result (λ b. IsTrue b ↔ AllByRecursion (spec.IsKeptByAll by.now) by.now.labels.now) }
{
    for class in 0..id_of(by.derived.log.len())? {
        if !class_keeps(alloc, by, accesses, class)? {
            return Ok(false);
        }
    }
    Ok(true)
}
