//! The nodes that implement the lines of classes, made once.

ghost use Rattle.std.specs.Prelude.{◌≡◌, ◌<◌, ◌++◌, ◌∷◌, [], length, IfOk, OnOk};
ghost use Rattle.std.specs.List.Sorted.{IsPermutation};
ghost use Rattle.algebra.specs.Columns.{columns_at};
ghost use Rattle.labels.specs.Candidates.{AreAccesses};
ghost use Rattle.winners.specs.Spans as spec;

use algebra::{ClassId, LineId};
use labels::{Derived, nodes_of};
use physical::{IndexAccess, Node, Operator};
use std::alloc::{AllocError, Global};

/// Nodes that stand together, from one number on and below another.
#[derive(Clone, Copy)]
pub struct Span {
    pub start: usize,
    pub end: usize,
}

/// Nodes by number, those that implement the lines of a class together.
#[derive(Drop)]
pub struct Nodes {
    pub list: Vec<Node>,
    pub spans: Vec<Option<Span>>,
}

/// Puts the nodes of a join, a distinct or a group last first. Of plans that cost the same the one whose node is offered last stays: so nested loops and hashes
/// stay, which ask for no order.
fn put_in_turn(nodes: &mut Vec<Node>)
    ensures { IsPermutation nodes.old.items nodes.new.items }
{
    let turned = matches!(
        nodes.first(),
        Some(Node::Implements {
            operator: Operator::JoinRows { .. }
                | Operator::DistinctRows { .. }
                | Operator::GroupRows { .. },
            ..
        })
    );
    if turned {
        nodes.reverse();
    }
}

/// Adds the nodes of a line.
fn push_line(
    alloc: Global,
    derived: Derived<'_, '_>,
    accesses: &[IndexAccess],
    line: LineId,
    nodes: &mut Vec<Node>,
) -> Result<(), AllocError>
    requires accesses { AreAccesses derived.log.now.instances derived.log.now.log accesses.now }
    requires fit { spec.AllFit derived.log.now.instances derived.log.now.log (columns_at derived.columns.now) nodes.old.items }
    ensures fit { OnOk result (spec.AllFit derived.entry.log.now.instances derived.entry.log.now.log (columns_at derived.entry.columns.now) nodes.new.items) }
    ensures before { OnOk result (spec.IsFront nodes.old.items nodes.new.items) }
    ensures line { OnOk result (spec.HasLine derived.entry.log.now.instances derived.entry.log.now.log (columns_at derived.entry.columns.now) (length nodes.old.items) nodes.new.items line) }
{
    let mut own = nodes_of(alloc, derived, accesses, line)?;
    put_in_turn(&mut own);
    nodes.append(&mut own)?;
    Ok(())
}

/// Adds the nodes of all lines of a class.
fn push_lines(
    alloc: Global,
    derived: Derived<'_, '_>,
    accesses: &[IndexAccess],
    lines: &[LineId],
    nodes: &mut Vec<Node>,
) -> Result<(), AllocError>
    requires accesses { AreAccesses derived.log.now.instances derived.log.now.log accesses.now }
    requires fit { spec.AllFit derived.log.now.instances derived.log.now.log (columns_at derived.columns.now) nodes.old.items }
    ensures fit { OnOk result (spec.AllFit derived.entry.log.now.instances derived.entry.log.now.log (columns_at derived.entry.columns.now) nodes.new.items) }
    ensures before { OnOk result (spec.IsFront nodes.old.items nodes.new.items) }
    ensures lines { OnOk result (spec.HasLines derived.entry.log.now.instances derived.entry.log.now.log (columns_at derived.entry.columns.now) (length nodes.old.items) nodes.new.items lines.now) }
{
    for line in lines {
        push_line(alloc, derived, accesses, *line, nodes)?;
    }
    Ok(())
}

impl Nodes {
    /// No node, of so many classes.
    pub fn new(alloc: Global, classes: usize) -> Result<Nodes, AllocError>
        ensures { IfOk result (λ nodes. (nodes.list.items ≡ []) × spec.NoneMade nodes.spans.items × (length nodes.spans.items ≡ classes)) }
    {
        let spans = vec![in alloc; None; classes]?;
        let list = Vec::new(alloc);
        Ok(Nodes { list, spans })
    }

    /// The nodes of a class, made where they aren't yet.
    pub fn of_class(
        &mut self,
        alloc: Global,
        derived: Derived<'_, '_>,
        accesses: &[IndexAccess],
        class: ClassId,
    ) -> Result<Span, AllocError>
        requires accesses { AreAccesses derived.log.now.instances derived.log.now.log accesses.now }
        requires made { spec.AreMade derived.log.now.instances derived.log.now.log (columns_at derived.columns.now) self.old }
        requires class { class < length self.old.spans.items }
        ensures made { OnOk result (spec.AreMade derived.entry.log.now.instances derived.entry.log.now.log (columns_at derived.entry.columns.now) self.new) }
        ensures before { OnOk result (spec.IsFront self.old.list.items self.new.list.items) }
        ensures as_many { OnOk result (length self.new.spans.items ≡ length self.old.spans.items) }
        ensures own { IfOk result (λ span. spec.HasClass derived.entry.log.now.instances derived.entry.log.now.log (columns_at derived.entry.columns.now) self.new.list.items class span) }
    {
        if let Some(span) = self.spans[class as usize] {
            return Ok(span);
        }
        let start = self.list.len();
        let lines = derived.log.members(alloc, class)?;
        push_lines(alloc, derived, accesses, lines.as_slice(), &mut self.list)?;
        let end = self.list.len();
        let span = Span { start, end };
        self.spans[class as usize] = Some(span);
        Ok(span)
    }

    /// Adds a node that isn't of a line, and answers its number.
    pub fn push(&mut self, node: Node) -> Result<usize, AllocError>
        ensures list { OnOk result (self.new.list.items ≡ self.old.list.items ++ node ∷ []) }
        ensures spans { OnOk result (self.new.spans.items ≡ self.old.spans.items) }
        ensures number { IfOk result (λ n. n ≡ length self.old.list.items) }
    {
        let number = self.list.len();
        self.list.push(node)?;
        Ok(number)
    }
}
