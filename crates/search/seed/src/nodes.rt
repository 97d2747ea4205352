//! Joins that are there, and the steps by which a class gets a join of other sides.

use algebra::{ClassId, Expr, LineId};
use bindings::{Binding, BoundLines};
use book::RuleName;
use join_trees::LeafSet;
use memo::Memo;
use std::alloc::{AllocError, Global};

/// Most lines that a log grows to.
pub(crate) const MOST_LINES: usize = 2_000;

/// Most nodes that are looked at for a region.
const MOST_NODES: usize = 20_000;

/// A leaf, or a join of two nodes by a line of its class.
#[derive(Clone, Copy, Drop)]
pub(crate) struct Node {
    pub class: ClassId,
    pub line: LineId,
    pub set: LeafSet,
    /// The numbers of its sides; none of a leaf.
    pub sides: Option<NodeSides>,
}

#[derive(Clone, Copy, Drop)]
pub(crate) struct NodeSides {
    pub left: usize,
    pub right: usize,
}

/// Nodes by their numbers.
#[derive(Drop)]
pub(crate) struct Nodes {
    nodes: Vec<Node>,
}

/// What is no node.
const NO_NODE: Node = Node {
    class: 0,
    line: 0,
    set: LeafSet::EMPTY,
    sides: None,
};

/// The class of a line that is a join, and the classes of its sides.
#[derive(Clone, Copy, Drop)]
pub(crate) struct JoinLine {
    pub class: ClassId,
    pub left: ClassId,
    pub right: ClassId,
}

/// What a line joins, if it does.
pub(crate) fn join_line(memo: &Memo<'_>, line: LineId) -> Option<JoinLine> {
    let member = memo.log().member(line)?;
    let class = member.class;
    match member.expr {
        Expr::Join(_, left, right) => Some(JoinLine {
            class,
            left: *left,
            right: *right,
        }),
        _ => None,
    }
}

/// The first line of the class that joins something, or what is wanted, with the right side, up to which classes are the same.
pub(crate) fn line_over(
    alloc: Global,
    memo: &Memo<'_>,
    class: ClassId,
    left: Option<ClassId>,
    right: ClassId,
) -> Result<Option<LineId>, AllocError> {
    let lines = memo.log().members(alloc, class)?;
    let mut found: Option<LineId> = None;
    for line in &lines {
        if let Some(join) = join_line(memo, *line) {
            let is_left = match left {
                Some(left) => memo.log().are_same(join.left, left),
                None => true,
            };
            let is_right = memo.log().are_same(join.right, right);
            if is_right && is_left && found.is_none_or(|other| *line < other) {
                found = Some(*line);
            }
        }
    }
    Ok(found)
}

/// Applies a rule, unless the log has grown too long.
pub(crate) fn step(
    alloc: Global,
    memo: &mut Memo<'_>,
    rule: RuleName,
    lines: BoundLines,
) -> Result<Option<LineId>, AllocError> {
    if memo.log().len() >= MOST_LINES {
        return Ok(None);
    }
    memo.apply(
        alloc,
        Binding {
            rule,
            pick: 0,
            lines,
        },
    )
}

impl Nodes {
    pub(crate) fn new(alloc: Global) -> Nodes {
        Nodes {
            nodes: Vec::new(alloc),
        }
    }

    pub(crate) fn node(&self, number: usize) -> Node {
        self.nodes.get(number).copied().unwrap_or(NO_NODE)
    }

    /// The sides of a node.
    pub(crate) fn sides(&self, number: usize) -> Option<(usize, usize)> {
        let sides = self.node(number).sides?;
        Some((sides.left, sides.right))
    }

    /// The number of a new node, unless there are too many.
    fn add(&mut self, node: Node) -> Result<Option<usize>, AllocError> {
        let number = self.nodes.len();
        if number >= MOST_NODES {
            return Ok(None);
        }
        self.nodes.push(node)?;
        Ok(Some(number))
    }

    pub(crate) fn add_leaf(
        &mut self,
        class: ClassId,
        set: LeafSet,
    ) -> Result<Option<usize>, AllocError> {
        self.add(Node {
            class,
            line: class,
            set,
            sides: None,
        })
    }

    /// The join of two nodes by a line, if there is one.
    pub(crate) fn add_join(
        &mut self,
        class: ClassId,
        line: Option<LineId>,
        left: usize,
        right: usize,
    ) -> Result<Option<usize>, AllocError> {
        let Some(line) = line else {
            return Ok(None);
        };
        let set = self.node(left).set.union(self.node(right).set);
        let sides = Some(NodeSides { left, right });
        self.add(Node {
            class,
            line,
            set,
            sides,
        })
    }

    /// The join with its sides the other way round.
    pub(crate) fn commuted(
        &mut self,
        alloc: Global,
        memo: &mut Memo<'_>,
        number: usize,
    ) -> Result<Option<usize>, AllocError> {
        let Some((left, right)) = self.sides(number) else {
            return Ok(None);
        };
        let node = self.node(number);
        let lines = BoundLines::One(node.line);
        let line = step(alloc, memo, RuleName::JoinCommutes, lines)?;
        self.add_join(node.class, line, right, left)
    }

    /// The join of the inner join's left side with a join of the other two.
    pub(crate) fn associated(
        &mut self,
        alloc: Global,
        memo: &mut Memo<'_>,
        outer: usize,
        inner: usize,
    ) -> Result<Option<usize>, AllocError> {
        let Some((_, third)) = self.sides(outer) else {
            return Ok(None);
        };
        let Some((first, second)) = self.sides(inner) else {
            return Ok(None);
        };
        let node = self.node(outer);
        let lines = BoundLines::Two(node.line, self.node(inner).line);
        let Some(line) = step(alloc, memo, RuleName::JoinAssociates, lines)? else {
            return Ok(None);
        };
        let Some(join) = join_line(memo, line) else {
            return Ok(None);
        };
        let left = Some(self.node(second).class);
        let below = line_over(alloc, memo, join.right, left, self.node(third).class)?;
        match self.add_join(join.right, below, second, third)? {
            Some(below) => self.add_join(node.class, Some(line), first, below),
            None => Ok(None),
        }
    }

    /// A join of the node's class whose left side has the wanted ones of its leaves, and whose right side has the others.
    pub(crate) fn split(
        &mut self,
        alloc: Global,
        memo: &mut Memo<'_>,
        number: usize,
        wanted: LeafSet,
        depth: u32,
    ) -> Result<Option<usize>, AllocError> {
        let Some(below) = depth.checked_sub(1) else {
            return Ok(None);
        };
        let Some((left, right)) = self.sides(number) else {
            return Ok(None);
        };
        let first = self.node(left).set;
        let second = self.node(right).set;
        if first == wanted {
            return Ok(Some(number));
        }
        if second == wanted {
            return self.commuted(alloc, memo, number);
        }
        if second.is_within(wanted) || !second.meets(wanted) {
            let is_inside = second.is_within(wanted);
            let part = leaves_apart(first, wanted, is_inside);
            let inner = self.split(alloc, memo, left, part, below)?;
            let joined = self.associated_to(alloc, memo, number, inner)?;
            return self.commuted_if(alloc, memo, joined, is_inside);
        }
        let next = if first.is_within(wanted) || !first.meets(wanted) {
            self.commuted(alloc, memo, number)?
        } else {
            let inner = self.split(alloc, memo, left, first.intersection(wanted), below)?;
            self.associated_to(alloc, memo, number, inner)?
        };
        match next {
            Some(next) => self.split(alloc, memo, next, wanted, below),
            None => Ok(None),
        }
    }

    fn associated_to(
        &mut self,
        alloc: Global,
        memo: &mut Memo<'_>,
        outer: usize,
        inner: Option<usize>,
    ) -> Result<Option<usize>, AllocError> {
        match inner {
            Some(inner) => self.associated(alloc, memo, outer, inner),
            None => Ok(None),
        }
    }

    fn commuted_if(
        &mut self,
        alloc: Global,
        memo: &mut Memo<'_>,
        number: Option<usize>,
        is_wanted: bool,
    ) -> Result<Option<usize>, AllocError> {
        match number {
            Some(number) if is_wanted => self.commuted(alloc, memo, number),
            _ => Ok(number),
        }
    }
}

/// Of the leaves of a side those that stand apart from the other side: where that is wanted, those that aren't, else those that are.
fn leaves_apart(side: LeafSet, wanted: LeafSet, is_other_wanted: bool) -> LeafSet {
    if is_other_wanted {
        side.minus(wanted)
    } else {
        side.intersection(wanted)
    }
}
