//! The join graph of a region: leaves, and the conditions over them.

ghost use Rattle.join_trees.specs.Estimates.{AreOfLog};

use crate::equations::{Equation, Equations};
use crate::leaves::{Leaf, cost_by_index};
use crate::left_joins::{LeftJoinEstimate, OuterJoin};
use crate::log_estimates::{LogEstimates, mentioned_leaves};
use crate::placeables::Placeable;
use crate::regions::{Parts, Region, conditions_of};
use crate::selectivities::{CombinedSelectivity, part_of};
use crate::sets::{LeafSet, MOST_LEAVES};
use crate::subqueries::{Subquery, subqueries_of};
use crate::table_costs::index_probe_cost;
use algebra::{ClassId, Condition, LineId};
use costs::{ALL, selectivity};
use logs::Log;
use std::alloc::{AllocError, Global};

/// A condition over several leaves.
#[derive(Clone, Copy, Drop)]
pub struct Edge {
    pub leaves: LeafSet,
    pub selectivity: u64,
    /// What it equates, if it is an equality of two columns.
    equation: Option<Equation>,
}

/// What the matches of one leaf's row in another leaf cost, where an index finds them.
#[derive(Clone, Copy, Drop)]
pub struct Probe {
    pub from: LeafSet,
    pub into: LeafSet,
    pub cost: u64,
}

/// A join of the region as the query has it: its leaves, and the rows of its class, unless that has other conditions than the leaves have in a tree.
#[derive(Clone, Copy, Drop)]
struct RegionJoin {
    set: LeafSet,
    rows: Option<u64>,
}

#[derive(Drop)]
pub struct JoinGraph {
    pub leaves: Vec<Leaf>,
    pub edges: Vec<Edge>,
    pub probes: Vec<Probe>,
    /// The equalities of two columns.
    equations: Equations,
    /// For each leaf those that an equality connects with it.
    pub neighbors: Vec<LeafSet>,
    /// The region's own joins. Their classes are founded already, so they have their rows in each tree.
    region_joins: Vec<RegionJoin>,
    /// The conditions with subqueries, the dearest first.
    pub subqueries: Vec<Subquery>,
    /// These, and behind them the outer joins above the region: what has to be placed in the tree.
    pub placeables: Vec<Placeable>,
}

impl JoinGraph {
    /// Notes a condition on one leaf.
    fn note_filter(
        &mut self,
        estimates: LogEstimates<'_, '_>,
        classes: &[ClassId],
        place: usize,
        condition: &Condition,
        selectivity: u64,
    ) {
        let Some(class) = classes.get(place).copied() else {
            return;
        };
        let by_index = cost_by_index(estimates, class, condition, selectivity);
        if let Some(leaf) = self.leaves.get_mut(place) {
            leaf.selectivity = Some(part_of(leaf.selectivity.unwrap_or(ALL), selectivity));
            if let Some(cost) = by_index {
                leaf.index_cost = leaf.index_cost.min(cost);
            }
        }
    }

    fn note_neighbors(&mut self, first: LeafSet, second: LeafSet) {
        if let Some(set) = self.neighbors.get_mut(first.lowest()) {
            *set = set.union(second);
        }
        if let Some(set) = self.neighbors.get_mut(second.lowest()) {
            *set = set.union(first);
        }
    }

    /// Notes an equality of columns of two leaves.
    fn note_equality(
        &mut self,
        estimates: LogEstimates<'_, '_>,
        classes: &[ClassId],
        leaves: LeafSet,
        condition: &Condition,
    ) -> Result<(), AllocError> {
        let Some((a, b)) = condition.equated() else {
            return Ok(());
        };
        let first = LeafSet::single(leaves.lowest());
        let second = leaves.minus(first);
        self.note_neighbors(first, second);
        for column in [a, b] {
            let into = owner_of(estimates.log, classes, leaves, column);
            if let Some(cost) = index_probe_cost(
                estimates.statistics,
                estimates.log.instances(),
                column,
            ) {
                let from = leaves.minus(into);
                self.probes.push(Probe { from, into, cost })?;
            }
        }
        Ok(())
    }

    /// Forgets the rows of those of the region's joins that have a condition in a tree and not in their class, or the other way round. It stands in
    /// a join of the region, or above all of them.
    fn forget(&mut self, leaves: LeafSet, stands_over: LeafSet) {
        for join in &mut self.region_joins {
            let is_in_class = stands_over.is_within(join.set);
            let is_in_tree = !leaves.is_empty() && leaves.is_within(join.set);
            if is_in_class != is_in_tree {
                join.rows = None;
            }
        }
    }

    /// Forgets the rows of a join of the region's own, which has more conditions in a tree than in its class.
    fn forget_join(&mut self, set: LeafSet) {
        for join in &mut self.region_joins {
            if join.set == set {
                join.rows = None;
            }
        }
    }

    /// Notes a condition of the region, which stands in a join of these leaves, or above the join of all. One that names classes is no join's.
    fn note(
        &mut self,
        alloc: Global,
        estimates: LogEstimates<'_, '_>,
        classes: &[ClassId],
        stands_over: LeafSet,
        condition: &Condition,
    ) -> Result<(), AllocError> {
        if !condition.has_no_class() {
            return Ok(());
        }
        let leaves = mentioned_leaves(alloc, estimates.log, classes, condition)?;
        self.forget(leaves, stands_over);
        let selectivity = selectivity(estimates.statistics, estimates.log.instances(), condition);
        let equation = self.equations.note(leaves, condition)?;
        if leaves.count() == 1 {
            self.note_filter(estimates, classes, leaves.lowest(), condition, selectivity);
            return Ok(());
        }
        if leaves.count() == 2 {
            self.note_equality(estimates, classes, leaves, condition)?;
        }
        self.edges.push(Edge {
            leaves,
            selectivity,
            equation,
        })?;
        Ok(())
    }

    /// The leaves of a region, without conditions.
    fn of_leaves(
        alloc: Global,
        estimates: LogEstimates<'_, '_>,
        parts: &Parts,
    ) -> Result<JoinGraph, AllocError>
        requires { AreOfLog estimates }
    {
        let mut leaves = Vec::new(alloc);
        for class in &parts.leaves {
            leaves.push(Leaf::unfiltered(alloc, estimates, *class)?)?;
        }
        let neighbors = Vec::from_elem(alloc, LeafSet::EMPTY, parts.leaves.len())?;
        Ok(JoinGraph {
            leaves,
            edges: Vec::new(alloc),
            probes: Vec::new(alloc),
            equations: Equations::none(alloc),
            neighbors,
            region_joins: region_joins(alloc, estimates, parts)?,
            subqueries: Vec::new(alloc),
            placeables: Vec::new(alloc),
        })
    }

    /// Notes the conditions of the region's joins.
    fn note_joins(
        &mut self,
        alloc: Global,
        estimates: LogEstimates<'_, '_>,
        parts: &Parts,
    ) -> Result<(), AllocError> {
        for (place, line) in parts.joins.iter().enumerate() {
            let set = self.region_join_set(place);
            for condition in conditions_of(estimates.log, *line) {
                self.note(alloc, estimates, &parts.leaves, set, condition)?;
            }
        }
        Ok(())
    }

    /// Notes the conditions of the selection above them.
    fn note_selection(
        &mut self,
        alloc: Global,
        estimates: LogEstimates<'_, '_>,
        parts: &Parts,
        line: LineId,
    ) -> Result<(), AllocError>
        requires { AreOfLog estimates }
    {
        let whole = LeafSet::first(parts.leaves.len());
        for condition in conditions_of(estimates.log, line) {
            if condition.has_no_class() {
                self.forget_join(whole);
            }
            self.note(alloc, estimates, &parts.leaves, whole, condition)?;
        }
        self.subqueries = subqueries_of(alloc, estimates, &parts.leaves, line)?;
        for subquery in &self.subqueries {
            self.placeables
                .push(Placeable::Subquery(subquery.estimate))?;
        }
        Ok(())
    }

    /// Notes the outer joins above the region.
    pub fn note_outer(
        &mut self,
        alloc: Global,
        estimates: LogEstimates<'_, '_>,
        leaves: &[ClassId],
        outer: &[OuterJoin<'_>],
    ) -> Result<(), AllocError> {
        for one in outer {
            let join = LeftJoinEstimate::of(alloc, estimates, leaves, *one)?;
            self.placeables.push(Placeable::LeftJoin(join))?;
        }
        Ok(())
    }

    /// The leaves and conditions of a region.
    pub fn of(
        alloc: Global,
        estimates: LogEstimates<'_, '_>,
        region: Region,
        parts: &Parts,
    ) -> Result<JoinGraph, AllocError>
        requires { AreOfLog estimates }
    {
        let mut graph = JoinGraph::of_leaves(alloc, estimates, parts)?;
        graph.note_joins(alloc, estimates, parts)?;
        if let Some(line) = region.select {
            graph.note_selection(alloc, estimates, parts, line)?;
        }
        Ok(graph)
    }

    pub fn leaf(&self, place: usize) -> Leaf {
        self.leaves.get(place).copied().unwrap_or(Leaf::NONE)
    }

    /// The leaves that an equality connects with some of the set.
    pub fn neighbors_of(&self, set: LeafSet) -> LeafSet {
        let mut neighbors = LeafSet::EMPTY;
        for (place, adjacent) in self.neighbors.iter().enumerate() {
            if set.has(place) {
                neighbors = neighbors.union(*adjacent);
            }
        }
        neighbors
    }

    /// What it costs to find the matches of one row in a leaf by an index, if there is one.
    pub fn probe(&self, from: LeafSet, into: LeafSet) -> Option<u64> {
        let mut least: Option<u64> = None;
        for probe in &self.probes {
            if probe.into == into && probe.from.is_within(from) {
                least = Some(match least {
                    Some(cost) => cost.min(probe.cost),
                    None => probe.cost,
                });
            }
        }
        least
    }

    /// The selectivity, over the pairs of two sets, of the conditions that are over both and over neither alone. As the costs estimate them, so an equality
    /// that follows from others keeps all.
    pub fn join_selectivity(&self, first: LeafSet, second: LeafSet) -> CombinedSelectivity {
        let both = first.union(second);
        let mut equivalences = self.equations.equivalences_within(first, second);
        let mut combined = CombinedSelectivity::ALL;
        for edge in &self.edges {
            let leaves = edge.leaves;
            let is_over_both = leaves.is_within(both)
                && !leaves.is_within(first)
                && !leaves.is_within(second);
            if is_over_both {
                let is_new = match &mut equivalences {
                    Some(equivalences) => equivalences.is_new(edge.equation),
                    None => true,
                };
                if is_new {
                    combined = combined.also(edge.selectivity);
                }
            }
        }
        combined
    }

    /// The leaves of a join of the region's own.
    fn region_join_set(&self, place: usize) -> LeafSet {
        match self.region_joins.get(place) {
            Some(join) => join.set,
            None => LeafSet::EMPTY,
        }
    }

    /// The rows of a set that is a join of the region's own.
    pub fn region_join_rows(&self, set: LeafSet) -> Option<u64> {
        let join = self.region_joins.iter().find(|join| join.set == set)?;
        join.rows
    }

    /// The rows of two sets joined, where so many pairs are tried.
    pub fn join_rows(&self, first: LeafSet, second: LeafSet, pairs: u64) -> u64 {
        match self.region_join_rows(first.union(second)) {
            Some(rows) => rows,
            None => self.join_selectivity(first, second).of(pairs),
        }
    }
}

/// The region's own joins, with the rows of their classes.
fn region_joins(
    alloc: Global,
    estimates: LogEstimates<'_, '_>,
    parts: &Parts,
) -> Result<Vec<RegionJoin>, AllocError> {
    let sets = parts.sets(alloc, estimates.log)?;
    let mut joins = Vec::new(alloc);
    for (place, class) in parts.joins.iter().enumerate() {
        let set = sets.get(place).copied().unwrap_or(LeafSet::EMPTY);
        let rows = Some(estimates.cardinalities.rows(*class));
        joins.push(RegionJoin { set, rows })?;
    }
    Ok(joins)
}

/// The leaf of the set whose column it is.
fn owner_of(log: &Log<'_>, classes: &[ClassId], leaves: LeafSet, column: u32) -> LeafSet {
    let known = log.classes().columns;
    let mut set = LeafSet::EMPTY;
    for (place, class) in classes.iter().enumerate() {
        if place < MOST_LEAVES && leaves.has(place) && known.has(*class, column) {
            set = LeafSet::single(place);
        }
    }
    set
}
