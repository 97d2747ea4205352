//! Copies of nodes.

ghost use Rattle.std.specs.Prelude.{◌≡◌, IfOk};

use crate::plan::{Matching, Node, Operator};
use std::alloc::{AllocError, Global};
use values::Items;

impl Matching {
    pub fn copy(&self, alloc: Global) -> Result<Matching, AllocError>
        ensures { IfOk result (λ m. m ≡ self.now) }
    {
        match self {
            Matching::Inner(own) => Ok(Matching::Inner(own.copy(alloc)?)),
            Matching::Left(own) => Ok(Matching::Left(own.copy(alloc)?)),
            Matching::Semi(own) => Ok(Matching::Semi(own.copy(alloc)?)),
            Matching::Anti(ordinary, null_aware) => {
                let ordinary = ordinary.copy(alloc)?;
                Ok(Matching::Anti(ordinary, null_aware.copy(alloc)?))
            }
        }
    }
}

impl Operator {
    pub fn copy(&self, alloc: Global) -> Result<Operator, AllocError>
        ensures { IfOk result (λ o. o ≡ self.now) }
    {
        match self {
            Operator::Scan { instance } => {
                let instance = *instance;
                Ok(Operator::Scan { instance })
            }
            Operator::IndexScan { access, conjuncts } => {
                let access = *access;
                let conjuncts = conjuncts.copy(alloc)?;
                Ok(Operator::IndexScan { access, conjuncts })
            }
            Operator::Filter { conjuncts } => {
                let conjuncts = conjuncts.copy(alloc)?;
                Ok(Operator::Filter { conjuncts })
            }
            Operator::FilterSubqueries { conjuncts } => {
                let conjuncts = conjuncts.copy(alloc)?;
                Ok(Operator::FilterSubqueries { conjuncts })
            }
            Operator::Projection { columns } => {
                let columns = columns.copy(alloc)?;
                Ok(Operator::Projection { columns })
            }
            Operator::JoinRows { method, matching } => {
                let method = *method;
                let matching = matching.copy(alloc)?;
                Ok(Operator::JoinRows { method, matching })
            }
            Operator::IndexJoin { access, matching } => {
                let access = *access;
                let matching = matching.copy(alloc)?;
                Ok(Operator::IndexJoin { access, matching })
            }
            Operator::GroupRows {
                method,
                keys,
                added,
            } => {
                let method = *method;
                let keys = keys.copy(alloc)?;
                let added = added.copy(alloc)?;
                Ok(Operator::GroupRows {
                    method,
                    keys,
                    added,
                })
            }
            Operator::DistinctRows { method } => {
                let method = *method;
                Ok(Operator::DistinctRows { method })
            }
        }
    }
}

impl Node {
    pub fn copy(&self, alloc: Global) -> Result<Node, AllocError>
        ensures { IfOk result (λ n. n ≡ self.now) }
    {
        match self {
            Node::Implements { line, operator } => {
                let line = *line;
                let operator = operator.copy(alloc)?;
                Ok(Node::Implements { line, operator })
            }
            Node::Sort { keys } => {
                let keys = Items::from_slice(alloc, keys.as_slice())?;
                Ok(Node::Sort { keys })
            }
        }
    }
}
