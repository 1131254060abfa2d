//! The condition of a statement, as a tree.
ghost use Rattle.std.specs.Prelude.{◌≡◌, IfOk};

use crate::copies::{Duplicate, NoMemory};
use crate::rows::Value;
use crate::texts::Text;
use std::alloc::Global;
use std::marker::Model;

/// A comparison. `!=` of a statement's text is `Ne`.
#[derive(Clone, Copy, PartialEq, Eq)]
pub enum Op {
    Eq,
    Ne,
    Lt,
    Le,
    Gt,
    Ge,
}

/// A condition. Contracts see its tree without the boxes, so that a copy equals its source.
#[cycle(condition)]
#[derive(Drop)]
pub struct Cond {
    pub node: CondNode,
}

#[cycle(condition)]
#[derive(Drop)]
pub enum CondNode {
    Cmp { column: Text, op: Op, value: Value },
    And(Box<(Cond, Cond)>),
    Or(Box<(Cond, Cond)>),
    Not(Box<Cond>),
}

impl Model for Cond {
    ghost use Rattle.seata_types.specs.Condition.{Condition, coded_condition, nodes};

    ghost Value = { Condition };

    ghost coded = { coded_condition };

    ghost use Rattle.seata_types.specs.ConditionOf.{condition_of};

    ghost view = { λ c. condition_of c.node };

    ghost size = { nodes };
}

impl Cond {
    ghost use Rattle.std.specs.Prelude.{◌≡◌, IfOk};
    ghost use Rattle.seata_types.specs.Condition as tree;

    /// The comparison of a column with a literal.
    pub fn cmp(column: Text, op: Op, value: Value) -> Cond
        ensures { result ≡ tree.Cmp column op value }
    {
        Cond {
            node: CondNode::Cmp { column, op, value },
        }
    }

    /// Both.
    pub fn and(alloc: Global, left: Cond, right: Cond) -> Result<Cond, NoMemory>
        ensures { IfOk result (λ c. c ≡ tree.And left right) }
    {
        Ok(Cond {
            node: CondNode::And(Box::new(alloc, (left, right))?),
        })
    }

    /// One of the two, or both.
    pub fn or(alloc: Global, left: Cond, right: Cond) -> Result<Cond, NoMemory>
        ensures { IfOk result (λ c. c ≡ tree.Or left right) }
    {
        Ok(Cond {
            node: CondNode::Or(Box::new(alloc, (left, right))?),
        })
    }

    /// The opposite.
    pub fn not(alloc: Global, inner: Cond) -> Result<Cond, NoMemory>
        ensures { IfOk result (λ c. c ≡ tree.Not inner) }
    {
        Ok(Cond {
            node: CondNode::Not(Box::new(alloc, inner)?),
        })
    }
}

impl Duplicate for Cond {
    fn copy(&self, alloc: Global) -> Result<Self, NoMemory> {
        match &self.node {
            CondNode::Cmp { column, op, value } => {
                Ok(Cond::cmp(column.copy(alloc)?, *op, value.copy(alloc)?))
            }
            CondNode::And(parts) => Cond::and(alloc, parts.0.copy(alloc)?, parts.1.copy(alloc)?),
            CondNode::Or(parts) => Cond::or(alloc, parts.0.copy(alloc)?, parts.1.copy(alloc)?),
            CondNode::Not(inner) => Cond::not(alloc, inner.copy(alloc)?),
        }
    }
}
