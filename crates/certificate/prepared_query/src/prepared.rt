//! A bound query, its frame, its own aggregates and its order.

ghost use Rattle.std.specs.Prelude.{◌≡◌, reverse, true, IfOk};
ghost use Rattle.values.specs.Faults.{Gives};
ghost use Rattle.query.specs.Bound.{is_bound};
ghost use Rattle.frame.specs.Frames.{query_frame};
ghost use Rattle.frame.specs.FormedFrames.{own_aggregates};
ghost use Rattle.certificate.specs.QueryOrders.{query_order};
ghost use Rattle.certificate.specs.Replay.{replayed};

use algebra::{Aggregation, Expr};
use certificate::judging::{judged_log, own_aggregates};
use certificate::{Certificate, CheckFault, query_order};
use frame::frame_of;
use logs::Log;
use physical::OrderKey;
use query::{BoundQuery, Query};
use std::alloc::{AllocError, Global};
use std::marker::Model;
use values::Items;

/// A bound query with its frame, the aggregates that are its own, and the order that its ORDER BY asks for. Contracts see it as the query.
#[derive(Drop)]
pub struct PreparedQuery<'q> {
    query: &'q Query,
    frame: Items<Expr>,
    own: Vec<Aggregation>,
    order: Vec<OrderKey>,
}

impl<'q> Model for PreparedQuery<'q> {
    ghost use Rattle.std.specs.Prelude.{◌≡◌, true};
    ghost use Rattle.query.specs.declared.query.Query.{Query};
    ghost use Rattle.query.specs.contracts.query.Query as q;
    ghost use Rattle.query.specs.Bound.{is_bound};
    ghost use Rattle.frame.specs.Frames.{query_frame};
    ghost use Rattle.frame.specs.FormedFrames.{own_aggregates};
    ghost use Rattle.certificate.specs.QueryOrders.{query_order};

    ghost Value = { Query };

    ghost coded = { q.the_row.coded };

    ghost view = { λ p. p.query.now };

    ghost invariant = { λ p. (is_bound p.query.now ≡ true) × (p.frame ≡ query_frame p.query.now) × (p.own.items ≡ own_aggregates p.query.now) × (p.order.items ≡ query_order p.query.now) };
}

impl<'q> PreparedQuery<'q> {
    pub fn of(alloc: Global, query: &'q BoundQuery) -> Result<PreparedQuery<'q>, AllocError>
        ensures { IfOk result (λ prepared. prepared ≡ query.now) }
    {
        let query = query.query();
        let frame = frame_of(alloc, query)?;
        let own = own_aggregates(alloc, frame.as_slice())?;
        let order = query_order(alloc, query)?;
        Ok(PreparedQuery {
            query,
            frame,
            own,
            order,
        })
    }

    pub fn query(&self) -> &'q Query
        ensures query { result.now ≡ self.now }
        ensures bound { is_bound self.now ≡ true }
    {
        self.query
    }

    /// The expressions that found the first classes of each derivation of the query. The last one's class is the query's own.
    pub fn frame(&self) -> &[Expr]
        ensures { result.now ≡ query_frame self.now }
    {
        self.frame.as_slice()
    }

    /// The aggregates of the query's groups, which other lines of a derivation may not define anew.
    pub fn own(&self) -> &[Aggregation]
        ensures { result.now ≡ own_aggregates self.now }
    {
        self.own.as_slice()
    }

    /// The columns that the ORDER BY asks for, each once.
    pub fn order(&self) -> &[OrderKey]
        ensures { result.now ≡ query_order self.now }
    {
        self.order.as_slice()
    }

    /// The log of a certificate's lines, where the certificate replays for the query; else its first fault: lines go before nodes.
    pub fn judged(&self, alloc: Global, certificate: &Certificate) -> Result<Log<'_>, CheckFault>
        ensures verdict { Gives (λ _. certificate.now) result (replayed self.now certificate.now) }
        ensures lines { IfOk result (λ log. log.log ≡ reverse certificate.now.lines) }
        ensures instances { IfOk result (λ log. log.instances ≡ self.now.tables) }
    {
        judged_log(alloc, self.query, self.frame(), self.own(), certificate)
    }
}
