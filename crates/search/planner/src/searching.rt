//! The search: lines behind those of a query's frame, and the cheapest plan that they offer.

ghost use Rattle.std.specs.Prelude.{◌≡◌, ◌≤◌, true, false, length, max, IfOk, OnOk};
ghost use Rattle.closure.specs.Closed.{IsClosed};
ghost use Rattle.lean_logs.specs.Growth.{FillsLean, IsServed};
ghost use Rattle.frame.specs.Frames.{query_frame};
ghost use Rattle.planner.specs.Searched as spec;
ghost use Rattle.planner.specs.Searched.{IsBest, IsLogOf, IsReady, IsSearched, IsToldOf, framed};

use crate::planned::Exploration;
use crate::query_logs::{frame_log, judged};
use certificate::Certificate;
use costs::Cardinalities;
use derivation::Line;
use explore::{Products, apply_all, apply_and_learn, explore, simplify};
use join_trees::falls_apart;
use labels::Goal;
use lean_logs::LeanLog;
use logs::Log;
use memo::Memo;
use prepared_query::PreparedQuery;
use query::ids::id_of;
use seed::{raise_left_joins, seed};
use statistics::Statistics;
use std::alloc::{AllocError, Global};
use trimming::serving_lines;
use values::Items;
use winners::{BestPlan, best};

/// A query that is planned, and what it is planned by.
#[derive(Clone, Copy)]
pub(crate) struct Planning<'q> {
    pub query: &'q PreparedQuery<'q>,
    /// The canonical certificate, whose lines are the query's frame.
    pub known: &'q Certificate,
    pub statistics: &'q Statistics,
    /// So many lines a log may have at most.
    pub limit: usize,
    pub exploration: Exploration,
}

/// The lines of a search, the cheapest plan that they offer, and whether no rule adds anything to them.
#[derive(Drop)]
pub(crate) struct Searched<'q> {
    pub log: Log<'q>,
    pub best: BestPlan,
    pub is_complete: bool,
}

/// Lines by which good join trees are among the plans.
#[derive(Drop)]
struct Seeds {
    lines: Items<Line>,
    /// Whether products are to be explored: only where what is joined doesn't hang together by conditions.
    products: Products,
    /// What the trees are estimated to cost, if there are any.
    tree_cost: Option<u64>,
}

/// So much a plan has to cost for each line that its log may have: a line takes a small part of the time to explore that is estimated at so much.
const COST_OF_LINE: u64 = 50_000;

/// A log doubles this often at most: no machine holds more lines.
const MOST_DOUBLINGS: usize = 64;

/// Adds what is simpler to a log, and lines by which good join trees are among its plans, with outer joins above the inner ones. These put selections over
/// others and over outer joins, so it is simplified again. What was founded and serves nothing is left out. Nothing is promised of these lines: they are
/// judged anew.
fn seeds_behind(alloc: Global, planning: Planning<'_>, log: Log<'_>) -> Result<Seeds, AllocError> {
    let mut memo = Memo::of(alloc, LeanLog::behind(alloc, log)?, planning.limit)?;
    simplify(alloc, &mut memo)?;
    if raise_left_joins(alloc, &mut memo)? {
        simplify(alloc, &mut memo)?;
    }
    let products = if falls_apart(alloc, memo.log())? {
        Products::Made
    } else {
        Products::LeftOut
    };
    let tree_cost = seed(alloc, &mut memo, planning.statistics)?;
    simplify(alloc, &mut memo)?;
    Ok(Seeds {
        lines: serving_lines(alloc, memo.log(), planning.query.frame().len())?,
        products,
        tree_cost,
    })
}

/// The goal of a query's plans: the rows of its frame's last class, in the order of its ORDER BY.
fn root_goal(alloc: Global, query: &PreparedQuery<'_>) -> Result<Goal, AllocError>
    ensures { IfOk result (λ goal. goal ≡ spec.root_goal query.now) }
{
    // its contract says that it is bound, so that its frame has lines
    let _query = query.query();
    let class = id_of(query.frame().len() - 1)?;
    let order = Items::from_vec(Vec::from_slice(alloc, query.order())?);
    Ok(Goal { class, order })
}

/// The cheapest plan of the query that a log's lines offer.
fn cheapest(alloc: Global, planning: Planning<'_>, log: &Log<'_>) -> Result<BestPlan, AllocError>
    requires ready { IsReady planning }
    requires log { IsLogOf planning.query.now log.now }
    ensures { IfOk result (IsBest planning.entry.statistics.now planning.entry.query.now log.now.log) }
{
    let statistics = planning.statistics;
    let cardinalities = Cardinalities::of(alloc, statistics, log)?;
    // What its lines say is that they stand.
    let _replays = log.lines();
    let root = root_goal(alloc, planning.query)?;
    match best(alloc, log, statistics, &cardinalities, &root)? {
        Some(best) => Ok(best),
        None => unreachable!(),
    }
}

/// How many lines a log may have, so many at most, for it to be worth exploring where joins, or a plan without any, are estimated to cost so much.
fn worthwhile(limit: usize, cost: u64) -> usize
    ensures { result ≤ limit }
{
    match usize::try_from(cost / COST_OF_LINE) {
        Ok(lines) => lines.min(limit),
        Err(_) => limit,
    }
}

/// Gives a log room for twice its lines, and so many at most; whether it has any then.
fn double(memo: &mut Memo<'_>, most: usize) -> bool
    ensures log { memo.new.log ≡ memo.old.log }
    ensures limit { memo.new.limit ≤ most }
{
    let twice = memo.log().len().saturating_mul(2);
    memo.set_limit(twice.min(most));
    !memo.is_full()
}

/// The cheapest plan over twice as many lines as a log has, and so on as long as these make it cheaper, and there is room for them.
fn best_by_doubling(
    alloc: Global,
    planning: Planning<'_>,
    memo: &mut Memo<'_>,
    products: Products,
    most: usize,
    known: u64,
) -> Result<BestPlan, AllocError>
    requires ready { IsReady planning }
    requires begun { IsServed (framed planning.query.now) memo.old.log }
    ensures served { IfOk result (λ b. IsServed (framed planning.entry.query.now) memo.new.log) }
    ensures within { IfOk result (λ b. length memo.new.log.log ≤ max most (length memo.old.log.log)) }
    ensures best { IfOk result (IsBest planning.entry.statistics.now planning.entry.query.now memo.new.log.log) }
{
    let mut known = known;
    for _ in 0..MOST_DOUBLINGS {
        if !double(memo, most) {
            break;
        }
        apply_all(alloc, memo, products)?;
        let found = cheapest(alloc, planning, memo.log())?;
        if found.cost >= known {
            return Ok(found);
        }
        known = found.cost;
    }
    cheapest(alloc, planning, memo.log())
}

/// Searches a log's lines; where the cheapest plan is dear enough, others behind them as well.
fn searched_while_worthwhile<'q>(
    alloc: Global,
    planning: Planning<'q>,
    log: LeanLog<'q>,
    seeds: &Seeds,
) -> Result<Searched<'q>, AllocError>
    requires ready { IsReady planning }
    requires served { IsServed (framed planning.query.now) log }
    requires within { length log.log ≤ max planning.limit (length (query_frame planning.query.now)) }
    ensures searched { IfOk result (IsSearched planning.entry.statistics.now planning.entry.query.now planning.entry.limit) }
    ensures told { IfOk result (λ found. found.is_complete ≡ false) }
{
    let best = cheapest(alloc, planning, log.log())?;
    let worth = seeds.tree_cost.unwrap_or(best.cost);
    let most = worthwhile(planning.limit, worth.min(best.cost));
    if most <= log.log().len() {
        return Ok(Searched {
            log: log.into_log(),
            best,
            is_complete: false,
        });
    }
    let mut memo = Memo::of(alloc, log, most)?;
    let best = best_by_doubling(alloc, planning, &mut memo, seeds.products, most, best.cost)?;
    let log = memo.into_log();
    Ok(Searched {
        log,
        best,
        is_complete: false,
    })
}

/// Whether no rule adds anything to a log's lines, once all others are added that its limit leaves room for, facts among them.
fn explored_to_limit(alloc: Global, memo: &mut Memo<'_>) -> Result<bool, AllocError>
    ensures closed { IfOk result (λ is_complete. is_complete ≡ true → IsClosed memo.new.log.instances memo.new.log.log) }
    ensures full { IfOk result (λ is_complete. is_complete ≡ false → memo.old.limit ≤ length memo.new.log.log) }
    ensures fills { OnOk result (FillsLean memo.old.limit memo.old.log memo.new.log) }
{
    if memo.is_full() {
        return Ok(false);
    }
    apply_and_learn(alloc, memo)?;
    if memo.is_full() {
        return Ok(false);
    }
    explore(alloc, memo)
}

/// Searches a log's lines and all others behind them that the limit leaves room for.
fn searched_to_limit<'q>(
    alloc: Global,
    planning: Planning<'q>,
    log: LeanLog<'q>,
) -> Result<Searched<'q>, AllocError>
    requires ready { IsReady planning }
    requires served { IsServed (framed planning.query.now) log }
    requires within { length log.log ≤ max planning.limit (length (query_frame planning.query.now)) }
    ensures searched { IfOk result (IsSearched planning.entry.statistics.now planning.entry.query.now planning.entry.limit) }
    ensures told { IfOk result (λ found. found.is_complete ≡ false → planning.entry.limit ≤ length found.log.log) }
{
    let mut memo = Memo::of(alloc, log, planning.limit)?;
    let is_complete = explored_to_limit(alloc, &mut memo)?;
    let best = cheapest(alloc, planning, memo.log())?;
    let log = memo.into_log();
    Ok(Searched {
        log,
        best,
        is_complete,
    })
}

/// Searches for the cheapest plan of a query.
pub(crate) fn search_plan<'q>(
    alloc: Global,
    planning: Planning<'q>,
) -> Result<Searched<'q>, AllocError>
    requires ready { IsReady planning }
    ensures searched { IfOk result (IsSearched planning.entry.statistics.now planning.entry.query.now planning.entry.limit) }
    ensures told { IfOk result (λ found. found.is_complete ≡ false → IsToldOf planning.entry.exploration planning.entry.limit found.log.log) }
{
    let seeds = seeds_behind(alloc, planning, frame_log(alloc, planning)?)?;
    let log = judged(alloc, planning, seeds.lines.as_slice())?;
    match planning.exploration {
        Exploration::WhileWorthwhile => searched_while_worthwhile(alloc, planning, log, &seeds),
        Exploration::ToLimit => searched_to_limit(alloc, planning, log),
    }
}
