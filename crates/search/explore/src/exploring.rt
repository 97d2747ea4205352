//! Each rule at each binding.

ghost use Rattle.std.specs.Prelude.{◌≡◌, ◌<◌, ◌≤◌, ◌↔◌, false, length, IsTrue, IfOk, OnOk};
ghost use Rattle.closure.specs.Closed.{IsClosed};
ghost use Rattle.closure.specs.Lacking.{IsMissing};
ghost use Rattle.bindings.specs.Lean.{IsLean, made_of};
ghost use Rattle.lean_logs.specs.Growth.{Extends, FillsLean, GrowsLean};

use crate::entering::{PassFilter, Tried, enter};
use crate::learning::{Looks, add_fact, learn_all};
use crate::promises::Products;
use crate::queue::{Next, Queue};
use crate::takers::Takers;
use closure::{Missing, missing};
use derivation::Line;
use memo::Memo;
use query::ids::id_of;
use std::alloc::{AllocError, Global};

/// So many bindings are tried at most in one pass.
const MOST_BINDINGS: usize = 20_000_000;

/// A log is gone through so often at most.
const MOST_PASSES: usize = 100;

/// Enters the lines that were added since the last time, so many are entered.
fn enter_new(
    alloc: Global,
    memo: &Memo<'_>,
    takers: &Takers,
    products: Products,
    tried: &Tried,
    queue: &mut Queue,
    entered: usize,
) -> Result<usize, AllocError> {
    let filter = PassFilter {
        takers,
        products,
        tried,
    };
    let count = memo.log().len();
    for line in entered..count {
        queue.begin_line()?;
        enter(alloc, memo, filter, queue, id_of(line)?)?;
    }
    Ok(count)
}

/// Applies the rule of a binding. Once what it gives is there, it stays there.
fn apply(
    alloc: Global,
    memo: &mut Memo<'_>,
    queue: &mut Queue,
    next: Next,
) -> Result<(), AllocError>
    ensures extends { Extends memo.old.limit memo.old.log memo.new.log }
    ensures lean { OnOk result (GrowsLean memo.old.limit memo.old.log memo.new.log) }
    ensures limit { memo.new.limit ≡ memo.old.limit }
{
    let found = memo.apply(alloc, next.binding)?;
    if found.is_some() {
        queue.note_given(next);
    }
    Ok(())
}

/// Goes through all bindings, those of lines that are added meanwhile among them, while the log has room; without those that an earlier pass has tried.
fn pass(
    alloc: Global,
    memo: &mut Memo<'_>,
    products: Products,
    tried: &mut Tried,
) -> Result<(), AllocError>
    ensures extends { Extends memo.old.limit memo.old.log memo.new.log }
    ensures lean { OnOk result (GrowsLean memo.old.limit memo.old.log memo.new.log) }
    ensures limit { memo.new.limit ≡ memo.old.limit }
{
    let takers = Takers::of_book(alloc)?;
    let mut queue = Queue::new(alloc);
    let mut entered = 0;
    for _ in 0..MOST_BINDINGS {
        // Before the lines are entered: without room that would be for nothing.
        if memo.is_crowded() {
            break;
        }
        entered = enter_new(alloc, memo, &takers, products, tried, &mut queue, entered)?;
        let Some(next) = queue.next() else {
            break;
        };
        apply(alloc, memo, &mut queue, next)?;
    }
    tried.keep(queue);
    Ok(())
}

/// Adds what each rule gives at each binding, until the log lacks room for what a rule may give or a pass adds nothing; at those that make products only
/// where these are wanted. Nothing is said of what it leaves out.
pub fn apply_all(alloc: Global, memo: &mut Memo<'_>, products: Products) -> Result<(), AllocError>
    ensures extends { Extends memo.old.limit memo.old.log memo.new.log }
    ensures limit { memo.new.limit ≡ memo.old.limit }
    ensures lean { OnOk result (GrowsLean memo.old.limit memo.old.log memo.new.log) }
{
    let mut tried = Tried::nothing(alloc);
    for _ in 0..MOST_PASSES {
        let before = memo.log().len();
        pass(alloc, memo, products, &mut tried)?;
        if memo.log().len() == before {
            break;
        }
        tried.note_pass(before, memo.log().len());
    }
    Ok(())
}

/// One such pass with products, and then what facts lines give.
fn pass_and_learn(
    alloc: Global,
    memo: &mut Memo<'_>,
    tried: &mut Tried,
    looks: &mut Looks,
) -> Result<(), AllocError>
    ensures extends { Extends memo.old.limit memo.old.log memo.new.log }
    ensures lean { OnOk result (GrowsLean memo.old.limit memo.old.log memo.new.log) }
    ensures limit { memo.new.limit ≡ memo.old.limit }
{
    pass(alloc, memo, Products::Made, tried)?;
    learn_all(alloc, memo, looks)?;
    Ok(())
}

/// Adds what each rule gives at each binding, then what facts lines give, and so on with what rules give by these, until the log lacks room or nothing is
/// added. Nothing is said of what it leaves out.
pub fn apply_and_learn(alloc: Global, memo: &mut Memo<'_>) -> Result<(), AllocError>
    ensures extends { Extends memo.old.limit memo.old.log memo.new.log }
    ensures lean { OnOk result (GrowsLean memo.old.limit memo.old.log memo.new.log) }
    ensures limit { memo.new.limit ≡ memo.old.limit }
{
    let mut looks = Looks::none(alloc);
    let mut tried = Tried::nothing(alloc);
    for _ in 0..MOST_PASSES {
        let before = memo.log().len();
        pass_and_learn(alloc, memo, &mut tried, &mut looks)?;
        if memo.log().len() == before {
            break;
        }
        tried.note_pass(before, memo.log().len());
    }
    Ok(())
}

/// Adds something of what a log lacks that isn't full.
fn add_missing(alloc: Global, memo: &mut Memo<'_>, lacking: Missing) -> Result<(), AllocError>
    requires lacks { IsMissing memo.old.log.instances memo.old.log.log lacking }
    requires room { length memo.old.log.log < memo.old.limit }
    ensures extends { Extends memo.old.limit memo.old.log memo.new.log }
    ensures fills { OnOk result (FillsLean memo.old.limit memo.old.log memo.new.log) }
    ensures limit { memo.new.limit ≡ memo.old.limit }
    ensures added { OnOk result (length memo.old.log.log < length memo.new.log.log) }
{
    match lacking {
        Missing::Alike(first, second) => memo.add(alloc, Line::Alike(first, second)),
        Missing::Result(binding) => memo.add_result(alloc, binding),
        Missing::Fact(class, line, fact) => add_fact(alloc, memo, class, line, fact),
    }
}

/// Adds what each rule gives at each binding, and what facts lines give, until nothing more can be added or the log is full. Whether nothing can be added: false
/// only where the log is full. It begins with one walk over all bindings, which is all where earlier passes left nothing out (`apply_and_learn`); else a pass
/// follows each thing that was left out.
#[tactic(auto, using(crate::proofs::Along::not_closed))]
pub fn explore(alloc: Global, memo: &mut Memo<'_>) -> Result<bool, AllocError>
    ensures closed { IfOk result (λ closed. IsTrue closed ↔ IsClosed memo.new.log.instances memo.new.log.log) }
    ensures full { IfOk result (λ closed. closed ≡ false → memo.new.limit ≤ length memo.new.log.log) }
    ensures extends { Extends memo.old.limit memo.old.log memo.new.log }
    ensures limit { memo.new.limit ≡ memo.old.limit }
    ensures fills { OnOk result (FillsLean memo.old.limit memo.old.log memo.new.log) }
    // Each line that is added says something new, and what is founded a later result names: so the log isn't filled with what is of no use.
    ensures lean { OnOk result (IsLean memo.old.log.instances made_of (length memo.old.log.log) memo.new.log.log) }
{
    'adding: loop {
        let Some(lacking) = missing(alloc, memo.log())? else {
            return Ok(true);
        };
        let is_full = memo.is_full();
        if is_full {
            return Ok(false);
        }
        add_missing(alloc, memo, lacking)?;
        apply_all(alloc, memo, Products::Made)?;
    }
}
