//! The bindings that come with a line: those of this line and of earlier ones.

use crate::news::has_news;
use crate::promises::{Products, rank_of};
use crate::queue::Queue;
use crate::takers::Takers;
use algebra::{ClassId, Expr, LineId};
use bindings::{Binding, BoundLines};
use book::RuleName;
use memo::Memo;
use query::ids::id_of;
use rules::{Below, Input, Match, MatchedLine, Pattern, picked_subquery};
use std::alloc::{AllocError, Global};

/// A line with its number.
#[derive(Clone, Copy)]
struct Numbered<'m> {
    number: LineId,
    line: MatchedLine<'m>,
}

/// Which bindings an earlier pass has tried: those of the lines that there were, where nothing has become known of their classes since.
#[derive(Drop)]
pub(crate) struct Tried {
    /// So many lines there were.
    lines: usize,
    /// What was known when the log had so many lines was known when the pass began.
    since: usize,
    /// The bindings of the last pass. What one gave stays there, whatever becomes known.
    queue: Queue,
}

/// Which bindings a pass enters into its queue.
#[derive(Clone, Copy)]
pub(crate) struct PassFilter<'t> {
    pub takers: &'t Takers,
    pub products: Products,
    pub tried: &'t Tried,
}

/// A line that comes into the queue.
#[derive(Clone, Copy)]
struct Entry<'m, 'q> {
    memo: &'m Memo<'q>,
    filter: PassFilter<'m>,
    new: Numbered<'m>,
}

impl Tried {
    pub(crate) fn nothing(alloc: Global) -> Tried {
        Tried {
            lines: 0,
            since: 0,
            queue: Queue::new(alloc),
        }
    }

    /// Keeps the bindings of a pass that ends.
    pub(crate) fn keep(&mut self, queue: Queue) {
        self.queue = queue;
    }

    /// Notes that a pass began with so many lines and ended with so many.
    pub(crate) fn note_pass(&mut self, since: usize, lines: usize) {
        self.since = since;
        self.lines = lines;
    }
}

impl<'m, 'q> Entry<'m, 'q> {
    fn numbered(self, number: LineId) -> Option<Numbered<'m>> {
        let line = self.memo.log().member(number)?;
        Some(Numbered { number, line })
    }

    /// The lines of a class that are no later, if there is one.
    fn lines_of(self, alloc: Global, class: Option<ClassId>) -> Result<Vec<LineId>, AllocError> {
        let Some(class) = class else {
            return Ok(Vec::new(alloc));
        };
        let mut lines = self.memo.log().members(alloc, class)?;
        lines.retain(|line| *line <= self.new.number);
        Ok(lines)
    }

    /// The earlier lines that take a class.
    fn lines_over(self, class: ClassId) -> Result<Vec<LineId>, AllocError> {
        let mut lines = self.memo.parents(class)?;
        lines.retain(|line| *line < self.new.number);
        Ok(lines)
    }

    /// Whether an earlier pass has tried these lines, of which the new one is the latest, and would find nothing else now. What is known of classes that
    /// conditions name isn't asked.
    fn is_tried(self, lines: &[MatchedLine<'_>]) -> bool {
        let tried = self.filter.tried;
        let latest = self.new.number as usize;
        if latest >= tried.lines {
            return false;
        }
        for line in lines {
            if has_news(self.memo, *line, latest.max(tried.since)) {
                return false;
            }
        }
        true
    }

    /// Puts a binding into the queue, whose rule's pattern fits these lines, which are its own.
    fn offer(
        self,
        alloc: Global,
        queue: &mut Queue,
        binding: Binding,
        lines: &[MatchedLine<'_>],
    ) -> Result<(), AllocError> {
        let Some(top) = lines.first() else {
            return Ok(());
        };
        if self.is_tried(lines) {
            return Ok(());
        }
        if self.filter.tried.queue.has_given(self.new.number, binding) {
            return queue.add_given(binding);
        }
        let classes = self.memo.log().classes();
        let at = Match {
            lines,
            pick: binding.pick,
            classes,
        };
        let promise = binding.rule.promise(alloc, at)?;
        if self.filter.products.allow(promise) {
            let width = classes.columns.columns_of(top.class).len();
            queue.add(alloc, binding, rank_of(promise), width)?;
        }
        Ok(())
    }

    /// The same where the pattern may not fit.
    fn offer_if_fits(
        self,
        alloc: Global,
        queue: &mut Queue,
        binding: Binding,
        lines: &[MatchedLine<'_>],
    ) -> Result<(), AllocError> {
        let at = Match {
            lines,
            pick: binding.pick,
            classes: self.memo.log().classes(),
        };
        if binding.rule.pattern().fits(alloc, at)? {
            self.offer(alloc, queue, binding, lines)?;
        }
        Ok(())
    }

    /// A rule of one line, where nothing is picked.
    fn offer_alone(
        self,
        alloc: Global,
        queue: &mut Queue,
        rule: RuleName,
    ) -> Result<(), AllocError> {
        let lines = BoundLines::One(self.new.number);
        let binding = Binding {
            rule,
            pick: 0,
            lines,
        };
        self.offer(alloc, queue, binding, [self.new.line].as_slice())
    }

    /// A rule with a pick of the line.
    fn offer_pick(
        self,
        alloc: Global,
        queue: &mut Queue,
        rule: RuleName,
        pick: u32,
    ) -> Result<(), AllocError> {
        let lines = BoundLines::One(self.new.number);
        let binding = Binding { rule, pick, lines };
        self.offer_if_fits(alloc, queue, binding, [self.new.line].as_slice())
    }

    /// A rule of two lines, of which the second is of the class that the first takes there.
    fn offer_over(
        self,
        alloc: Global,
        queue: &mut Queue,
        rule: RuleName,
        top: Numbered<'_>,
        below: Numbered<'_>,
    ) -> Result<(), AllocError> {
        let lines = BoundLines::Two(top.number, below.number);
        let binding = Binding {
            rule,
            pick: 0,
            lines,
        };
        self.offer(alloc, queue, binding, [top.line, below.line].as_slice())
    }

    /// A rule of two lines with a pick.
    fn offer_pair(
        self,
        alloc: Global,
        queue: &mut Queue,
        rule: RuleName,
        pick: u32,
        top: Numbered<'_>,
        below: Numbered<'_>,
    ) -> Result<(), AllocError> {
        let lines = BoundLines::Two(top.number, below.number);
        let binding = Binding { rule, pick, lines };
        self.offer_if_fits(alloc, queue, binding, [top.line, below.line].as_slice())
    }

    /// The line over each of the class that it takes there.
    fn offer_input(self, alloc: Global, queue: &mut Queue, input: Input) -> Result<(), AllocError> {
        let expr = self.new.line.expr;
        for number in self.lines_of(alloc, input.of(expr))? {
            if let Some(below) = self.numbered(number) {
                for pair in self.filter.takers.pairs.of(expr, below.line.expr) {
                    if pair.takes(input) {
                        self.offer_over(alloc, queue, pair.rule, self.new, below)?;
                    }
                }
            }
        }
        Ok(())
    }

    /// The line over each of a class, with a pick.
    fn offer_pairs(
        self,
        alloc: Global,
        queue: &mut Queue,
        rule: RuleName,
        pick: u32,
        class: Option<ClassId>,
    ) -> Result<(), AllocError> {
        for number in self.lines_of(alloc, class)? {
            if let Some(below) = self.numbered(number) {
                self.offer_pair(alloc, queue, rule, pick, self.new, below)?;
            }
        }
        Ok(())
    }

    /// A line over this one, by the rules of two lines that take both.
    fn offer_under(
        self,
        alloc: Global,
        queue: &mut Queue,
        top: Numbered<'_>,
    ) -> Result<(), AllocError> {
        for pair in self
            .filter
            .takers
            .pairs
            .of(top.line.expr, self.new.line.expr)
        {
            if let Some(class) = pair.input.of(top.line.expr) {
                if self.memo.log().are_same(class, self.new.line.class) {
                    self.offer_over(alloc, queue, pair.rule, top, self.new)?;
                }
            }
        }
        Ok(())
    }

    /// Two lines over each of the class that the second one takes there.
    fn offer_triples(
        self,
        alloc: Global,
        queue: &mut Queue,
        rule: RuleName,
        top: Numbered<'_>,
        below: Numbered<'_>,
        lower: Below,
    ) -> Result<(), AllocError> {
        for number in self.lines_of(alloc, lower.input.of(below.line.expr))? {
            let found = self
                .numbered(number)
                .filter(|found| lower.operators.include(found.line.expr));
            if let Some(lowest) = found {
                let lines = BoundLines::Three(top.number, below.number, number);
                let binding = Binding {
                    rule,
                    pick: 0,
                    lines,
                };
                let matched = [top.line, below.line, lowest.line];
                self.offer_if_fits(alloc, queue, binding, matched.as_slice())?;
            }
        }
        Ok(())
    }

    /// What fits at the line alone, and over others.
    fn enter_on_top(self, alloc: Global, queue: &mut Queue) -> Result<(), AllocError> {
        let expr = self.new.line.expr;
        for rule in self.filter.takers.alone.of(expr) {
            self.offer_alone(alloc, queue, *rule)?;
        }
        for input in [Input::First, Input::Second] {
            if !self.filter.takers.over(expr, input).is_empty() {
                self.offer_input(alloc, queue, input)?;
            }
        }
        for rule in self.filter.takers.first.of(expr) {
            self.enter_first(alloc, queue, *rule)?;
        }
        Ok(())
    }

    /// The same of a rule of three lines or with a pick.
    fn enter_first(
        self,
        alloc: Global,
        queue: &mut Queue,
        rule: RuleName,
    ) -> Result<(), AllocError> {
        let expr = self.new.line.expr;
        match rule.pattern() {
            Pattern::Three(_, below, lowest) => {
                for number in self.lines_of(alloc, below.input.of(expr))? {
                    let found = self
                        .numbered(number)
                        .filter(|found| below.operators.include(found.line.expr));
                    if let Some(second) = found {
                        self.offer_triples(alloc, queue, rule, self.new, second, lowest)?;
                    }
                }
            }
            Pattern::Subquery => {
                for pick in 0..conjunct_count(expr)? {
                    self.offer_pick(alloc, queue, rule, pick)?;
                }
            }
            Pattern::SubqueryLine(_) => {
                for pick in 0..conjunct_count(expr)? {
                    let class = picked_subquery(expr, pick);
                    self.offer_pairs(alloc, queue, rule, pick, class)?;
                }
            }
            Pattern::ClassLine(_) => {
                for class in classes_named(alloc, expr)? {
                    self.offer_pairs(alloc, queue, rule, class, Some(class))?;
                }
            }
            Pattern::One(_) | Pattern::Two(_, _) => {}
        }
        Ok(())
    }

    /// What fits at earlier lines over this one.
    fn enter_under(self, alloc: Global, queue: &mut Queue) -> Result<(), AllocError> {
        let expr = self.new.line.expr;
        let pairs = self.filter.takers.under.of(expr);
        let others = self.filter.takers.second.of(expr);
        if pairs.is_empty() && others.is_empty() {
            return Ok(());
        }
        for number in self.lines_over(self.new.line.class)? {
            if let Some(top) = self.numbered(number) {
                self.offer_under(alloc, queue, top)?;
                for rule in others {
                    self.enter_second(alloc, queue, *rule, top)?;
                }
            }
        }
        Ok(())
    }

    /// The same of a rule of three lines or with a pick.
    fn enter_second(
        self,
        alloc: Global,
        queue: &mut Queue,
        rule: RuleName,
        top: Numbered<'_>,
    ) -> Result<(), AllocError> {
        match rule.pattern() {
            Pattern::Three(first, _, lowest) => {
                if first.include(top.line.expr) {
                    self.offer_triples(alloc, queue, rule, top, self.new, lowest)?;
                }
                Ok(())
            }
            Pattern::SubqueryLine(_) => {
                for pick in 0..conjunct_count(top.line.expr)? {
                    self.offer_pair(alloc, queue, rule, pick, top, self.new)?;
                }
                Ok(())
            }
            Pattern::ClassLine(_) => {
                for class in classes_named(alloc, top.line.expr)? {
                    self.offer_pair(alloc, queue, rule, class, top, self.new)?;
                }
                Ok(())
            }
            Pattern::One(_) | Pattern::Two(_, _) | Pattern::Subquery => Ok(()),
        }
    }

    /// What fits at two earlier lines over this one.
    fn enter_third(self, alloc: Global, queue: &mut Queue) -> Result<(), AllocError> {
        let rules = self.filter.takers.third.of(self.new.line.expr);
        if rules.is_empty() {
            return Ok(());
        }
        for number in self.lines_over(self.new.line.class)? {
            if let Some(second) = self.numbered(number) {
                for first in self.lines_over(second.line.class)? {
                    if let Some(top) = self.numbered(first) {
                        self.offer_lowest(alloc, queue, rules, top, second)?;
                    }
                }
            }
        }
        Ok(())
    }

    /// This line below two others.
    fn offer_lowest(
        self,
        alloc: Global,
        queue: &mut Queue,
        rules: &[RuleName],
        top: Numbered<'_>,
        below: Numbered<'_>,
    ) -> Result<(), AllocError> {
        let lines = BoundLines::Three(top.number, below.number, self.new.number);
        let matched = [top.line, below.line, self.new.line];
        for rule in rules {
            let binding = Binding {
                rule: *rule,
                pick: 0,
                lines,
            };
            self.offer_if_fits(alloc, queue, binding, matched.as_slice())?;
        }
        Ok(())
    }
}

/// How many conjuncts a selection has; of what isn't one, none.
fn conjunct_count(expr: &Expr) -> Result<u32, AllocError> {
    match expr {
        Expr::Select(conjuncts, _) => id_of(conjuncts.as_slice().len()),
        _ => Ok(0),
    }
}

/// The classes that the conjuncts of a selection name.
fn classes_named(alloc: Global, expr: &Expr) -> Result<Vec<ClassId>, AllocError> {
    match expr {
        Expr::Select(conjuncts, _) => conjuncts.classes(alloc),
        _ => Ok(Vec::new(alloc)),
    }
}

/// Puts into the queue what fits at a line alone, over earlier lines and itself, and below earlier ones. So each binding is put there once, by the
/// latest of its lines.
pub(crate) fn enter(
    alloc: Global,
    memo: &Memo<'_>,
    filter: PassFilter<'_>,
    queue: &mut Queue,
    number: LineId,
) -> Result<(), AllocError> {
    let Some(line) = memo.log().member(number) else {
        return Ok(());
    };
    let entry = Entry {
        memo,
        filter,
        new: Numbered { number, line },
    };
    entry.enter_on_top(alloc, queue)?;
    entry.enter_under(alloc, queue)?;
    entry.enter_third(alloc, queue)
}
