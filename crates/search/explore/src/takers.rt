//! Which rules of the book may take a line, by its operator.

use algebra::Expr;
use book::RuleName;
use rules::{Input, Operator, Operators, Pattern};
use std::alloc::{AllocError, Global};

/// Rules by the operators of a line that they take: at the place of each operator.
#[derive(Drop)]
pub(crate) struct ByOperator {
    rules: Vec<Vec<RuleName>>,
}

/// A rule of two lines.
#[derive(Clone, Copy)]
pub(crate) struct PairRule {
    pub rule: RuleName,
    /// Which class of the upper line the lower one is of.
    pub input: Input,
}

/// Rules of two lines by the operators of both: at the place of the upper one, behind those before it, that of the lower one.
#[derive(Drop)]
pub(crate) struct ByPair {
    rules: Vec<Vec<PairRule>>,
}

/// The rules of the book, by the lines that they take.
#[derive(Drop)]
pub(crate) struct Takers {
    /// Those of one line, where nothing is picked.
    pub alone: ByOperator,
    /// Those of two, by the upper one, over a class that it takes first.
    pub over_first: ByOperator,
    /// The same over a class that it takes second.
    pub over_second: ByOperator,
    /// Those of two, by the lower one.
    pub under: ByOperator,
    /// Those of two, by both.
    pub pairs: ByPair,
    /// Those of three lines and with a pick: by the first line, by the second and by the third.
    pub first: ByOperator,
    pub second: ByOperator,
    pub third: ByOperator,
}

const SELECT: usize = 1;

/// How many operators there are.
const OPERATORS: usize = 9;

fn place_of(operator: Operator) -> usize {
    match operator {
        Operator::Get => 0,
        Operator::Select => SELECT,
        Operator::Join => 2,
        Operator::LeftJoin => 3,
        Operator::Semi => 4,
        Operator::Anti => 5,
        Operator::Keep => 6,
        Operator::Distinct => 7,
        Operator::Group => 8,
    }
}

fn place_of_expr(expr: &Expr) -> usize {
    match expr {
        Expr::Get(_) => 0,
        Expr::Select(_, _) => SELECT,
        Expr::Join(_, _, _) => 2,
        Expr::LeftJoin(_, _, _) => 3,
        Expr::Semi(_, _, _) => 4,
        Expr::Anti(_, _, _, _) => 5,
        Expr::Keep(_, _) => 6,
        Expr::Distinct(_) => 7,
        Expr::Group(_, _, _) => 8,
    }
}

impl ByOperator {
    fn none(alloc: Global) -> Result<ByOperator, AllocError> {
        let mut rules = Vec::with_capacity(alloc, OPERATORS)?;
        for _ in 0..OPERATORS {
            rules.push(Vec::new(alloc))?;
        }
        Ok(ByOperator { rules })
    }

    fn add_at(&mut self, place: usize, rule: RuleName) -> Result<(), AllocError> {
        if let Some(rules) = self.rules.get_mut(place) {
            rules.push(rule)?;
        }
        Ok(())
    }

    fn add(&mut self, operators: Operators, rule: RuleName) -> Result<(), AllocError> {
        match operators {
            Operators::Only(operator) => self.add_at(place_of(operator), rule),
            Operators::Either(one, other) => {
                self.add_at(place_of(one), rule)?;
                self.add_at(place_of(other), rule)
            }
        }
    }

    /// The rules that take a line with this expression.
    pub(crate) fn of(&self, expr: &Expr) -> &[RuleName] {
        match self.rules.get(place_of_expr(expr)) {
            Some(rules) => rules.as_slice(),
            None => &[],
        }
    }
}

impl PairRule {
    /// Whether the lower line is of the class that the upper one takes there.
    pub(crate) fn takes(self, input: Input) -> bool {
        match (self.input, input) {
            (Input::First, Input::First) | (Input::Second, Input::Second) => true,
            _ => false,
        }
    }
}

/// The place of two operators.
fn pair_place(top: usize, below: usize) -> usize {
    top.saturating_mul(OPERATORS).saturating_add(below)
}

impl ByPair {
    fn none(alloc: Global) -> Result<ByPair, AllocError> {
        let count = OPERATORS * OPERATORS;
        let mut rules = Vec::with_capacity(alloc, count)?;
        for _ in 0..count {
            rules.push(Vec::new(alloc))?;
        }
        Ok(ByPair { rules })
    }

    fn add_at(&mut self, top: usize, below: usize, pair: PairRule) -> Result<(), AllocError> {
        if let Some(rules) = self.rules.get_mut(pair_place(top, below)) {
            rules.push(pair)?;
        }
        Ok(())
    }

    fn add_over(&mut self, top: usize, below: Operators, pair: PairRule) -> Result<(), AllocError> {
        match below {
            Operators::Only(operator) => self.add_at(top, place_of(operator), pair),
            Operators::Either(one, other) => {
                self.add_at(top, place_of(one), pair)?;
                self.add_at(top, place_of(other), pair)
            }
        }
    }

    fn add(&mut self, top: Operators, below: Operators, pair: PairRule) -> Result<(), AllocError> {
        match top {
            Operators::Only(operator) => self.add_over(place_of(operator), below, pair),
            Operators::Either(one, other) => {
                self.add_over(place_of(one), below, pair)?;
                self.add_over(place_of(other), below, pair)
            }
        }
    }

    /// The rules that take a line with the one expression over a line with the other, if that is of the right class.
    pub(crate) fn of(&self, top: &Expr, below: &Expr) -> &[PairRule] {
        match self
            .rules
            .get(pair_place(place_of_expr(top), place_of_expr(below)))
        {
            Some(rules) => rules.as_slice(),
            None => &[],
        }
    }
}

impl Takers {
    /// Those of the book.
    pub(crate) fn of_book(alloc: Global) -> Result<Takers, AllocError> {
        let mut takers = Takers {
            alone: ByOperator::none(alloc)?,
            over_first: ByOperator::none(alloc)?,
            over_second: ByOperator::none(alloc)?,
            under: ByOperator::none(alloc)?,
            pairs: ByPair::none(alloc)?,
            first: ByOperator::none(alloc)?,
            second: ByOperator::none(alloc)?,
            third: ByOperator::none(alloc)?,
        };
        for rule in RuleName::all() {
            takers.add(*rule)?;
        }
        Ok(takers)
    }

    fn add(&mut self, rule: RuleName) -> Result<(), AllocError> {
        match rule.pattern() {
            Pattern::One(operators) => self.alone.add(operators, rule),
            Pattern::Two(top, below) => {
                match below.input {
                    Input::First => self.over_first.add(top, rule)?,
                    Input::Second => self.over_second.add(top, rule)?,
                }
                let pair = PairRule {
                    rule,
                    input: below.input,
                };
                self.pairs.add(top, below.operators, pair)?;
                self.under.add(below.operators, rule)
            }
            Pattern::Three(top, below, lowest) => {
                self.first.add(top, rule)?;
                self.second.add(below.operators, rule)?;
                self.third.add(lowest.operators, rule)
            }
            Pattern::Subquery => self.first.add_at(SELECT, rule),
            Pattern::SubqueryLine(operators) | Pattern::ClassLine(operators) => {
                self.first.add_at(SELECT, rule)?;
                self.second.add(operators, rule)
            }
        }
    }

    /// The rules of two lines that take a line with this expression over one of the class that it takes there.
    pub(crate) fn over(&self, expr: &Expr, input: Input) -> &[RuleName] {
        match input {
            Input::First => self.over_first.of(expr),
            Input::Second => self.over_second.of(expr),
        }
    }
}
