//! What a rule gives is spelt out by lines, and what none has is founded.

ghost use Rattle.std.specs.Prelude.{◌≡◌, ℕ};
ghost use Rattle.rules.specs.declared.shape.Shape.TheVariants as shape_;
ghost use Rattle.bindings.specs.Operators as operators_;
ghost use Rattle.lean_logs.specs.Founding as spec;
ghost use Rattle.lean_logs.specs.Growth.{Extends};

use crate::lean_log::{LeanLog, Member};
use crate::unadded::Unadded;
use algebra::{ClassId, Expr, LineId};
use bindings::{OverOne, OverTwo};
use rules::Shape;
use std::alloc::{AllocError, Global};

/// The class that a shape is, and the lines that have its expressions: outer before inner, left before right.
#[derive(Drop)]
pub(crate) struct Placed {
    pub class: ClassId,
    pub makes: Vec<LineId>,
}

/// The expression that an operator is over classes, and the lines that have its inner expressions.
#[derive(Drop)]
pub struct Spelt {
    pub expr: Expr,
    pub makes: Vec<LineId>,
}

impl<'q> LeanLog<'q> {
    /// An operator over the class that its input is.
    #[cycle(spelling)]
    fn spell_one(
        &mut self,
        alloc: Global,
        limit: usize,
        operator: OverOne<'_>,
        input: &Shape,
    ) -> Result<Spelt, Unadded>
        ensures extends { Extends limit self.old self.new }
        ensures spelt { spec.MayStandBehind self.old (operators_.one_shape operator.entry input.now) → spec.SpeltAs limit self.old (operators_.one_shape operator.entry input.now) self.new result }
    {
        let Placed { class, makes } = self.place(alloc, limit, input)?;
        let expr = operator.over(alloc, class)?;
        Ok(Spelt { expr, makes })
    }

    /// An operator over the classes that its inputs are.
    #[cycle(spelling)]
    fn spell_two(
        &mut self,
        alloc: Global,
        limit: usize,
        operator: OverTwo<'_>,
        left: &Shape,
        right: &Shape,
    ) -> Result<Spelt, Unadded>
        ensures extends { Extends limit self.old self.new }
        ensures spelt { spec.MayStandBehind self.old (operators_.two_shape operator.entry left.now right.now) → spec.SpeltAs limit self.old (operators_.two_shape operator.entry left.now right.now) self.new result }
    {
        let Placed { class, mut makes } = self.place(alloc, limit, left)?;
        let right = self.place(alloc, limit, right)?;
        makes.extend_from_slice(right.makes.as_slice())?;
        let expr = operator.over(alloc, class, right.class)?;
        Ok(Spelt { expr, makes })
    }

    /// The expression that an operator's shape is over classes, of which the inner expressions are looked up or founded while there are fewer lines than
    /// so many.
    #[cycle(spelling)]
    pub fn spell(&mut self, alloc: Global, limit: usize, shape: &Shape) -> Result<Spelt, Unadded>
        ensures extends { Extends limit self.old self.new }
        ensures spelt { ((g : ℕ) → shape.now ≡ shape_.Class g → ⊥) → spec.MayStandBehind self.old shape.now → spec.SpeltAs limit self.old shape.now self.new result }
    {
        match shape {
            Shape::Class(_) => Err(Unadded::Refused),
            Shape::Select(c, x) => self.spell_one(alloc, limit, OverOne::Select(c), x.get()),
            Shape::Keep(k, x) => self.spell_one(alloc, limit, OverOne::Keep(k), x.get()),
            Shape::Distinct(x) => self.spell_one(alloc, limit, OverOne::Distinct, x.get()),
            Shape::Group(k, added, x) => {
                self.spell_one(alloc, limit, OverOne::Group(k, added), x.get())
            }
            Shape::Join(c, a, b) => {
                self.spell_two(alloc, limit, OverTwo::Join(c), a.get(), b.get())
            }
            Shape::LeftJoin(c, a, b) => {
                self.spell_two(alloc, limit, OverTwo::LeftJoin(c), a.get(), b.get())
            }
            Shape::Semi(c, a, b) => {
                self.spell_two(alloc, limit, OverTwo::Semi(c), a.get(), b.get())
            }
            Shape::Anti(s, m, a, b) => {
                self.spell_two(alloc, limit, OverTwo::Anti(s, m), a.get(), b.get())
            }
        }
    }

    /// The class that a shape is, in the same way.
    #[cycle(spelling)]
    fn place(&mut self, alloc: Global, limit: usize, shape: &Shape) -> Result<Placed, Unadded>
        ensures extends { Extends limit self.old self.new }
        ensures placed { spec.MayStandBehind self.old shape.now → spec.PlacedAs limit self.old shape.now self.new result }
    {
        let _replays = self.log().lines();
        if let Shape::Class(class) = shape {
            return Ok(Placed {
                class: *class,
                makes: Vec::new(alloc),
            });
        }
        let Spelt { expr, makes: inner } = self.spell(alloc, limit, shape)?;
        let _spelt = self.log().lines();
        let Member { line, class } = self.intern(alloc, limit, expr)?;
        let _founded = self.log().lines();
        let mut makes = Vec::new(alloc);
        makes.push(line)?;
        makes.extend_from_slice(inner.as_slice())?;
        Ok(Placed { class, makes })
    }
}
