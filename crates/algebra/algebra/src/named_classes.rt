//! The classes that conditions and expressions name.

ghost use Rattle.std.specs.Prelude.{◌≡◌, ◌++◌, flat_map, option_to_list, IfOk, OnOk};
ghost use Rattle.algebra.specs.Conditions as spec;
ghost use Rattle.algebra.specs.Expressions.{input_classes};

use crate::columns::in_rising_order;
use crate::condition::{ClassId, Condition, Conjuncts};
use crate::expr::Expr;
use std::alloc::{AllocError, Global};

/// Adds the classes that a condition names.
#[cycle(classes)]
fn add_classes(condition: &Condition, classes: &mut Vec<ClassId>) -> Result<(), AllocError>
    ensures { OnOk result (classes.new.items ≡ classes.old.items ++ spec.named_classes condition.now) }
{
    match condition {
        Condition::Compare(_, _, _) => Ok(()),
        Condition::IsNull(_) => Ok(()),
        Condition::Not(part) => add_classes(part.get(), classes),
        Condition::And(a, b, more) => {
            add_classes(a.get(), classes)?;
            add_classes(b.get(), classes)?;
            add_all_classes(more.as_slice(), classes)
        }
        Condition::Or(a, b, more) => {
            add_classes(a.get(), classes)?;
            add_classes(b.get(), classes)?;
            add_all_classes(more.as_slice(), classes)
        }
        Condition::Exists(class) => {
            classes.push(*class)?;
            Ok(())
        }
        Condition::In(_, class, _) => {
            classes.push(*class)?;
            Ok(())
        }
    }
}

#[cycle(classes)]
fn add_all_classes(conditions: &[Condition], classes: &mut Vec<ClassId>) -> Result<(), AllocError>
    ensures { OnOk result (classes.new.items ≡ classes.old.items ++ flat_map spec.named_classes conditions.now) }
{
    for condition in conditions {
        add_classes(condition, classes)?;
    }
    Ok(())
}

impl Conjuncts {
    /// The classes that the conditions name, in rising order.
    pub fn classes(&self, alloc: Global) -> Result<Vec<ClassId>, AllocError>
        ensures { IfOk result (λ classes. classes.items ≡ spec.classes_in self.now) }
    {
        let mut classes = Vec::new(alloc);
        add_all_classes(self.as_slice(), &mut classes)?;
        Ok(in_rising_order(classes))
    }
}

/// The classes that the conditions of two lists name, in rising order.
fn classes_in_both(
    alloc: Global,
    first: &[Condition],
    second: &[Condition],
) -> Result<Vec<ClassId>, AllocError>
    ensures { IfOk result (λ classes. classes.items ≡ spec.classes_in (first.now ++ second.now)) }
{
    let mut classes = Vec::new(alloc);
    add_all_classes(first, &mut classes)?;
    add_all_classes(second, &mut classes)?;
    Ok(in_rising_order(classes))
}

/// Adds the class, if there is one.
fn add_class(class: Option<ClassId>, classes: &mut Vec<ClassId>) -> Result<(), AllocError>
    ensures { OnOk result (classes.new.items ≡ classes.old.items ++ option_to_list class) }
{
    if let Some(class) = class {
        classes.push(class)?;
    }
    Ok(())
}

impl Expr {
    /// The classes of its inputs, the left one first, and then those that its conditions name, in rising order.
    pub fn inputs(&self, alloc: Global) -> Result<Vec<ClassId>, AllocError>
        ensures { IfOk result (λ classes. classes.items ≡ input_classes self.now) }
    {
        let (left, right) = self.children();
        let (first, second) = self.conditions();
        let named = classes_in_both(alloc, first, second)?;
        let mut classes = Vec::new(alloc);
        add_class(left, &mut classes)?;
        add_class(right, &mut classes)?;
        classes.extend_from_slice(named.as_slice())?;
        Ok(classes)
    }
}
