//! Classes in disjoint sets. Uniting two sets relabels the classes of the smaller one, so that n of them take n log n steps in all:
//! Aho, Hopcroft and Ullman, The design and analysis of computer algorithms, 1974, section 4.6.

ghost use Rattle.std.specs.Prelude.{◌≡◌, ◌<◌, ◌+◌, ◌==◌, ◌++◌, ◌∷◌, ◌&&◌, [], ℕ, false, nat_lt, length, if◌then◌else◌, slice_index_or, slice_set, OnErr, OnOk};
ghost use Rattle.std.specs.List.{AllByRecursion};
ghost use Rattle.algebra.specs.Columns.{has};
ghost use Rattle.props.specs.Facts.{no_facts, with_fact};
ghost use Rattle.logs.specs.Sets as spec;

use algebra::ClassId;
use derivation::Numbers;
use props::{Fact, Facts};
use std::alloc::{AllocError, Global};
use std::mem;

/// Classes in disjoint sets, each set with the class that stands for it and with the facts of its classes.
pub struct ClassSets {
    /// For each class the number of its set.
    pub sets: Vec<u32>,
    /// For each set the class that stands for it.
    pub roots: Vec<ClassId>,
    /// For each set its classes; none where they went over to another set.
    pub members: Vec<Numbers>,
    /// For each set the facts of its classes.
    pub facts: Vec<Facts>,
}

// By hand, so that where it is dropped is one call.
impl Drop for ClassSets {
    fn drop(self) {
        let ClassSets {
            sets: _,
            roots: _,
            members: _,
            facts: _,
        } = self;
    }
}

/// Puts classes into a set.
fn relabel(sets: &mut [u32], classes: &[ClassId], set: u32)
    requires { AllByRecursion (λ g. g < length sets.old) classes.now }
    ensures count { length sets.new ≡ length sets.old }
    ensures sets { (g : ℕ) → slice_index_or sets.new g 0 ≡ (if has classes.now g then set else slice_index_or sets.old g 0) }
{
    for class in classes {
        sets[*class as usize] = set;
    }
}

/// Moves the facts of two sets into the first: those of the set with fewer keys go into the other's. Where there is no memory, both
/// keep theirs.
fn unite_facts(alloc: Global, first: &mut Facts, second: &mut Facts) -> Result<(), AllocError>
    ensures united { OnOk result (spec.AreOfBoth first.old second.old first.new) }
    ensures refused { OnErr result ((first.new ≡ first.old) × (second.new ≡ second.old)) }
{
    if first.key_count() < second.key_count() {
        second.learn_all(alloc, first)?;
        mem::swap(first, second);
        Ok(())
    } else {
        first.learn_all(alloc, second)
    }
}

/// Moves the facts of one set to another's. Where there is no memory, nothing is changed.
fn join_facts(
    alloc: Global,
    facts: &mut Vec<Facts>,
    into: usize,
    from: usize,
) -> Result<(), AllocError>
    requires into { into < length facts.old.items }
    requires from { from < length facts.old.items }
    requires other { (into == from) ≡ false }
    ensures joined { OnOk result (spec.AreFactsJoined facts.old.items into from facts.new.items) }
    ensures refused { OnErr result (facts.new.items ≡ facts.old.items) }
    ensures room { spec.KeepsRoom facts.old facts.new }
{
    let mut more = mem::replace(&mut facts[from], Facts::none());
    let joined = unite_facts(alloc, &mut facts[into], &mut more);
    facts[from] = more;
    joined
}

/// Puts these classes, which are those of one set, and its facts to another set's. Where there is no memory, nothing is changed.
fn join(
    alloc: Global,
    members: &mut Vec<Numbers>,
    facts: &mut Vec<Facts>,
    classes: &Numbers,
    into: usize,
    from: usize,
) -> Result<(), AllocError>
    requires members { into < length members.old.items }
    requires into { into < length facts.old.items }
    requires from { from < length facts.old.items }
    requires other { (into == from) ≡ false }
    ensures members { OnOk result (members.new.items ≡ slice_set members.old.items into (slice_index_or members.old.items into [] ++ classes.now)) }
    ensures facts { OnOk result (spec.AreFactsJoined facts.old.items into from facts.new.items) }
    ensures same_members { OnErr result (members.new.items ≡ members.old.items) }
    ensures same_facts { OnErr result (facts.new.items ≡ facts.old.items) }
    ensures members_room { spec.KeepsRoom members.old members.new }
    ensures facts_room { spec.KeepsRoom facts.old facts.new }
{
    let count = members[into].len();
    members[into].extend(alloc, classes)?;
    match join_facts(alloc, facts, into, from) {
        Ok(()) => Ok(()),
        Err(error) => {
            members[into].truncate(count);
            Err(error)
        }
    }
}

impl ClassSets {
    /// No class.
    pub fn new(alloc: Global) -> ClassSets
        ensures sets { spec.AreSets result }
        ensures count { length result.sets.items ≡ 0 }
        ensures roots { (g : ℕ) → spec.root_of result g ≡ g }
        ensures facts { (g : ℕ) → spec.facts_of result g ≡ no_facts }
    {
        ClassSets {
            sets: Vec::new(alloc),
            roots: Vec::new(alloc),
            members: Vec::new(alloc),
            facts: Vec::new(alloc),
        }
    }

    /// The classes of a class's set; none where there is no class of its number.
    pub fn classes_of(&self, class: ClassId) -> &[ClassId]
        requires { spec.AreSets self.now }
        ensures { (g : ℕ) → spec.times g result.now ≡ (if nat_lt g (length self.now.sets.items) && (spec.root_of self.now g == spec.root_of self.now class) then 1 else 0) }
    {
        let count = self.sets.as_slice().len();
        if (class as usize) < count {
            let set = self.sets[class as usize];
            self.members[set as usize].as_slice()
        } else {
            &[]
        }
    }

    /// Makes room for one class more.
    pub fn make_room(&mut self) -> Result<(), AllocError>
        ensures same { spec.AreAlike self.old self.new }
        ensures room { OnOk result (spec.HasRoom self.new) }
    {
        self.sets.reserve(1)?;
        self.roots.reserve(1)?;
        self.members.reserve(1)?;
        self.facts.reserve(1)
    }

    /// Adds a class alone in its set, where there is room for it. Its number is that of all before it.
    pub fn put(&mut self, class: ClassId)
        requires sets { spec.AreSets self.old }
        requires room { spec.HasRoom self.old }
        requires next { class ≡ length self.old.sets.items }
        ensures sets { spec.AreSets self.new }
        ensures count { length self.new.sets.items ≡ length self.old.sets.items + 1 }
        ensures roots { (g : ℕ) → spec.root_of self.new g ≡ spec.root_of self.old g }
        ensures facts { (g : ℕ) → spec.facts_of self.new g ≡ spec.facts_of self.old g }
    {
        self.sets.push_reserved(class);
        self.roots.push_reserved(class);
        self.members.push_reserved(Numbers::one(class));
        self.facts.push_reserved(Facts::none());
    }

    /// Puts the classes of one set into another, where the sets of two classes differ. Where there is no memory, nothing is changed.
    fn absorb(&mut self, alloc: Global, into: ClassId, from: ClassId) -> Result<(), AllocError>
        requires sets { spec.AreSets self.old }
        requires into { into < length self.old.sets.items }
        requires from { from < length self.old.sets.items }
        requires other { (spec.set_at self.old.sets.items into == spec.set_at self.old.sets.items from) ≡ false }
        ensures sets { OnOk result (spec.AreSets self.new) }
        ensures count { OnOk result (length self.new.sets.items ≡ length self.old.sets.items) }
        ensures united { OnOk result (spec.AreUnited self.old into from self.new) }
        ensures refused { OnErr result (spec.AreAlike self.old self.new) }
        ensures room { spec.HasRoom self.old → spec.HasRoom self.new }
    {
        let into = self.sets[into as usize];
        let from = self.sets[from as usize];
        let classes = self.members[from as usize].copy(alloc)?;
        join(
            alloc,
            &mut self.members,
            &mut self.facts,
            &classes,
            into as usize,
            from as usize,
        )?;
        self.members[from as usize] = Numbers::none();
        self.facts[from as usize] = Facts::none();
        relabel(&mut self.sets, classes.as_slice(), into);
        self.roots[into as usize] = self.roots[into as usize].min(self.roots[from as usize]);
        Ok(())
    }

    /// Makes the sets of two classes one. Where there is no memory, nothing is changed.
    pub fn unite(
        &mut self,
        alloc: Global,
        first: ClassId,
        second: ClassId,
    ) -> Result<(), AllocError>
        requires sets { spec.AreSets self.old }
        requires first { first < length self.old.sets.items }
        requires second { second < length self.old.sets.items }
        ensures sets { OnOk result (spec.AreSets self.new) }
        ensures count { OnOk result (length self.new.sets.items ≡ length self.old.sets.items) }
        ensures united { OnOk result (spec.AreUnited self.old first second self.new) }
        ensures refused { OnErr result (spec.AreAlike self.old self.new) }
        ensures room { spec.HasRoom self.old → spec.HasRoom self.new }
    {
        let one = self.sets[first as usize];
        let other = self.sets[second as usize];
        if one == other {
            Ok(())
        } else if self.members[one as usize].len() < self.members[other as usize].len() {
            self.absorb(alloc, second, first)
        } else {
            self.absorb(alloc, first, second)
        }
    }

    /// Adds a fact to those of a class's set. Where there is no memory, nothing is changed.
    pub fn learn(&mut self, alloc: Global, class: ClassId, fact: &Fact) -> Result<(), AllocError>
        requires sets { spec.AreSets self.old }
        requires class { class < length self.old.sets.items }
        ensures sets { spec.AreSets self.new }
        ensures count { length self.new.sets.items ≡ length self.old.sets.items }
        ensures roots { (g : ℕ) → spec.root_of self.new g ≡ spec.root_of self.old g }
        ensures facts { OnOk result ((g : ℕ) → spec.facts_of self.new g ≡ (if spec.root_of self.old g == spec.root_of self.old class then with_fact (spec.facts_of self.old g) fact.now else spec.facts_of self.old g)) }
        ensures refused { OnErr result ((g : ℕ) → spec.facts_of self.new g ≡ spec.facts_of self.old g) }
        ensures room { spec.HasRoom self.old → spec.HasRoom self.new }
    {
        let set = self.sets[class as usize];
        self.facts[set as usize].learn(alloc, fact)
    }
}
