//! The lines that add expressions to classes.

ghost use Rattle.std.specs.Prelude.{◌≡◌, ◌<◌, ◌≤◌, ◌++◌, ◌∷◌, [], length, slice_index_or, slice_set, OnOk};
ghost use Rattle.derivation.specs.Logs.{Log};
ghost use Rattle.logs.specs.Knowledge.{NamesEarlier};
ghost use Rattle.logs.specs.Members as spec;

use algebra::{ClassId, LineId};
use derivation::Line;
use std::alloc::{AllocError, Global};

/// For each class the lines that add to it, in a chain from the last of them to the class.
pub struct Additions {
    /// For each class the last line that adds to it; the class itself where none does.
    pub last: Vec<LineId>,
    /// For each line that adds to a class the one before it; the class where there is none.
    pub earlier: Vec<LineId>,
}

// By hand, so that where it is dropped is one call.
impl Drop for Additions {
    fn drop(self) {
        let Additions {
            last: _,
            earlier: _,
        } = self;
    }
}

/// The class to which a line adds; the line itself where it adds to none.
fn target(line: &Line, number: LineId) -> ClassId
    ensures { result ≡ spec.target number line.now }
{
    match line {
        Line::Adds(class, _, _) => *class,
        Line::Founds(_) | Line::Unites(_, _, _) | Line::Alike(_, _) | Line::Gives(_, _, _) =>
            number,
    }
}

impl Additions {
    /// No line.
    pub fn new(alloc: Global) -> Additions
        ensures { spec.AreAdditions [] result }
    {
        Additions {
            last: Vec::new(alloc),
            earlier: Vec::new(alloc),
        }
    }

    /// The last line that adds to a class; the class itself where none does.
    pub fn last_of(&self, class: ClassId) -> LineId
        requires { class < length self.now.last.items }
        ensures { result ≡ slice_index_or self.now.last.items class 0 }
    {
        self.last[class as usize]
    }

    /// The line that added before one to the same class; the class where that was the first.
    pub fn before(&self, line: LineId) -> LineId
        requires { line < length self.now.earlier.items }
        ensures { result ≡ slice_index_or self.now.earlier.items line 0 }
    {
        self.earlier[line as usize]
    }

    /// Makes room for one line more.
    pub fn make_room(&mut self) -> Result<(), AllocError>
        ensures last { self.new.last.items ≡ self.old.last.items }
        ensures earlier { self.new.earlier.items ≡ self.old.earlier.items }
        ensures room { OnOk result (spec.HasRoom self.new) }
    {
        self.last.reserve(1)?;
        self.earlier.reserve(1)
    }

    /// Adds the line of this number to a class, or to none where the class is the line itself, where there is room for it.
    fn put(&mut self, class: ClassId, number: LineId)
        requires room { spec.HasRoom self.old }
        requires number { number ≡ length self.old.last.items }
        requires class { class ≤ number }
        ensures last { self.new.last.items ≡ slice_set (self.old.last.items ++ number ∷ []) class number }
        ensures earlier { self.new.earlier.items ≡ self.old.earlier.items ++ slice_index_or (self.old.last.items ++ number ∷ []) class 0 ∷ [] }
    {
        self.last.push_reserved(number);
        self.earlier.push_reserved(self.last[class as usize]);
        self.last[class as usize] = number;
    }

    /// Adds a line that may stand behind others, where there is room for it.
    pub fn note(&mut self, line: &Line, number: LineId)
        requires room { spec.HasRoom self.old }
        requires number { number ≡ length self.old.last.items }
        requires class { spec.target number line.now ≤ number }
        ensures { (E : Log) → spec.AreAdditions E self.old → NamesEarlier E line.now → spec.AreAdditions (line.now ∷ E) self.new }
    {
        self.put(target(line, number), number);
    }
}
