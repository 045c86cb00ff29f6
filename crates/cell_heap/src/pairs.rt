//! The pairs of a dict. Each key has a mark, by which it is found.
ghost use Rattle.std.specs.Prelude.{◌≡◌, ◌+◌, ◌++◌, [], ◌∷◌, take, drop, remove, slice_get, true, IfOk, OnOk, OnErr, IfSome};
ghost use Rattle.std.specs.Option.{option_map};
ghost use Rattle.cell_heap.specs.Marks.{marks_in, IsMore};

use crate::word::Word;
use indexmap::IndexSet;
use std::alloc::Global;
use std::mem;
use value_core::{Many, Memory};

/// The pairs of a key and a value, in the order of their insertion.
#[derive(Drop)]
pub struct Pairs {
    pub(crate) pairs: Many<(Word, Word)>,
    // The mark of each key, no two of which are the same, or nothing, where each pair has to be looked at.
    pub(crate) marks: Option<Box<IndexSet<u64>>>,
}

impl Pairs {
    /// No pairs.
    pub fn new(alloc: Global) -> Result<Pairs, Memory>
        ensures { IfOk result (λ dict. dict.pairs ≡ []) }
    {
        Ok(Pairs {
            pairs: Many::new(alloc),
            marks: Some(Box::new(alloc, IndexSet::new(alloc))?),
        })
    }

    /// Takes these pairs over, in their order. The keys of pairs that are there from the start get no marks: each is looked at
    /// where a key is looked for.
    pub fn from_pairs(alloc: Global, pairs: Many<(Word, Word)>) -> Result<Pairs, Memory>
        ensures { IfOk result (λ dict. dict.pairs ≡ pairs) }
    {
        if pairs.is_empty() {
            return Pairs::new(alloc);
        }
        Ok(Pairs { pairs, marks: None })
    }

    /// The pairs alone, in the order of their insertion. It takes no memory.
    pub fn into_pairs(self) -> Many<(Word, Word)>
        ensures { result ≡ self.pairs }
    {
        self.pairs
    }

    /// The pairs, in the order of their insertion.
    pub fn pairs(&self) -> &Many<(Word, Word)>
        ensures { result.now ≡ self.now.pairs }
    {
        &self.pairs
    }

    /// Forgets the marks that there are. Those of pairs to come are noted only where there are no pairs.
    pub(crate) fn forget_marks(&mut self)
        ensures pairs { self.new.pairs ≡ self.old.pairs }
        ensures marks { IfSome (marks_in self.new) (λ marks. (marks ≡ []) × (self.new.pairs ≡ [])) }
    {
        if let Some(marks) = &mut self.marks {
            marks.clear();
        }
        if !self.pairs.is_empty() {
            self.marks = None;
        }
    }

    /// Puts a pair behind the others, whose key has a mark or none.
    pub(crate) fn push(&mut self, pair: (Word, Word), mark: Option<u64>) -> Result<(), Memory>
        ensures ok { OnOk result (self.new.pairs ≡ self.old.pairs ++ pair ∷ []) }
        ensures marks { OnOk result (IsMore mark (marks_in self.old) (marks_in self.new)) }
        ensures err { OnErr result (self.new ≡ self.old) }
    {
        self.pairs.push(pair)?;
        if !self.add_mark(mark) {
            self.marks = None;
        }
        Ok(())
    }

    /// Adds the mark of a key, and answers whether there is a mark, it is new, and there was memory for it.
    fn add_mark(&mut self, mark: Option<u64>) -> bool
        ensures pairs { self.new.pairs ≡ self.old.pairs }
        ensures marks { result ≡ true → IsMore mark (marks_in self.old) (marks_in self.new) }
    {
        let Some(mark) = mark else {
            return false;
        };
        match &mut self.marks {
            None => false,
            Some(marks) => match marks.insert(mark) {
                Ok(is_new) => is_new,
                Err(_) => false,
            },
        }
    }

    /// Takes the pair at a place out, if there is such a place.
    pub(crate) fn take(&mut self, alloc: Global, place: usize) -> Option<(Word, Word)>
        ensures rest { self.new.pairs ≡ take place self.old.pairs ++ drop (place + 1) self.old.pairs }
        ensures marks { marks_in self.new ≡ option_map (λ marks. remove marks place) (marks_in self.old) }
        ensures pair { result ≡ slice_get self.old.pairs place }
    {
        if let Some(marks) = &mut self.marks {
            marks.shift_remove_index(place);
        }
        take_out(alloc, &mut self.pairs, place)
    }
}

// Takes the pair at a place out, if there is such a place.
fn take_out(alloc: Global, pairs: &mut Many<(Word, Word)>, place: usize) -> Option<(Word, Word)>
    ensures rest { pairs.new ≡ take place pairs.old ++ drop (place + 1) pairs.old }
    ensures pair { result ≡ slice_get pairs.old place }
{
    if place >= pairs.len() {
        return None;
    }
    let mut all = mem::replace(pairs, Many::new(alloc)).into_vec();
    let pair = all.remove(place);
    *pairs = Many::from_vec(all);
    Some(pair)
}
