ghost use Rattle.std.specs.Prelude.{◌≡◌, ◌<◌, ◌++◌, [], ◌∷◌, List, ℕ, Some, IfOk, IfSome, OnOk, OnErr, MatchOption, None, length, slice_get, slice_set, map, take};
ghost use Rattle.std.specs.Option.{option_map, unwrap_or};
ghost use Rattle.fx_expr.specs.Bindings.{bound, assigned, IsNewest};
ghost use Rattle.fx_expr.specs.Views.{entry_tree, tree_of};

use crate::value::Value;
use crate::word::Word;
use fx_base::NoMemory;
use std::alloc::Global;
use std::marker::Model;

/// Words bound to values, the newest binding last. Where a word is bound twice, the newer binding counts. Contracts see
/// the list of the words with the trees of their values.
#[derive(Debug)]
pub struct Env {
    bindings: Vec<(Word, Value)>,
}

/// It is written out, so that its parts are dropped in this crate alone.
impl Drop for Env {
    fn drop(self) {
        let Env {
            bindings: _bindings,
        } = self;
    }
}

impl Model for Env {
    ghost use Rattle.std.specs.Prelude.{List, ℕ, map};
    ghost use Rattle.fx_expr.specs.Codes.{coded_bindings};
    ghost use Rattle.fx_expr.specs.Tree.{Tree};

    ghost Value = { List (List ℕ × Tree) };

    ghost coded = { coded_bindings };

    ghost use Rattle.fx_expr.specs.Views.{entry_tree};

    ghost view = { λ e. map entry_tree e.bindings.items };
}

impl Env {
    /// No bindings.
    pub fn new(alloc: Global) -> Env
        ensures { result ≡ [] }
    {
        Env {
            bindings: Vec::new(alloc),
        }
    }

    /// The number of bindings.
    pub fn len(&self) -> u64
        ensures { result ≡ length self.now }
    {
        self.bindings.len() as u64
    }

    /// The binding at `i`, from the oldest; None exactly from `len` on.
    pub fn at(&self, i: u64) -> Option<&(Word, Value)>
        ensures { option_map (λ binding. entry_tree binding.now) result ≡ slice_get self.now i }
    {
        self.bindings.get(i as usize)
    }

    /// Binds a word to a value. A refusal changes nothing.
    pub fn add(&mut self, _alloc: Global, item: (Word, Value)) -> Result<(), NoMemory>
        ensures ok { OnOk result (self.new ≡ self.old ++ entry_tree item ∷ []) }
        ensures err { OnErr result (self.new ≡ self.old) }
    {
        self.bindings.push(item)?;
        Ok(())
    }

    /// The value of a word's newest binding; None exactly where it has none.
    pub fn get(&self, word: &Word) -> Option<&Value>
        ensures { option_map (λ value. tree_of value.now) result ≡ bound self.now word.now }
    {
        let bindings = self.bindings.as_slice();
        match newest(bindings, word) {
            Some(i) => Some(&bindings[i].1),
            None => None,
        }
    }

    /// Gives a new value to a word's newest binding; changes nothing where the word has none.
    pub fn set(&mut self, word: &Word, value: Value)
        ensures { self.new ≡ unwrap_or (assigned word.now (tree_of value) self.old) self.old }
    {
        match newest(self.bindings.as_slice(), word) {
            Some(i) => put(&mut self.bindings, i, value),
            None => let_go(value),
        }
    }

    /// Takes off the newest binding, and gives it; None exactly where there is none.
    pub fn take_last(&mut self) -> Option<(Word, Value)>
        ensures { MatchOption result ((self.old ≡ []) × (self.new ≡ []))
            (λ binding. self.old ≡ self.new ++ entry_tree binding ∷ []) }
    {
        self.bindings.pop()
    }

    /// Forgets all bindings but the oldest `len`.
    pub fn cut(&mut self, len: u64)
        ensures { self.new ≡ take len self.old }
    {
        self.bindings.truncate(len as usize);
    }

    /// An equal environment of its own.
    pub fn copy(&self, alloc: Global) -> Result<Env, NoMemory>
        ensures { IfOk result (λ env. env ≡ self.now) }
    {
        Ok(Env {
            bindings: copy_bindings(alloc, self.bindings.as_slice())?,
        })
    }
}

// The place of a word's newest binding.
fn newest(bindings: &[(Word, Value)], word: &Word) -> Option<usize>
    ensures place { let trees = map entry_tree bindings.now in
        MatchOption result (bound trees word.now ≡ None) (IsNewest trees word.now) }
    ensures within { IfSome result (λ i. i < length bindings.now) }
{
    let mut i = bindings.len();
    while i > 0 {
        i -= 1;
        if bindings[i].0 == *word {
            return Some(i);
        }
    }
    None
}

// One drop of a value in place of one at each way out.
fn let_go(_value: Value) {}

fn put(bindings: &mut Vec<(Word, Value)>, i: usize, value: Value)
    requires { i < length bindings.old.items }
    ensures { (word : List ℕ) (before : Value)
        → slice_get bindings.old.items i ≡ Some (word, before)
        → bindings.new.items ≡ slice_set bindings.old.items i (word, value) }
{
    bindings[i].1 = value;
}

fn copy_bindings(alloc: Global, bindings: &[(Word, Value)]) -> Result<Vec<(Word, Value)>, NoMemory>
    ensures { IfOk result (λ copies. map entry_tree copies.items ≡ map entry_tree bindings.now) }
{
    let mut copies = Vec::with_capacity(alloc, bindings.len())?;
    for binding in bindings {
        copies.push(copy_binding(alloc, binding)?)?;
    }
    Ok(copies)
}

fn copy_binding(alloc: Global, binding: &(Word, Value)) -> Result<(Word, Value), NoMemory>
    ensures { IfOk result (λ copy. entry_tree copy ≡ entry_tree binding.now) }
{
    let word = binding.0.copy(alloc)?;
    Ok((word, binding.1.copy(alloc)?))
}
