ghost use Rattle.std.specs.Prelude.{◌≡◌, ◌+◌, ◌<◌, ◌≤◌, ◌^◌, ◌++◌, [], ◌∷◌, IfOk, OnOk, OnErr, MatchOption, Some, true, false, length, slice_get, nat_eq, nat_le};
ghost use Rattle.std.specs.Option.{option_copied};
ghost use Rattle.std.specs.Cmp.{partial_equiv_from_equiv};
ghost use Rattle.std.specs.Cmp.Lexicographic.{pointwise, nat_list_eq_equiv, lists_equiv};
ghost use Rattle.fx_base.specs.Sets.{without_name};
ghost use Rattle.fx_text.specs.Sets.{IsAscending, has_text, with_text, set_of, weight, least, least_above, greatest_below, item_before, without};
ghost use Rattle.fx_text.specs.Merges.{IsLeastOf};

use crate::text::Text;
use fx_base::{Chunks, Items, NoMemory};
use std::alloc::{AllocError, Global};
use std::cmp::Ordering;
use std::marker::Model;

/// The most that a union may weigh: the bytes of its elements, and one more for each.
pub const UNION_LIMIT: u64 = 33_554_432;

/// How many times the elements of one set another has at least, where they are put in or taken out one by one.
const FEW: u64 = 256;

/// A set of texts, of which a copy takes no time. Contracts see its elements in strictly ascending order of bytes.
#[derive(Debug)]
pub struct TextSet {
    texts: Chunks<Text>,
    weight: u64,
}

/// It is written out, so that its parts are dropped in this crate alone.
impl Drop for TextSet {
    fn drop(self) {
        let TextSet {
            texts: _texts,
            weight: _weight,
        } = self;
    }
}

impl Model for TextSet {
    ghost use Rattle.std.specs.Prelude.{List, ℕ};
    ghost use Rattle.fx_text.specs.Sets.{IsWeighed};

    ghost Value = { List (List ℕ) };

    ghost view = { λ s. s.texts };

    ghost invariant = { λ s. IsWeighed s.texts s.weight };
}

impl TextSet {
    /// The empty set.
    #[tactic(auto, using(crate::proofs::Weights::weighed_none))]
    pub fn new(alloc: Global) -> TextSet
        ensures { result ≡ [] }
    {
        TextSet {
            texts: Chunks::new(alloc),
            weight: 0,
        }
    }

    /// The number of elements.
    pub fn len(&self) -> u64
        ensures value { result ≡ length self.now }
        ensures small { result < 2 ^ 63 }
        ensures order { IsAscending self.now }
    {
        self.texts.len() as u64
    }

    /// The elements in ascending order. It is the way to go over all of them, since `at` searches.
    pub fn iter(&self) -> Items<'_, Text>
        ensures { result ≡ self.now }
    {
        self.texts.iter()
    }

    /// The element at `i` in ascending order, by a search over the chunks of the set; None exactly from `len` on.
    pub fn at(&self, i: u64) -> Option<&Text>
        ensures { option_copied result ≡ slice_get self.now i }
    {
        self.texts.get(i as usize)
    }

    /// Adds a text above all elements. A refusal changes nothing.
    pub fn add(&mut self, alloc: Global, item: Text) -> Result<(), NoMemory>
        requires { IsAscending (self.old ++ item ∷ []) }
        ensures ok { OnOk result (self.new ≡ self.old ++ item ∷ []) }
        ensures err { OnErr result (self.new ≡ self.old) }
    {
        let weight = heavier(self.weight, &item)?;
        self.texts.push(alloc, item)?;
        self.weight = weight;
        Ok(())
    }

    /// Whether the text is an element, by binary search.
    pub fn has(&self, item: &Text) -> bool
        ensures { result ≡ has_text item.now self.now }
    {
        self.place(item).is_some()
    }

    /// The element's place, by binary search.
    pub fn place(&self, item: &Text) -> Option<usize>
        ensures value { MatchOption result (has_text item.now self.now ≡ false)
            (λ i. slice_get self.now i ≡ Some item.now) }
        ensures order { IsAscending self.now }
    {
        self.texts.search(item).ok()
    }

    /// The least element.
    pub fn first(&self) -> Option<&Text>
        ensures { option_copied result ≡ least self.now }
    {
        self.texts.get(0)
    }

    /// The least element above a text, by binary search.
    pub fn above(&self, text: &Text) -> Option<&Text>
        ensures { option_copied result ≡ least_above text.now self.now }
    {
        // The length is read for its bound alone.
        let _len = self.texts.len();
        match self.texts.search(text) {
            Ok(i) => self.texts.get(i + 1),
            Err(i) => self.texts.get(i),
        }
    }

    /// The greatest element below a text, by binary search.
    pub fn below(&self, text: &Text) -> Option<&Text>
        ensures { option_copied result ≡ greatest_below text.now self.now }
    {
        match self.texts.search(text) {
            Ok(i) => item_before(&self.texts, i),
            Err(i) => item_before(&self.texts, i),
        }
    }

    /// An equal set, which shares its elements with this one.
    pub fn copy(&self, _alloc: Global) -> Result<TextSet, NoMemory>
        ensures { IfOk result (λ set. set ≡ self.now) }
    {
        Ok(TextSet {
            texts: self.texts.copy()?,
            weight: self.weight,
        })
    }
}

impl TextSet {
    /// The set of one text.
    #[tactic(auto, using(crate::proofs::Order::ascending_one))]
    pub fn of(alloc: Global, item: Text) -> Result<TextSet, NoMemory>
        ensures { IfOk result (λ set. set ≡ item ∷ []) }
    {
        let mut items = Vec::new(alloc);
        items.push(item)?;
        TextSet::from_ascending(alloc, items)
    }

    /// The set of these texts, which ascend strictly.
    pub fn from_ascending(alloc: Global, items: Vec<Text>) -> Result<TextSet, NoMemory>
        requires { IsAscending items.items }
        ensures { IfOk result (λ set. set ≡ items.items) }
    {
        let weight = weight_of(items.as_slice())?;
        Ok(TextSet {
            texts: Chunks::from_vec(alloc, items)?,
            weight,
        })
    }

    /// The set of these texts, which may stand in any order and repeat. It is one sort.
    pub fn from_texts(alloc: Global, items: Vec<Text>) -> Result<TextSet, NoMemory>
        ensures { IfOk result (λ set. set ≡ set_of items.items) }
    {
        let mut items = items;
        items.sort()?;
        items.dedup();
        TextSet::from_ascending(alloc, items)
    }

    /// The elements of both. Where one of the sets has few, most of the other is shared.
    pub fn union(&self, alloc: Global, other: &TextSet) -> Result<TextSet, NoMemory>
        ensures { IfOk result (λ set. set ≡ set_of (self.now ++ other.now)) }
    {
        if other.len() <= self.len() / FEW {
            return self.with_each(alloc, other);
        }
        if self.len() <= other.len() / FEW {
            return other.with_each(alloc, self);
        }
        let both = merge(alloc, &self.texts, &other.texts)?;
        TextSet::from_ascending(alloc, both)
    }

    // The elements of both: those of the other are put in one by one.
    fn with_each(&self, alloc: Global, other: &TextSet) -> Result<TextSet, NoMemory>
        requires { IsAscending self.now }
        ensures { IfOk result (λ set. set ≡ set_of (self.now ++ other.now)) }
    {
        let mut set = self.copy(alloc)?;
        for text in other.iter() {
            set = set.with(alloc, text)?;
        }
        Ok(set)
    }

    /// The set with one text more. Where it has the text it is the same set.
    pub fn with(&self, alloc: Global, text: &Text) -> Result<TextSet, NoMemory>
        ensures { IfOk result (λ set. set ≡ with_text text.now self.now) }
    {
        match self.texts.search(text) {
            Ok(_) => self.copy(alloc),
            Err(i) => {
                let weight = heavier(self.weight, text)?;
                let text = text.copy(alloc)?;
                Ok(TextSet {
                    texts: self.texts.with(alloc, i, text)?,
                    weight,
                })
            }
        }
    }

    /// Whether the bytes of all elements of both, and one more for each, are at most this many. It takes no memory, and no
    /// time where both sets together weigh no more.
    pub fn union_weighs_at_most(&self, other: &TextSet, limit: u64) -> bool
        ensures { result ≡ nat_le (weight (set_of (self.now ++ other.now))) limit }
    {
        if fits(self.weight, other.weight, limit) {
            return true;
        }
        merge_weighs_at_most(&self.texts, &other.texts, limit)
    }

    /// The elements that are not in the other set. Where that has few, most of this set is shared.
    pub fn without(&self, alloc: Global, other: &TextSet) -> Result<TextSet, NoMemory>
        ensures { IfOk result (λ set. set ≡ without self.now other.now) }
    {
        if other.len() <= self.len() / FEW {
            return self.without_each(alloc, other);
        }
        self.left(alloc, other)
    }

    // The elements that are not in the other set, of which each is taken out by itself.
    fn without_each(&self, alloc: Global, other: &TextSet) -> Result<TextSet, NoMemory>
        ensures { IfOk result (λ set. set ≡ without self.now other.now) }
    {
        let mut set = self.copy(alloc)?;
        for text in other.iter() {
            set = set.without_one(alloc, text)?;
        }
        Ok(set)
    }

    /// The set without a text. Where it lacks the text it is the same set.
    pub fn without_one(&self, alloc: Global, text: &Text) -> Result<TextSet, NoMemory>
        ensures { IfOk result (λ set. set ≡ without_name text.now self.now) }
    {
        match self.texts.search(text) {
            Ok(i) => {
                let weight = self.weight - (text.len() + 1);
                Ok(TextSet {
                    texts: self.texts.without(alloc, i)?,
                    weight,
                })
            }
            Err(_) => self.copy(alloc),
        }
    }

    // The elements that are not in the other set, gone through one by one.
    fn left(&self, alloc: Global, other: &TextSet) -> Result<TextSet, NoMemory>
        ensures { IfOk result (λ set. set ≡ without self.now other.now) }
    {
        let mut kept = Vec::new(alloc);
        for text in self.texts.iter() {
            if !other.has(text) {
                kept.push(text.copy(alloc)?)?;
            }
        }
        TextSet::from_ascending(alloc, kept)
    }
}

// A weight with that of one text more.
fn heavier(weight: u64, text: &Text) -> Result<u64, NoMemory>
    ensures { IfOk result (λ sum. sum ≡ weight + (length text.now + 1)) }
{
    match weight.checked_add(text.len() + 1) {
        Some(sum) => Ok(sum),
        None => Err(NoMemory),
    }
}

// What texts weigh.
fn weight_of(texts: &[Text]) -> Result<u64, NoMemory>
    ensures { IfOk result (λ sum. sum ≡ weight texts.now) }
{
    let mut sum = 0;
    for text in texts {
        sum = heavier(sum, text)?;
    }
    Ok(sum)
}

// Whether two weights are together at most a limit.
fn fits(first: u64, second: u64, limit: u64) -> bool
    ensures { result ≡ true → first + second ≤ limit }
{
    if first > limit {
        return false;
    }
    second <= limit - first
}

// The text before a place.
fn item_before(texts: &Chunks<Text>, i: usize) -> Option<&Text>
    ensures { option_copied result ≡ item_before i texts.now }
{
    if i == 0 { None } else { texts.get(i - 1) }
}

fn merge<'a>(
    alloc: Global,
    first: &'a Chunks<Text>,
    second: &'a Chunks<Text>,
) -> Result<Vec<Text>, NoMemory>
    requires first { IsAscending first.now }
    requires second { IsAscending second.now }
    ensures { IfOk result (λ both. both.items ≡ set_of (first.now ++ second.now)) }
{
    let mut both = Vec::new(alloc);
    let mut a = first.iter();
    let mut b = second.iter();
    while let Some((text, c, d)) = split_least(a, b) {
        both.push(text.copy(alloc)?)?;
        a = c;
        b = d;
    }
    Ok(both)
}

fn merge_weighs_at_most<'a>(first: &'a Chunks<Text>, second: &'a Chunks<Text>, limit: u64) -> bool
    requires first { IsAscending first.now }
    requires second { IsAscending second.now }
    ensures { result ≡ nat_le (weight (set_of (first.now ++ second.now))) limit }
{
    let mut room = limit;
    let mut a = first.iter();
    let mut b = second.iter();
    while let Some((text, c, d)) = split_least(a, b) {
        let size = text.len() + 1;
        if size > room {
            return false;
        }
        room -= size;
        a = c;
        b = d;
    }
    true
}

// The least text of two sets, and what is left of them without it.
fn split_least<'a>(
    a: Items<'a, Text>,
    b: Items<'a, Text>,
) -> Option<(&'a Text, Items<'a, Text>, Items<'a, Text>)>
    requires first { IsAscending a }
    requires second { IsAscending b }
    ensures { MatchOption result (set_of (a.entry ++ b.entry) ≡ [])
        (λ r. IsLeastOf a.entry b.entry r.0.now r.1 r.2) }
{
    match a.split_first() {
        None => match b.split_first() {
            None => None,
            Some((t, d)) => Some((t, a, d)),
        },
        Some((s, c)) => match b.split_first() {
            None => Some((s, c, b)),
            Some((t, d)) => match s.cmp(t) {
                Ordering::Less => Some((s, c, b)),
                Ordering::Equal => Some((s, c, d)),
                Ordering::Greater => Some((t, a, d)),
            },
        },
    }
}

fn are_same(a: Items<'_, Text>, b: Items<'_, Text>) -> bool
    ensures { result ≡ pointwise (pointwise nat_eq) a.entry b.entry }
{
    let mut a = a;
    let mut b = b;
    while let Some((x, c)) = a.split_first() {
        match b.split_first() {
            None => return false,
            Some((y, d)) => {
                if x != y {
                    return false;
                }
                a = c;
                b = d;
            }
        }
    }
    b.split_first().is_none()
}

impl Clone for TextSet {
    ghost is_clone = { λ x y. y ≡ x };

    fn clone(&self) -> Result<TextSet, AllocError> {
        Ok(TextSet {
            texts: self.texts.clone()?,
            weight: self.weight,
        })
    }
}

impl PartialEq for TextSet {
    ghost eq = { pointwise (pointwise nat_eq) };

    ghost laws = { partial_equiv_from_equiv (lists_equiv nat_list_eq_equiv) };

    fn eq(&self, other: &TextSet) -> bool {
        are_same(self.texts.iter(), other.texts.iter())
    }
}

impl Eq for TextSet {
    ghost laws = { lists_equiv nat_list_eq_equiv };
}
