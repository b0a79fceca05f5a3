//! The zipper: its steps, its frames, and the names that they bind.
ghost use Rattle.std.specs.Prelude.{◌≡◌, ◌∷◌, [], IfOk, OnErr, None, cond, drop, take};
ghost use Rattle.std.specs.Option.{option_copied, option_map};
ghost use Rattle.fx_spec.specs.Parts.{part_of};
ghost use Rattle.fx_spec.specs.WellShaped.{AreDefined, IsDescription};
ghost use Rattle.fx_session.specs.Places.{place_tree};
ghost use Rattle.fx_view.specs.Own.{SameOver};
ghost use Rattle.fx_view.specs.ReadList.{ReadList};
ghost use Rattle.fx_steps.specs.Frames.{last_step, last_set, are_told, path_of};
ghost use Rattle.fx_zip.specs.Fresh.{left, unframed, unkept, shorter, told_by};
ghost use Rattle.fx_steps.specs.Parts as parts;
ghost use Rattle.fx_zip.specs.Entered.{entered, kept_too};
ghost use Rattle.fx_steps.specs.Spots.{bare_spot, body_spot, chosen_spot, inner_entry};
ghost use Rattle.fx_steps.specs.Steps.{step_tree};
ghost use Rattle.fx_spec.specs.Place as place;
ghost use Rattle.fx_zip.specs.Trees.{here, is_settled, IsSettled};

use fx_base::NoMemory;
use fx_expr::{Env, TextSet, Value};
use fx_spec::{Base, Part, Place, Refusal};
use fx_steps::frames::{
    are_told, as_many, bind, held_set, is_element, last_path, last_step_of, pop_frame, pop_step,
    push_frame, push_step, unbind_at, unbind_last,
};
use fx_steps::part::{part, part_around};
use fx_steps::{Chosen, Entry, Frame, Inner, Spot, Step};
use fx_store::Path;
use std::alloc::Global;
use std::marker::Model;
use std::mem;
use std::sync::Arc;

/// An address in a described filestore, with a frame for each of its first steps: the path there, and the values of the
/// names bound on the way. Contracts see the root description, the address, the frames and the values.
///
/// A call that reads needs a reader that still has all reads of the zipper's earlier calls. After own changes `edited` is
/// called, or `stored` where it is not known what they leave untouched: the next call that needs the place finds again what
/// they forget.
#[derive(Drop)]
pub struct Zip {
    pub(crate) base: Arc<Base>,
    /// The root path, to lend it.
    pub(crate) top: Path,
    pub(crate) steps: Vec<Step>,
    /// Of the first steps, as many as there are.
    pub(crate) frames: Vec<Frame>,
    /// What the frames' steps bind.
    pub(crate) env: Env,
    /// The set of the comprehension at which the zipper stands, since an element of it was left.
    pub(crate) set: Option<TextSet>,
}

impl Model for Zip {
    ghost use Rattle.std.specs.Prelude.{◌≡◌, []};
    ghost use Rattle.fx_zip.specs.Trees.{ZipTree, coded_zip};

    ghost Value = { ZipTree };

    ghost coded = { coded_zip };

    ghost use Rattle.fx_zip.specs.View.{zip_tree};

    ghost view = { zip_tree };

    ghost invariant = { λ z. z.top ≡ [] };
}

impl Zip {
    ghost use Rattle.fx_spec.specs.Move.{go_out, go_up};
    ghost use Rattle.fx_store.specs.Rule.{Known};
    ghost use Rattle.fx_session.specs.Answering.{answered};
    ghost use Rattle.fx_spec.specs.Shaped.{IsDescribedPlace};
    ghost use Rattle.fx_zip.specs.Fresh.{IsFresh, Stands};

    /// A zipper at the root description.
    pub fn new(alloc: Global, base: Arc<Base>) -> Zip
        ensures root { result.root ≡ base.value.description }
        ensures address { result.address ≡ [] }
        ensures fresh { (reads : ReadList) (own : Known) → IsFresh reads own result }
    {
        Zip {
            base,
            top: Path::root(alloc),
            steps: Vec::new(alloc),
            frames: Vec::new(alloc),
            env: Env::new(alloc),
            set: None,
        }
    }

    /// Lets go of the zipper.
    pub fn let_go(self) {
        let Zip { base, .. } = self;
        Base::let_go(base);
    }

    /// Back to the root description.
    pub fn go_top(&mut self)
        ensures root { self.new.root ≡ self.old.root }
        ensures address { self.new.address ≡ [] }
        ensures fresh { (reads : ReadList) (own : Known) → IsFresh reads own self.new }
    {
        self.forget();
        self.steps.truncate(0);
    }

    /// Forgets all frames, after own changes. It takes no memory.
    pub fn stored(&mut self)
        ensures root { self.new.root ≡ self.old.root }
        ensures address { self.new.address ≡ self.old.address }
        ensures fresh { (reads : ReadList) (own : Known) → IsFresh reads own self.new }
    {
        self.forget();
    }

    /// After own changes at none of the paths of the first reads, so many: forgets the frames from the first on whose place
    /// more reads tell. It takes no memory.
    pub fn edited(&mut self, untouched: u64)
        ensures kept { self.new ≡ told_by untouched self.old }
        ensures root { self.new.root ≡ self.old.root }
        ensures address { self.new.address ≡ self.old.address }
        ensures fresh { (reads : ReadList) (own now : Known) → SameOver (take untouched reads) own
            now
            → IsFresh reads own self.old → IsFresh reads now self.new }
    {
        'dropping: while !self.is_told(untouched) {
            self.shorten();
        }
    }

    /// Back from a part, an element, an entry or a body.
    pub fn go_out(&mut self) -> Result<(), Refusal>
        ensures root { self.new.root ≡ self.old.root }
        ensures address { answered (λ _. self.new.address) result ≡ go_out self.old.address }
        ensures refused { OnErr result (self.new ≡ self.old) }
        ensures fresh { (reads : ReadList) (own : Known) → IsFresh reads own self.old
            → IsFresh reads own self.new }
        ensures settled { IsSettled self.old → IsSettled self.new }
    {
        match self.last() {
            Some(Step::First)
            | Some(Step::Second)
            | Some(Step::Inside)
            | Some(Step::Body)
            | Some(Step::Elem(_)) => {
                self.leave();
                Ok(())
            }
            Some(Step::Down) | None => Err(Refusal::NoStep),
        }
    }

    /// Back from the path of a focus.
    pub fn go_up(&mut self) -> Result<(), Refusal>
        ensures root { self.new.root ≡ self.old.root }
        ensures address { answered (λ _. self.new.address) result ≡ go_up self.old.address }
        ensures refused { OnErr result (self.new ≡ self.old) }
        ensures fresh { (reads : ReadList) (own : Known) → IsFresh reads own self.old
            → IsFresh reads own self.new }
        ensures settled { IsSettled self.old → IsSettled self.new }
    {
        match self.last() {
            Some(Step::Down) => {
                self.leave();
                Ok(())
            }
            Some(Step::First) | Some(Step::Second) | Some(Step::Inside) => Err(Refusal::NoStep),
            Some(Step::Body) | Some(Step::Elem(_)) | None => Err(Refusal::NoStep),
        }
    }

    /// The place at which the zipper stands, once it was found.
    pub fn here(&self) -> Place<'_>
        ensures place { place_tree result ≡ here self.now }
        ensures described { (reads : ReadList) (own : Known) → Stands reads own self.now
            → IsDescribedPlace (place_tree result) }
        ensures defined { AreDefined result.defs.now }
    {
        let part = self.spec();
        Place {
            path: self.path(),
            env: self.env(),
            spec: part.spec,
            defs: part.defs,
            level: part.level,
        }
    }
}

impl Zip {
    pub(crate) fn path(&self) -> &Path
        ensures { result.now ≡ path_of self.now.frames }
    {
        last_path(&self.top, self.frames.as_slice())
    }

    pub(crate) fn env(&self) -> &Env
        ensures { result.now ≡ self.now.env }
    {
        &self.env
    }

    pub(crate) fn spec(&self) -> Part<'_>
        ensures part { part_of result ≡ parts.part self.now.root self.now.address }
        ensures described { IsDescription [] self.now.root }
        ensures defined { AreDefined result.defs.now }
    {
        part(&self.root(), self.steps.as_slice())
    }

    pub(crate) fn root(&self) -> Part<'_>
        ensures root { part_of result ≡ self.now.root }
        ensures described { IsDescription [] self.now.root }
        ensures defined { AreDefined result.defs.now }
    {
        self.base.description.root()
    }

    /// The part around the last step.
    pub(crate) fn around(&self) -> Part<'_>
        ensures part { part_of result ≡ parts.part self.now.root (drop 1 self.now.address) }
        ensures described { IsDescription [] self.now.root }
        ensures defined { AreDefined result.defs.now }
    {
        part_around(&self.root(), self.steps.as_slice())
    }

    /// The set that the last frame keeps.
    pub(crate) fn held(&self) -> Option<&TextSet>
        ensures { option_map (λ set. set.now) result ≡ last_set self.now.frames }
    {
        held_set(self.frames.as_slice())
    }

    /// The set of the comprehension at which the zipper stands, where it's kept.
    pub(crate) fn kept(&self) -> Option<&TextSet>
        ensures { option_copied result ≡ self.now.set }
    {
        self.set.as_ref()
    }

    pub(crate) fn last(&self) -> Option<&Step>
        ensures { option_map (λ step. step_tree step.now) result ≡ last_step self.now.address }
    {
        last_step_of(self.steps.as_slice())
    }

    /// Whether each step has its frame.
    pub(crate) fn is_settled(&self) -> bool
        ensures { result ≡ is_settled self.now }
    {
        as_many(self.frames.as_slice(), self.steps.as_slice())
    }

    /// Adds a step with its frame.
    pub(crate) fn enter(&mut self, alloc: Global, entry: Entry) -> Result<(), NoMemory>
        ensures entered { IfOk result (λ _.
            self.new ≡ entered self.old (step_tree entry.step) entry.spot) }
        ensures root { self.new.root ≡ self.old.root }
    {
        self.add_step(entry.step)?;
        self.keep(alloc, entry.spot)
    }

    /// Adds a step to a path, which binds nothing and is known by so many reads.
    pub(crate) fn enter_at(&mut self, step: Step, path: Path, reads: u64) -> Result<(), NoMemory>
        ensures entered { IfOk result (λ _.
            self.new ≡ entered self.old (step_tree step) (bare_spot path reads)) }
        ensures root { self.new.root ≡ self.old.root }
    {
        self.add_step(step)?;
        self.set = None;
        push_frame(
            &mut self.frames,
            Frame {
                path,
                set: None,
                reads,
                caller: None,
            },
        )
    }

    /// Adds a step to a chosen element.
    pub(crate) fn enter_chosen(&mut self, alloc: Global, chosen: Chosen) -> Result<(), NoMemory>
        ensures entered { IfOk result (λ _. self.new ≡ entered self.old
            (place.Elem chosen.text) (chosen_spot (path_of self.old.frames) chosen)) }
        ensures root { self.new.root ≡ self.old.root }
    {
        let Chosen { name, text, set } = chosen;
        let path = self.path().copy(alloc)?;
        self.add_step(Step::Elem(text.copy(alloc)?))?;
        self.env.add(alloc, (name, Value::Str(text)))?;
        self.set = None;
        push_frame(
            &mut self.frames,
            Frame {
                path,
                set: Some(set),
                reads: 0,
                caller: None,
            },
        )
    }

    /// Adds a step into a body, where these names are bound.
    fn enter_body(&mut self, alloc: Global, names: Env) -> Result<(), NoMemory>
        ensures entered { IfOk result (λ _. self.new ≡ entered self.old
            place.Body (body_spot (path_of self.old.frames) names)) }
        ensures root { self.new.root ≡ self.old.root }
    {
        let path = self.path().copy(alloc)?;
        self.add_step(Step::Body)?;
        let caller = mem::replace(&mut self.env, names);
        self.set = None;
        push_frame(
            &mut self.frames,
            Frame {
                path,
                set: None,
                reads: 0,
                caller: Some(caller),
            },
        )
    }

    /// Adds a step to what stands inside the place.
    pub(crate) fn enter_inner(&mut self, alloc: Global, inner: Inner) -> Result<(), NoMemory>
        ensures entered { IfOk result (λ _. self.new ≡ entered self.old
            (step_tree (inner_entry (path_of self.old.frames) inner).step)
            (inner_entry (path_of self.old.frames) inner).spot) }
        ensures root { self.new.root ≡ self.old.root }
    {
        match inner {
            Inner::First => {
                let path = self.path().copy(alloc)?;
                self.enter_at(Step::First, path, 0)
            }
            Inner::Element(chosen) => self.enter_chosen(alloc, chosen),
            Inner::Inside(reads) => {
                let path = self.path().copy(alloc)?;
                self.enter_at(Step::Inside, path, reads)
            }
            Inner::Body(names) => self.enter_body(alloc, names),
        }
    }

    fn add_step(&mut self, step: Step) -> Result<(), NoMemory>
        ensures added { IfOk result (λ _.
            self.new ≡ record self.old { address = step_tree step ∷ self.old.address }) }
        ensures root { self.new.root ≡ self.old.root }
    {
        push_step(&mut self.steps, step)
    }

    /// Puts a step with its frame in place of the last one.
    pub(crate) fn replace(&mut self, alloc: Global, entry: Entry) -> Result<(), NoMemory>
        ensures entered { IfOk result (λ _.
            self.new ≡ entered (left self.old) (step_tree entry.step) entry.spot) }
        ensures root { self.new.root ≡ self.old.root }
    {
        self.leave();
        self.enter(alloc, entry)
    }

    /// Adds the frame of the first step that has none.
    pub(crate) fn keep(&mut self, alloc: Global, spot: Spot) -> Result<(), NoMemory>
        ensures kept { IfOk result (λ _. self.new ≡ kept_too self.old spot) }
        ensures root { self.new.root ≡ self.old.root }
        ensures address { self.new.address ≡ self.old.address }
    {
        let Spot {
            path,
            set,
            reads,
            bound,
        } = spot;
        self.set = None;
        let caller = bind(alloc, &mut self.env, bound)?;
        push_frame(
            &mut self.frames,
            Frame {
                path,
                set,
                reads,
                caller,
            },
        )
    }

    /// Drops all frames.
    fn forget(&mut self)
        ensures { self.new ≡ unkept self.old }
    {
        self.frames.truncate(0);
        self.env.cut(0);
        self.set = None;
    }

    /// Takes off the last step, and its frame where it has one.
    pub(crate) fn leave(&mut self)
        ensures { self.new ≡ left self.old }
    {
        if self.is_settled() {
            self.drop_frame();
        } else {
            self.set = None;
        }
        self.drop_step();
    }

    fn drop_frame(&mut self)
        ensures { self.new ≡ unframed self.old }
    {
        let at_element = is_element(self.last());
        let (set, caller) = pop_frame(&mut self.frames);
        unbind_last(&mut self.env, self.steps.as_slice(), caller);
        self.set = set_if(at_element, set);
    }

    /// Whether each frame's place is told by as many reads at most.
    fn is_told(&self, reads: u64) -> bool
        ensures { result ≡ are_told reads self.now.frames }
    {
        are_told(self.frames.as_slice(), reads)
    }

    /// Takes off the last frame, whatever its step.
    fn shorten(&mut self)
        ensures { self.new ≡ shorter self.old }
    {
        let place = self.frames.len();
        let (_, caller) = pop_frame(&mut self.frames);
        unbind_at(&mut self.env, self.steps.as_slice(), place, caller);
        self.set = None;
    }

    fn drop_step(&mut self)
        ensures { self.new ≡ record self.old { address = drop 1 self.old.address } }
    {
        pop_step(&mut self.steps);
    }
}

fn set_if(holds: bool, set: Option<TextSet>) -> Option<TextSet>
    ensures { result ≡ cond holds set None }
{
    if holds { set } else { None }
}
