//! The frames and the steps of an address, from the first on, and the names that the steps bind.
ghost use Rattle.std.specs.Prelude.{◌≡◌, ◌-◌, ◌∷◌, [], IfOk, MatchOption, None, drop, length, nat_eq, take};
ghost use Rattle.std.specs.Option.{option_map, unwrap_or};
ghost use Rattle.fx_steps.specs.Around.{around};
ghost use Rattle.fx_steps.specs.Frames.{path_of, around_last, last_step, last_set, last_caller, is_element, are_told};
ghost use Rattle.fx_steps.specs.Spots.{grown, caller_in};
ghost use Rattle.fx_steps.specs.Steps.{step_tree, turned};

use crate::frame::{Bound, Frame};
use crate::step::Step;
use fx_base::NoMemory;
use fx_expr::{Env, TextSet};
use fx_store::Path;
use std::alloc::Global;
use std::mem;

/// The path of the last frame, or the root path.
pub fn last_path<'a>(top: &'a Path, frames: &'a [Frame]) -> &'a Path
    requires { top.now ≡ [] }
    ensures { result.now ≡ path_of (turned (λ f. f) frames.now) }
{
    match frames.split_last() {
        Some((frame, _)) => &frame.path,
        None => top,
    }
}

/// The path of the frame before the last, or the root path.
pub fn path_around<'a>(top: &'a Path, frames: &'a [Frame]) -> &'a Path
    requires { top.now ≡ [] }
    ensures { result.now ≡ path_of (drop 1 (turned (λ f. f) frames.now)) }
{
    match frames.split_last() {
        Some((_, front)) => last_path(top, front),
        None => top,
    }
}

/// The set that the last frame keeps.
pub fn held_set(frames: &[Frame]) -> Option<&TextSet>
    ensures { option_map (λ set. set.now) result ≡ last_set (turned (λ f. f) frames.now) }
{
    match frames.split_last() {
        Some((frame, _)) => frame.set.as_ref(),
        None => None,
    }
}

/// Binds what a step binds, and answers the names before, where others take their place.
pub fn bind(alloc: Global, env: &mut Env, bound: Bound) -> Result<Option<Env>, NoMemory>
    ensures grown { IfOk result (λ _. env.new ≡ grown env.old bound) }
    ensures caller { IfOk result (λ caller. caller ≡ caller_in env.old bound) }
{
    match bound {
        Bound::Nothing => Ok(None),
        Bound::Name(word, value) => {
            env.add(alloc, (word, value))?;
            Ok(None)
        }
        Bound::Names(names) => Ok(Some(mem::replace(env, names))),
    }
}

/// Gives back the names that were bound before a step, where its frame keeps this.
fn unbind(env: &mut Env, step: &Step, caller: Option<Env>)
    ensures { env.new ≡ around (step_tree step.now) caller env.old }
{
    match step {
        Step::Second | Step::Elem(_) => drop_last(env),
        Step::Body => restore(env, caller),
        Step::First | Step::Inside | Step::Down => {}
    }
}

fn restore(env: &mut Env, caller: Option<Env>)
    ensures { env.new ≡ unwrap_or caller env.old }
{
    match caller {
        Some(names) => *env = names,
        None => {}
    }
}

fn drop_last(env: &mut Env)
    ensures { env.new ≡ take (length env.old - 1) env.old }
{
    let len = env.len();
    if len > 0 {
        env.cut(len - 1);
    }
}

/// Gives back the names that were bound before the last step, if its frame keeps them.
pub fn unbind_last(env: &mut Env, steps: &[Step], caller: Option<Env>)
    ensures { env.new ≡ around_last (turned step_tree steps.now) caller env.old }
{
    match steps.split_last() {
        Some((step, _)) => unbind(env, step, caller),
        None => {}
    }
}

/// Gives back the names that were bound before the step before a place.
pub fn unbind_at(env: &mut Env, steps: &[Step], place: usize, caller: Option<Env>)
    ensures { env.new ≡ around_last
        (drop (length steps.now - place) (turned step_tree steps.now)) caller env.old }
{
    if place <= steps.len() {
        unbind_last(env, &steps[..place], caller);
    } else {
        unbind_last(env, steps, caller);
    }
}

/// Whether each frame's place is told by as many reads at most.
pub fn are_told(frames: &[Frame], reads: u64) -> bool
    ensures { result ≡ are_told reads (turned (λ f. f) frames.now) }
{
    for frame in frames {
        if frame.reads > reads {
            return false;
        }
    }
    true
}

/// Whether there are as many frames as steps.
pub fn as_many(frames: &[Frame], steps: &[Step]) -> bool
    ensures { result ≡ nat_eq (length (turned (λ f. f) frames.now))
        (length (turned step_tree steps.now)) }
{
    frames.len() == steps.len()
}

/// The last step, if there is one.
pub fn last_step_of(steps: &[Step]) -> Option<&Step>
    ensures { option_map (λ step. step_tree step.now) result
        ≡ last_step (turned step_tree steps.now) }
{
    match steps.split_last() {
        Some((step, _)) => Some(step),
        None => None,
    }
}

/// Adds a step.
pub fn push_step(steps: &mut Vec<Step>, step: Step) -> Result<(), NoMemory>
    ensures { IfOk result (λ _. turned step_tree steps.new.items
        ≡ step_tree step ∷ turned step_tree steps.old.items) }
{
    steps.push(step)?;
    Ok(())
}

/// Adds a frame.
pub fn push_frame(frames: &mut Vec<Frame>, frame: Frame) -> Result<(), NoMemory>
    ensures { IfOk result (λ _. turned (λ f. f) frames.new.items
        ≡ frame ∷ turned (λ f. f) frames.old.items) }
{
    frames.push(frame)?;
    Ok(())
}

/// Takes off the last step, if there is one.
pub fn pop_step(steps: &mut Vec<Step>)
    ensures { turned step_tree steps.new.items ≡ drop 1 (turned step_tree steps.old.items) }
{
    let last = steps.pop();
    let_go_step(last);
}

/// Takes off the last frame, and answers the set and the caller's names that it keeps.
pub fn pop_frame(frames: &mut Vec<Frame>) -> (Option<TextSet>, Option<Env>)
    ensures frames { turned (λ f. f) frames.new.items
        ≡ drop 1 (turned (λ f. f) frames.old.items) }
    ensures set { result.0 ≡ last_set (turned (λ f. f) frames.old.items) }
    ensures caller { result.1 ≡ last_caller (turned (λ f. f) frames.old.items) }
{
    let last = frames.pop();
    kept_in(last)
}

fn kept_in(last: Option<Frame>) -> (Option<TextSet>, Option<Env>)
    ensures set { MatchOption last (result.0 ≡ None) (λ f. result.0 ≡ f.set) }
    ensures caller { MatchOption last (result.1 ≡ None) (λ f. result.1 ≡ f.caller) }
{
    match last {
        Some(frame) => kept_of(frame),
        None => (None, None),
    }
}

fn kept_of(frame: Frame) -> (Option<TextSet>, Option<Env>)
    ensures set { result.0 ≡ frame.set }
    ensures caller { result.1 ≡ frame.caller }
{
    let Frame {
        path: _,
        set,
        reads: _,
        caller,
    } = frame;
    (set, caller)
}

/// Whether a step leads to an element.
pub fn is_element(step: Option<&Step>) -> bool
    ensures { result ≡ is_element (option_map (λ step. step_tree step.now) step.entry) }
{
    match step {
        Some(Step::Elem(_)) => true,
        Some(Step::First) | Some(Step::Second) | Some(Step::Inside) => false,
        Some(Step::Down) | Some(Step::Body) | None => false,
    }
}

fn let_go_step(_: Option<Step>) {}
