//! Texts of scripts, read ahead on threads.
ghost use Rattle.std.specs.Prelude.{◌≡◌, IfOk, IfErr};

use fx_command::Source;
use fx_threads::STACK_BYTES;
use std::alloc::Global;
use std::mem;
use std::snapshot::Snapshot;
use std::thread::{Builder, Promise, PromisedHandle, Threads};

/// From how many bytes on a text is worth a thread.
const PIECE: usize = 4_096;

/// How many texts are read side by side at most. More threads contend for the address space.
const SIDE_BY_SIDE: usize = 8;

/// The text that comes back is the one that was handed over.
#[derive(Drop)]
struct SameText(Snapshot<Source>);

impl Promise<Source> for SameText {
    ghost kept_by = { λ promise text. text ≡ promise.0.value };
}

/// Begins to read a text ahead, in a thread of its own. Where none can be had, the text is read at once.
fn begin<R: Threads>(
    rt: &R,
    alloc: Global,
    text: Source,
) -> Result<PromisedHandle<Source, SameText>, Source>
    ensures begun { IfOk result (λ running. running.promise.0.value ≡ text) }
    ensures read { IfErr result (λ read. read ≡ text) }
{
    let promise = SameText(Snapshot::of(&text));
    let thread = Builder::new().stack_size(STACK_BYTES);
    match thread.spawn_with(rt, promise, move || text.read_ahead(alloc)) {
        Ok(running) => Ok(running),
        Err(refused) => Err((refused.value)()),
    }
}

/// Reads a text ahead while those behind it are. The last of all is read in this thread.
#[cycle(texts)]
fn read_beside<R: Threads>(rt: &R, alloc: Global, text: Source, rest: &mut [Source]) -> Source
    ensures text { result ≡ text }
    ensures rest { rest.new ≡ rest.old }
{
    if rest.is_empty() {
        return text.read_ahead(alloc);
    }
    let begun = begin(rt, alloc, text);
    read_batch(rt, alloc, rest);
    match begun {
        Ok(running) => running.join(rt),
        Err(read) => read,
    }
}

/// Reads the texts of a batch ahead, side by side where that is worth it.
#[cycle(texts)]
fn read_batch<R: Threads>(rt: &R, alloc: Global, texts: &mut [Source])
    ensures { texts.new ≡ texts.old }
{
    match texts.split_first_mut() {
        None => {}
        Some((text, rest)) => {
            if text.len() < PIECE {
                read_batch(rt, alloc, rest)
            } else {
                let taken = mem::replace(text, Source::new(Vec::new(alloc)));
                *text = read_beside(rt, alloc, taken, rest);
            }
        }
    }
}

/// Reads the texts ahead, each as if it followed no other, one batch after another.
pub(crate) fn read_ahead<R: Threads>(rt: &R, alloc: Global, texts: &mut [Source])
    ensures { texts.new ≡ texts.old }
{
    if texts.len() <= SIDE_BY_SIDE {
        read_batch(rt, alloc, texts)
    } else {
        let (batch, rest) = texts.split_at_mut(SIDE_BY_SIDE);
        read_batch(rt, alloc, batch);
        read_ahead(rt, alloc, rest)
    }
}
