ghost use Rattle.std.specs.Prelude.{◌≡◌, ◌<◌, ◌≤◌, ◌+◌, None, Some, IfOk, IfErr, OnErr, All, length};
ghost use Rattle.std.specs.FinMap.{get};
ghost use Rattle.std.specs.Result.{result_map_both};
ghost use Rattle.fx_base.specs.Limits.{shell_limit};
ghost use Rattle.fx_turn.specs.Histories.{Begins};
ghost use Rattle.fx_turn.specs.Views.{maker_of, parted, newcomer, joining, joins};
ghost use Rattle.fx_turn.specs.Seats.{view};
ghost use Rattle.fx_spec.specs.Bases.{base_tree};
ghost use Rattle.fx_spec.specs.Order.{state};
ghost use Rattle.fx_machine.specs.Explained.{IsExplained};
ghost use Rattle.fx_machine.specs.Machine.{next_number};
ghost use Rattle.fx_board.specs.Board.{IsLog};
ghost use Rattle.fx_shared.specs.Passes.{HasBase, HasLegal, AreTrueInLog, HasSeenMore, IsLook, HasSettled, IsHandedBack};
ghost use Rattle.fx_shared.specs.Shared.{IsPassOf, IsReadyPass};

use crate::logged::{Logged, Versions};
use fx_base::NoMemory;
use fx_board::{Board, Settle, Settled};
use fx_machine::Attempt;
use fx_spec::Base;
use fx_store::{Node, Path};
use fx_turn::{Seat, Turn};
use std::alloc::Global;
use std::sync::{Arc, Wait};

/// A log that passes take by turns. A pass is used with the log that it was made for, and with no other.
#[derive(Drop)]
pub struct Shares<T: Logged> {
    turn: Turn<T>,
}

/// A shared log that keeps its present filestore alone.
pub type Shared = Shares<Board>;

/// A pass of a shared log, which one thread uses at a time. The number of a pass is that of its shell; the maker's has none.
pub type Pass = Seat<Board>;

impl<T: Logged> Shares<T> {
    /// A log with no entries, and the maker's pass. It has seen nothing.
    pub fn new(alloc: Global, base: Arc<Base>) -> Result<(Shares<T>, Seat<T>), NoMemory>
        ensures pass { IfOk result (λ r. IsPassOf r.0 r.1) }
        ensures view { IfOk result (λ r. view r.1 ≡ maker_of (base_tree base.value)) }
    {
        let log = T::new(alloc, base)?;
        match Turn::new(alloc, log) {
            Ok((turn, maker)) => Ok((Shares { turn }, maker)),
            Err((log, NoMemory)) => {
                drop(log);
                Err(NoMemory)
            }
        }
    }

    /// The pass of the next shell, from 0 on, with the maker's base. It has seen what the maker has seen, and has no
    /// entries. A log gives at most 64 passes.
    pub fn pass(&self, maker: &mut Seat<T>) -> Seat<T>
        requires pass { IsPassOf self.now maker.old }
        requires maker { (view maker.old).number ≡ None }
        requires room { (view maker.old).splits < shell_limit }
        ensures pass { IsPassOf self.now maker.new × IsPassOf self.now result }
        ensures maker { view maker.new ≡ parted (view maker.old) }
        ensures new { view result ≡ newcomer (view maker.old) }
    {
        self.turn.split(maker)
    }

    /// What stands at a path, and the number of entries, all of which the pass has then seen.
    pub fn look<R: Wait>(
        &self,
        rt: &R,
        alloc: Global,
        pass: &mut Seat<T>,
        path: &Path,
    ) -> Result<(Option<Node>, u64), NoMemory>
        requires { IsReadyPass self.now pass.old }
        ensures ready { IsReadyPass self.now pass.new }
        ensures seen { HasSeenMore (view pass.old) (view pass.new) }
        ensures legal { HasLegal (view pass.new) }
        ensures look { IfOk result (IsLook (view pass.new) path.now) }
    {
        let log = self.turn.take(rt, pass);
        let look = log.look(alloc, path);
        let _entries = log.entries();
        self.turn.give(pass, log);
        look
    }

    /// Settles an attempt of the pass's next transaction: it becomes the next entry, whose number is answered; or a
    /// conflict is answered, exactly where some entry has changed a read path at or after its look. The attempt needs to be
    /// explained, and its reads need to be true for the pass. They are dropped after the turn.
    pub fn settle<R: Wait>(
        &self,
        rt: &R,
        alloc: Global,
        pass: &mut Seat<T>,
        attempt: Attempt,
    ) -> Result<u64, Settle>
        requires ready { IsReadyPass self.now pass.old }
        requires whose { (view pass.old).number ≡ Some attempt.shell }
        requires next { attempt.txn ≡ (view pass.old).mine }
        requires explained { HasBase (view pass.old) (λ base. IsExplained base attempt) }
        requires reads { AreTrueInLog (view pass.old) attempt.reads }
        ensures ready { IsReadyPass self.now pass.new }
        ensures legal { HasLegal (view pass.new) }
        ensures settled { IfOk result (HasSettled (view pass.old) (view pass.new) attempt) }
        ensures seen { OnErr result (HasSeenMore (view pass.old) (view pass.new)) }
        ensures refused { IfErr result (IsHandedBack (view pass.new) attempt) }
    {
        let mut log = self.turn.take(rt, pass);
        let answer = log.settle_keeping_reads(alloc, attempt);
        let _entries = log.entries();
        self.turn.give(pass, log);
        entry_of(answer)
    }

    /// Takes in a pass. The maker has then seen the longer of what both had seen, which begins with the other.
    pub fn join(&self, maker: &mut Seat<T>, pass: Seat<T>)
        requires maker { IsPassOf self.now maker.old × ((view maker.old).number ≡ None) }
        requires pass { IsReadyPass self.now pass }
        ensures pass { IsPassOf self.now maker.new }
        ensures maker { view maker.new ≡ joining (view maker.old) (view pass) }
        ensures seen { Begins (view maker.old).seen (view maker.new).seen }
        ensures told { Begins (view pass).seen (view maker.new).seen }
    {
        self.turn.join(maker, pass);
    }

    /// The log, once every pass was joined. It begins with all that the maker has seen, and has the entries of every joined
    /// pass.
    pub fn close(self, maker: Seat<T>) -> T
        requires pass { IsPassOf self maker × ((view maker).number ≡ None) }
        requires all { joins (view maker) ≡ (view maker).splits }
        ensures base { (view maker).base ≡ Some (T.log result).base }
        ensures seen { Begins (view maker).seen (T.log result).order }
        ensures joined { All (λ j. next_number (T.log result).order j.0 ≡ j.1) (view maker).joined }
        ensures log { IsLog (T.log result) }
    {
        let Shares { turn } = self;
        let log = turn.close(maker);
        let _entries = log.entries();
        log
    }
}

impl<T: Versions> Shares<T> {
    /// The number of entries, all of which the pass has then seen. It takes one turn, and no memory.
    pub fn begin<R: Wait>(&self, rt: &R, pass: &mut Seat<T>) -> u64
        requires { IsReadyPass self.now pass.old }
        ensures ready { IsReadyPass self.now pass.new }
        ensures seen { HasSeenMore (view pass.old) (view pass.new) }
        ensures legal { HasLegal (view pass.new) }
        ensures length { result ≡ length (view pass.new).seen }
    {
        let log = self.turn.take(rt, pass);
        let entries = log.entries();
        self.turn.give(pass, log);
        entries
    }

    /// What stood at a path after so many of the entries that the pass has seen.
    pub fn look_at<R: Wait>(
        &self,
        rt: &R,
        alloc: Global,
        pass: &mut Seat<T>,
        path: &Path,
        i: u64,
    ) -> Result<Option<Node>, NoMemory>
        requires ready { IsReadyPass self.now pass.old }
        requires seen { i ≤ length (view pass.old).seen }
        ensures ready { IsReadyPass self.now pass.new }
        ensures seen { HasSeenMore (view pass.old) (view pass.new) }
        ensures legal { HasLegal (view pass.new) }
        ensures node { IfOk result (λ node. HasBase (view pass.new)
            (λ base. node ≡ get (state base (view pass.new).seen i) path.now)) }
    {
        let log = self.turn.take(rt, pass);
        let node = log.at(alloc, path, i);
        let _entries = log.entries();
        self.turn.give(pass, log);
        node
    }
}

/// The number of the entry of a settled attempt. What the attempt had read is dropped.
fn entry_of(answer: Result<Settled, Settle>) -> Result<u64, Settle>
    ensures { result ≡ result_map_both (λ settled. settled.entry) (λ refusal. refusal) answer }
{
    let Settled { entry, reads } = answer?;
    reads.let_go();
    Ok(entry)
}
