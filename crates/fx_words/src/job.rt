ghost use Rattle.std.specs.Prelude.{◌≡◌, ◌+◌, ◌≤◌, ◌<◌, IfOk, IfSome, Some, None, Err, slice_get, option_copied, option_map, is_some, length, drop};
ghost use Rattle.fx_base.specs.Limits.{shell_limit};
ghost use Rattle.fx_words.specs.Forms.{command_job, least_of, most_of};
ghost use Rattle.fx_words.specs.WordsOf.{texts_of};
ghost use Rattle.fx_words.specs.Job as job;
ghost use Rattle.fx_words.specs.JobOf.{asked, asked_audit, asked_gen, asked_inputs, asked_job, asked_journal, asked_recover, asked_show, asked_views, has_schedule, AreInputs, BeginAt, IsAnyJob, IsJob, IsJournalJob, IsViewsJob};

use crate::decimal::number_of;
use crate::fault::WordsFault;
use crate::form::CommandName;
use crate::reading::read_words;
use crate::schedule::{is_schedule, read_schedule};
use fx_base::NoMemory;
use fx_outside::{HostText, Words};
use std::alloc::Global;

/// What the words ask for.
#[derive(Clone, Copy)]
pub enum Job<'a> {
    Run(RunJob<'a>),
    Show(ShowJob<'a>),
    Gen(GenJob<'a>),
    Large(GenJob<'a>),
    Audit(AuditJob<'a>),
    Journal(JournalJob<'a>),
    Recover(RecoverJob<'a>),
    Views(ViewsJob<'a>),
}

/// What a run reads: a description, a folder, and scripts, which are the last of the words.
#[derive(Clone, Copy)]
pub struct Inputs<'a> {
    pub spec: &'a HostText,
    pub folder: &'a HostText,
    words: &'a Words,
    first: u64,
}

/// How the scripts run, with the text of the schedule.
#[derive(Clone, Copy)]
pub enum RunMode<'a> {
    /// A thread for each script.
    Plain,
    /// One thread, by a schedule of shells.
    Scheduled(&'a HostText),
    /// One thread, by a schedule of shells. Each commit is followed by whether the tree has a value.
    Watched(&'a HostText),
}

/// The arguments of `run SPEC FOLDER OUT SCRIPT...`, or of `trace` or `watch SPEC FOLDER OUT SCHEDULE SCRIPT...`.
#[derive(Clone, Copy)]
pub struct RunJob<'a> {
    pub inputs: Inputs<'a>,
    pub out: &'a HostText,
    pub mode: RunMode<'a>,
}

/// The arguments of `audit SPEC FOLDER REPORT SCRIPT...`.
#[derive(Clone, Copy)]
pub struct AuditJob<'a> {
    pub inputs: Inputs<'a>,
    pub report: &'a HostText,
}

/// The arguments of `journal SPEC FOLDER OUT JOURNAL SCHEDULE SCRIPT...`. Its run is by the schedule.
#[derive(Clone, Copy)]
pub struct JournalJob<'a> {
    pub run: RunJob<'a>,
    pub journal: &'a HostText,
}

/// The arguments of `recover SPEC FOLDER JOURNAL OUT SCRIPT...`.
#[derive(Clone, Copy)]
pub struct RecoverJob<'a> {
    pub inputs: Inputs<'a>,
    pub journal: &'a HostText,
    pub out: &'a HostText,
}

/// The arguments of `views SPEC FOLDER OUT VIEWS SCRIPT...`.
#[derive(Clone, Copy)]
pub struct ViewsJob<'a> {
    pub inputs: Inputs<'a>,
    pub out: &'a HostText,
    pub views: &'a HostText,
}

/// The arguments of `show SPEC FOLDER`.
#[derive(Clone, Copy)]
pub struct ShowJob<'a> {
    pub spec: &'a HostText,
    pub folder: &'a HostText,
}

/// The arguments of `gen NUMBER OUT`, and of `large NUMBER OUT`.
#[derive(Clone, Copy)]
pub struct GenJob<'a> {
    /// The number that the case is made from.
    pub number: u32,
    pub out: &'a HostText,
}

/// Whether a word may be an argument: it is not empty and does not begin with `-`.
fn is_plain(word: &HostText) -> bool
    ensures { result ≡ job.is_plain word.now }
{
    match word.as_str().as_bytes().first() {
        Some(b) => *b != b'-',
        None => false,
    }
}

/// Whether each word may be an argument.
fn are_plain(words: &Words) -> bool
    ensures { result ≡ job.are_plain words.now }
{
    words.iter().all(is_plain)
}

/// The texts of the words.
fn texts(alloc: Global, words: &Words) -> Result<Vec<&str>, NoMemory>
    ensures { IfOk result (λ texts. texts_of texts.items ≡ words.now) }
{
    let mut texts = Vec::new(alloc);
    for word in words.iter() {
        texts.push(word.as_str())?;
    }
    Ok(texts)
}

/// The word at a place where one is.
fn word(words: &Words, place: u64) -> &HostText
    requires { place < length words.now }
    ensures { slice_get words.now place ≡ Some result.now }
{
    match words.at(place) {
        Some(word) => word,
        None => unreachable!(),
    }
}

/// SPEC and FOLDER, and the scripts from a place on.
fn inputs_from(words: &Words, first: u64) -> Inputs<'_>
    requires late { 3 ≤ first }
    requires early { first ≤ 6 }
    requires some { first < length words.now }
    requires few { length words.now ≤ first + shell_limit }
    ensures begin { BeginAt words.now first result }
    ensures inputs { AreInputs result }
{
    Inputs {
        spec: word(words, 1),
        folder: word(words, 2),
        words,
        first,
    }
}

/// The word at a place, if it is a schedule of as many shells as words follow.
fn schedule_at(words: &Words, place: u64) -> Option<&HostText>
    requires early { place ≤ 5 }
    requires some { place + 1 < length words.now }
    requires few { length words.now ≤ place + 1 + shell_limit }
    ensures word { IfSome result (λ schedule. slice_get words.now place ≡ Some schedule.now) }
    ensures read { is_some result ≡ has_schedule words.now place }
{
    let schedule = word(words, place);
    let count = (words.len() - (place + 1)) as u32;
    if is_schedule(count, schedule.as_str().as_bytes()) {
        return Some(schedule);
    }
    None
}

/// The arguments of `run`.
fn run_job(words: &Words) -> RunJob<'_>
    requires some { 4 < length words.now }
    requires few { length words.now ≤ 4 + shell_limit }
    ensures asked { job.run_job (drop 1 words.now) ≡ Some (asked result) }
    ensures job { IsJob result }
{
    RunJob {
        inputs: inputs_from(words, 4),
        out: word(words, 3),
        mode: RunMode::Plain,
    }
}

/// The arguments of `trace`, if the schedule can be read.
fn trace_job(words: &Words) -> Option<RunJob<'_>>
    requires some { 5 < length words.now }
    requires few { length words.now ≤ 5 + shell_limit }
    ensures asked { option_map asked result ≡ job.scheduled_job job.Scheduled (drop 1 words.now) }
    ensures job { IfSome result IsJob }
{
    let schedule = schedule_at(words, 4)?;
    Some(RunJob {
        inputs: inputs_from(words, 5),
        out: word(words, 3),
        mode: RunMode::Scheduled(schedule),
    })
}

/// The arguments of `watch`, if the schedule can be read.
fn watch_job(words: &Words) -> Option<RunJob<'_>>
    requires some { 5 < length words.now }
    requires few { length words.now ≤ 5 + shell_limit }
    ensures asked { option_map asked result ≡ job.scheduled_job job.Watched (drop 1 words.now) }
    ensures job { IfSome result IsJob }
{
    let schedule = schedule_at(words, 4)?;
    Some(RunJob {
        inputs: inputs_from(words, 5),
        out: word(words, 3),
        mode: RunMode::Watched(schedule),
    })
}

/// The arguments of `audit`.
fn audit_job(words: &Words) -> AuditJob<'_>
    requires some { 4 < length words.now }
    requires few { length words.now ≤ 4 + shell_limit }
    ensures asked { job.audit_job (drop 1 words.now) ≡ Some (asked_audit result) }
    ensures job { AreInputs result.inputs }
{
    AuditJob {
        inputs: inputs_from(words, 4),
        report: word(words, 3),
    }
}

/// The arguments of `journal`, if the schedule can be read.
fn journal_job(words: &Words) -> Option<JournalJob<'_>>
    requires some { 6 < length words.now }
    requires few { length words.now ≤ 6 + shell_limit }
    ensures asked { option_map asked_journal result ≡ job.journal_job (drop 1 words.now) }
    ensures job { IfSome result IsJournalJob }
{
    let schedule = schedule_at(words, 5)?;
    let run = RunJob {
        inputs: inputs_from(words, 6),
        out: word(words, 3),
        mode: RunMode::Scheduled(schedule),
    };
    let journal = word(words, 4);
    Some(JournalJob { run, journal })
}

/// The arguments of `recover`.
fn recover_job(words: &Words) -> RecoverJob<'_>
    requires some { 5 < length words.now }
    requires few { length words.now ≤ 5 + shell_limit }
    ensures asked { job.recover_job (drop 1 words.now) ≡ Some (asked_recover result) }
    ensures job { AreInputs result.inputs }
{
    RecoverJob {
        inputs: inputs_from(words, 5),
        journal: word(words, 3),
        out: word(words, 4),
    }
}

/// The arguments of `views`.
fn views_job(words: &Words) -> ViewsJob<'_>
    requires some { 5 < length words.now }
    requires few { length words.now < 5 + shell_limit }
    ensures asked { job.views_job (drop 1 words.now) ≡ Some (asked_views result) }
    ensures job { IsViewsJob result }
{
    ViewsJob {
        inputs: inputs_from(words, 5),
        out: word(words, 3),
        views: word(words, 4),
    }
}

/// The arguments of `show`.
fn show_job(words: &Words) -> ShowJob<'_>
    requires { length words.now ≡ 3 }
    ensures { job.show_job (drop 1 words.now) ≡ Some (asked_show result) }
{
    ShowJob {
        spec: word(words, 1),
        folder: word(words, 2),
    }
}

/// The arguments of `gen` or of `large`, if the number can be read.
fn gen_job(words: &Words) -> Option<GenJob<'_>>
    requires { length words.now ≡ 3 }
    ensures { option_map asked_gen result ≡ job.gen_job (drop 1 words.now) }
{
    let number = number_of(word(words, 1).as_str())?;
    let out = word(words, 2);
    Some(GenJob { number, out })
}

/// What a command asks for with as many arguments as it takes; none where a schedule or a number can't be read.
fn job_in(words: &Words, command: CommandName) -> Option<Job<'_>>
    requires some { least_of command < length words.now }
    requires few { length words.now ≤ most_of command + 1 }
    ensures asked { option_map asked_job result ≡ command_job command (drop 1 words.now) }
    ensures job { IfSome result IsAnyJob }
{
    match command {
        CommandName::Run => Some(Job::Run(run_job(words))),
        CommandName::Trace => Some(Job::Run(trace_job(words)?)),
        CommandName::Show => Some(Job::Show(show_job(words))),
        CommandName::Gen => Some(Job::Gen(gen_job(words)?)),
        CommandName::Large => Some(Job::Large(gen_job(words)?)),
        CommandName::Audit => Some(Job::Audit(audit_job(words))),
        CommandName::Watch => Some(Job::Run(watch_job(words)?)),
        CommandName::Journal => Some(Job::Journal(journal_job(words)?)),
        CommandName::Recover => Some(Job::Recover(recover_job(words))),
        CommandName::Views => Some(Job::Views(views_job(words))),
    }
}

/// What the words ask for, as far as memory serves. They have no usage exactly where they have no command's form, or a
/// number of the schedule is not below the number of scripts.
pub fn job_of(alloc: Global, words: &Words) -> Result<Job<'_>, WordsFault>
    ensures asked { IfOk result (λ j. job.job_of words.now ≡ Some (asked_job j)) }
    ensures job { IfOk result IsAnyJob }
    ensures usage { result ≡ Err WordsFault.Usage → job.job_of words.now ≡ None }
{
    if !are_plain(words) {
        return Err(WordsFault::Usage);
    }
    let texts = texts(alloc, words)?;
    let form = read_words(alloc, texts.as_slice())?;
    match job_in(words, form.command) {
        Some(job) => Ok(job),
        None => Err(WordsFault::Usage),
    }
}

impl<'a> Inputs<'a> {
    /// The number of scripts: 1 to 64.
    pub fn scripts(&self) -> u32
        requires { AreInputs self.now }
        ensures count { result ≡ length (asked_inputs self.now).scripts }
        ensures some { 1 ≤ result }
        ensures few { result ≤ shell_limit }
    {
        (self.words.len() - self.first) as u32
    }

    /// The word that names script `i`, from 0; None exactly from `scripts` on.
    pub fn script(&self, i: u32) -> Option<&HostText>
        requires { AreInputs self.now }
        ensures { option_copied result ≡ slice_get (asked_inputs self.now).scripts i }
    {
        self.words.at(self.first + u64::from(i))
    }

    /// The place of script `i` among the words, the command being 0.
    pub fn place(&self, i: u32) -> u32
        requires inputs { AreInputs self.now }
        requires script { i < length (asked_inputs self.now).scripts }
        ensures { result ≡ job.script_place (asked_inputs self.now) i }
    {
        self.first as u32 + i
    }
}

impl<'a> RunJob<'a> {
    /// The shells of the schedule, in order; none where there is no schedule.
    pub fn shells(&self, alloc: Global) -> Result<Vec<u32>, NoMemory>
        requires { IsJob self.now }
        ensures { IfOk result (λ shells. shells.items ≡ job.shells_of (asked self.now)) }
    {
        match self.mode {
            RunMode::Plain => Ok(Vec::new(alloc)),
            RunMode::Scheduled(schedule) | RunMode::Watched(schedule) => {
                read_schedule(alloc, self.inputs.scripts(), schedule.as_str().as_bytes())
            }
        }
    }
}
