ghost use Rattle.std.specs.Prelude.{◌≡◌, ◌+◌, ◌<◌, ◌≤◌, ℕ, List, Some, false, true, IsTrue, IfOk};
ghost use Rattle.outside_core.specs.Bytes.{GivesAtMost};
ghost use Rattle.outside_core.specs.Counts.{count_end, has_risen, Rose};
ghost use Rattle.c_core.specs.Run.{most_turns};
ghost use Rattle.mypyc_top_words.specs.Words.{texts, words_of};
ghost use Rattle.mypyc_top_words.specs.Limits.{named_content, most_bytes, named_most};
ghost use Rattle.mypyc_top_status.specs.Output.{output_text};
ghost use Rattle.mypyc_top_status.specs.Causes.{AbsentOpens};
ghost use Rattle.mypyc_top_status.specs.Replies.{IsSent, is_file_status, is_module_status};
ghost use Rattle.mypyc_top_running.specs.Programs.{IsRunnable};
ghost use Rattle.mypyc_top_compiler.specs.Diagnostics.{entries_text, notes_text};
ghost use Rattle.mypyc_top_compiler.specs.Found.{entries_of};
ghost use Rattle.mypyc_top.specs.Running.{TextRun, ModuleRun};
ghost use Rattle.mypyc_top.specs.Answer.{Answer, RequestAnswer, ModeAnswer, ModuleAnswer, Checked, Compiled, file_meaning};
ghost use Rattle.mypyc_top.specs.Plans.{MatchPlan, ForReply, Plans, CanCome, Allowed};
ghost use Rattle.mypyc_top.specs.Reads.{runs, runs_program, turns_of, is_text, runs_text, OfText, HasTurns, PlanRuns};

use mypyc_top_compiler::{Faults, ModuleError, code_of, lines_of, notes_of, read_typed};
use mypyc_top_reading::{Refusal, TextFault, read_file, text_code};
use mypyc_top_running::Program;
use mypyc_top_status::{
    Output, Reply, Status, ill_formed_reply, large_reply, open_reply, output_reply, read_reply,
    refused_reply, usage_reply,
};
use mypyc_top_words::{Emit, Request, Words, most_bytes_of, read_words};
use outside_core::Files;
use std::alloc::Global;
use value_core::Memory;

/// What is said of a module without diagnostics.
const SUCCESS: &[u8] = b"Success: no issues found in 1 source file\n";

/// What is done once the file is read.
#[derive(Drop)]
pub(crate) enum Plan {
    /// This is sent.
    Send(Reply),
    /// This is run.
    Run(Program),
}

/// Reads the words and the file that they name, and finds what is to be done.
pub(crate) fn plan_of<F: Files>(
    alloc: Global,
    words: &[String],
    files: &mut F,
) -> Result<Plan, Memory>
    ensures fit { IfOk result (λ plan. MatchPlan plan (λ reply. IsSent reply.status) IsRunnable) }
    ensures allowed { IfOk result (Allowed (words_of (texts words.now))) }
    ensures runs { IfOk result (PlanRuns (runs_program (words_of (texts words.now)))) }
    ensures turns { IfOk result (HasTurns (turns_of (words_of (texts words.now)))) }
    ensures open_fault { IfOk result (λ plan. ForReply plan (λ reply. reply.status ≡ Status.OpenFault →
        Rose (F.faults files.old) (F.faults files.new) × (F.is_open files.new ≡ false))) }
    ensures read_fault { IfOk result (λ plan. ForReply plan (λ reply. reply.status ≡ Status.ReadFault →
        Rose (F.faults files.old) (F.faults files.new) × (F.is_open files.new ≡ true))) }
    ensures absent { IfOk result (λ plan. ForReply plan (λ reply. IsTrue F.tells → AbsentOpens reply.status
        (named_content (F.content files.old) (texts words.now))
        (F.absent_opens files.old) (F.absent_opens files.new))) }
    ensures answer { IfOk result (λ plan. IsTrue F.tells → F.faults files.old < count_end →
        Plans (Answer (texts words.now)
        (file_meaning (has_risen (F.faults files.old) (F.faults files.new)) (F.is_open files.new)
        (named_content (F.content files.old) (texts words.now)))) plan) }
    ensures text { (bytes : List ℕ) → IsTrue F.tells → named_content (F.content files.old) (texts words.now) ≡ Some bytes
        → IsTrue (runs_text (words_of (texts words.now))) → IfOk result (OfText bytes) }
    ensures read_at_most { (bytes : List ℕ) → IsTrue F.tells → F.is_open files.old ≡ false
        → named_content (F.content files.old) (texts words.now) ≡ Some bytes → IsTrue (F.is_open files.new)
        → GivesAtMost (named_most (words_of (texts words.now)) + 1) bytes (F.left files.new) }
{
    match read_words(alloc, words)? {
        Words::Usage => Ok(Plan::Send(usage_reply(alloc)?)),
        Words::Go(request) => request_plan(alloc, &request, files),
    }
}

fn request_plan<F: Files>(alloc: Global, request: &Request, files: &mut F) -> Result<Plan, Memory>
    requires { request.now.turns ≤ most_turns }
    ensures fit { IfOk result (λ plan. MatchPlan plan (λ reply. IsSent reply.status) IsRunnable) }
    ensures allowed { IfOk result (CanCome request.now.emit) }
    ensures runs { IfOk result (PlanRuns (runs request.now.emit)) }
    ensures turns { IfOk result (HasTurns request.now.turns) }
    ensures open_fault { IfOk result (λ plan. ForReply plan (λ reply. reply.status ≡ Status.OpenFault →
        Rose (F.faults files.old) (F.faults files.new) × (F.is_open files.new ≡ false))) }
    ensures read_fault { IfOk result (λ plan. ForReply plan (λ reply. reply.status ≡ Status.ReadFault →
        Rose (F.faults files.old) (F.faults files.new) × (F.is_open files.new ≡ true))) }
    ensures absent { IfOk result (λ plan. ForReply plan (λ reply. IsTrue F.tells → AbsentOpens reply.status
        (F.content files.old request.now.file)
        (F.absent_opens files.old) (F.absent_opens files.new))) }
    ensures answer { IfOk result (λ plan. IsTrue F.tells → F.faults files.old < count_end →
        Plans (RequestAnswer request.now
        (file_meaning (has_risen (F.faults files.old) (F.faults files.new)) (F.is_open files.new)
        (F.content files.old request.now.file))) plan) }
    ensures text { (bytes : List ℕ) → IsTrue F.tells → F.content files.old request.now.file ≡ Some bytes
        → IsTrue (is_text request.now.emit) → IfOk result (OfText bytes) }
    ensures read_at_most { (bytes : List ℕ) → IsTrue F.tells
        → F.content files.old request.now.file ≡ Some bytes → IsTrue (F.is_open files.new)
        → GivesAtMost (most_bytes request.now.emit + 1) bytes (F.left files.new) }
{
    let file = request.file.as_str();
    match read_file(alloc, files, &request.file, most_bytes_of(request.emit)) {
        Ok(bytes) => file_plan(alloc, request, &bytes),
        Err(Refusal::Open) => Ok(Plan::Send(open_reply(alloc, file)?)),
        Err(Refusal::Read) => Ok(Plan::Send(read_reply(alloc, file)?)),
        Err(Refusal::TooLarge) => Ok(Plan::Send(large_reply(alloc, file)?)),
        Err(Refusal::Memory) => Err(Memory),
    }
}

/// What is done with the bytes of the file.
fn file_plan(alloc: Global, request: &Request, bytes: &[u8]) -> Result<Plan, Memory>
    requires { request.now.turns ≤ most_turns }
    ensures fit { IfOk result (λ plan. MatchPlan plan (λ reply. IsTrue (is_file_status reply.status)) IsRunnable) }
    ensures allowed { IfOk result (CanCome request.now.emit) }
    ensures runs { IfOk result (PlanRuns (runs request.now.emit)) }
    ensures turns { IfOk result (HasTurns request.now.turns) }
    ensures answer { IfOk result (Plans (ModeAnswer request.now.emit request.now bytes.now)) }
    ensures text { IsTrue (is_text request.now.emit) → IfOk result (OfText bytes.now) }
{
    let file = request.file.as_str();
    match request.emit {
        Emit::Check => check_plan(alloc, file, bytes),
        Emit::C => compile_plan(alloc, file, bytes),
        Emit::Run => run_plan(alloc, file, request.turns, bytes),
        Emit::Runc => text_plan(alloc, file, request.turns, bytes),
    }
}

/// A module is said to have no diagnostics, or has them.
fn check_plan(alloc: Global, file: &str, bytes: &[u8]) -> Result<Plan, Memory>
    ensures fit { IfOk result (λ plan. MatchPlan plan (λ reply. IsTrue (is_module_status reply.status)) (λ _. ⊥)) }
    ensures runs { IfOk result (PlanRuns false) }
    ensures answer { IfOk result (Plans (λ _ out err s.
        ModuleAnswer Emit.Check file.now bytes.now (λ _. Checked out err s) out err s)) }
{
    match read_typed(alloc, Emit::Check, bytes) {
        Ok(_checked) => {
            let text = Vec::from_slice(alloc, SUCCESS)?;
            Ok(Plan::Send(output_reply(alloc, Status::Done, Output::Bytes(text))))
        }
        Err(ModuleError::Faulty(faults)) => {
            Ok(Plan::Send(diagnosed_reply(alloc, file, &faults)?))
        }
        Err(ModuleError::Memory) => Err(Memory),
    }
}

/// The C text of a module, or its diagnostics.
fn compile_plan(alloc: Global, file: &str, bytes: &[u8]) -> Result<Plan, Memory>
    ensures fit { IfOk result (λ plan. MatchPlan plan (λ reply. IsTrue (is_module_status reply.status)) (λ _. ⊥)) }
    ensures runs { IfOk result (PlanRuns false) }
    ensures answer { IfOk result (Plans (λ _ out err s.
        ModuleAnswer Emit.C file.now bytes.now (λ m. Compiled m out err s) out err s)) }
{
    match read_typed(alloc, Emit::C, bytes) {
        Ok(checked) => {
            let code = code_of(alloc, &checked)?;
            Ok(Plan::Send(output_reply(alloc, Status::Done, Output::Text(code))))
        }
        Err(ModuleError::Faulty(faults)) => {
            Ok(Plan::Send(diagnosed_reply(alloc, file, &faults)?))
        }
        Err(ModuleError::Memory) => Err(Memory),
    }
}

/// The code of a module is run, or its diagnostics are sent.
fn run_plan(alloc: Global, file: &str, turns: u64, bytes: &[u8]) -> Result<Plan, Memory>
    requires { turns ≤ most_turns }
    ensures fit { IfOk result (λ plan. MatchPlan plan (λ reply. IsTrue (is_module_status reply.status)) IsRunnable) }
    ensures allowed { IfOk result (CanCome Emit.Run) }
    ensures runs { IfOk result (PlanRuns true) }
    ensures turns { IfOk result (HasTurns turns) }
    ensures answer { IfOk result (Plans (λ items out err s.
        ModuleAnswer Emit.Run file.now bytes.now (λ m. ModuleRun m turns items out err s) out err s)) }
{
    match read_typed(alloc, Emit::Run, bytes) {
        Ok(checked) => {
            let code = code_of(alloc, &checked)?;
            Ok(Plan::Run(Program {
                code,
                turns,
                has_summary: false,
            }))
        }
        Err(ModuleError::Faulty(faults)) => {
            Ok(Plan::Send(diagnosed_reply(alloc, file, &faults)?))
        }
        Err(ModuleError::Memory) => Err(Memory),
    }
}

/// The code of a C text is run, where it is well formed.
fn text_plan(alloc: Global, file: &str, turns: u64, bytes: &[u8]) -> Result<Plan, Memory>
    requires { turns ≤ most_turns }
    ensures fit { IfOk result (λ plan. MatchPlan plan (λ reply. reply.status ≡ Status.TextRefused) IsRunnable) }
    ensures allowed { IfOk result (CanCome Emit.Runc) }
    ensures runs { IfOk result (PlanRuns true) }
    ensures turns { IfOk result (HasTurns turns) }
    ensures answer { IfOk result (Plans (TextRun file.now bytes.now turns)) }
    ensures text { IfOk result (OfText bytes.now) }
{
    match text_code(alloc, bytes) {
        Ok(code) => Ok(Plan::Run(Program {
            code,
            turns,
            has_summary: true,
        })),
        Err(TextFault::Refused(place)) => Ok(Plan::Send(refused_reply(alloc, file, place)?)),
        Err(TextFault::IllFormed) => Ok(Plan::Send(ill_formed_reply(alloc, file)?)),
        Err(TextFault::Memory) => Err(Memory),
    }
}

/// The answer to a file with diagnostics.
fn diagnosed_reply(alloc: Global, file: &str, faults: &Faults) -> Result<Reply, Memory>
    ensures { IfOk result (λ reply.
        (output_text reply.out ≡ entries_text file.now (entries_of faults.now))
        × (reply.err.items ≡ notes_text file.now (entries_of faults.now))
        × (reply.status ≡ Status.Diagnosed)) }
{
    let text = lines_of(alloc, file, faults)?;
    let notes = notes_of(alloc, file, faults)?;
    Ok(Reply {
        out: Output::Bytes(text),
        err: notes,
        status: Status::Diagnosed,
    })
}
