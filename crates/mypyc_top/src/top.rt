ghost use Rattle.std.specs.Prelude.{◌≡◌, ◌+◌, ◌<◌, ◌⊎◌, ℕ, List, Some, false, true, IsTrue};
ghost use Rattle.value_core.specs.Items.{Items};
ghost use Rattle.outside_core.specs.Bytes.{GivesAtMost};
ghost use Rattle.outside_core.specs.Counts.{count_end, has_risen, Rose};
ghost use Rattle.c_core.specs.Text.{code_text};
ghost use Rattle.c_runner.specs.Ran.{AreGiven};
ghost use Rattle.mypyc_top_words.specs.Words.{texts, words_of};
ghost use Rattle.mypyc_top_words.specs.Limits.{named_content, named_most};
ghost use Rattle.mypyc_top_status.specs.Causes.{AbsentOpens, Yields};
ghost use Rattle.mypyc_top_status.specs.Replies.{is_run_status};
ghost use Rattle.mypyc_top_status.specs.Sinks.{sink_call};
ghost use Rattle.mypyc_top_running.specs.Takes.{most_taken};
ghost use Rattle.mypyc_top.specs.Answer.{file_meaning, Answer, IsStatus};
ghost use Rattle.mypyc_top.specs.Modes.{IsAllowed};
ghost use Rattle.mypyc_top.specs.Answered.{Answered};
ghost use Rattle.mypyc_top.specs.Reads.{runs_program, turns_of, runs_text, leaves_input, RunRead, ReadBy};

use crate::plan::{Plan, plan_of};
use mypyc_top_running::{run_and_send, send_reply};
use mypyc_top_status::{Status, out_of_memory};
use mypyc_top_words::Words;
use outside_core::{Files, Sink, Source};
use std::alloc::Global;
use value_core::Memory;

/// The compiler: reads the words and the file that they name, and writes to `out` what they ask for: the C text of a
/// module, or its diagnostics, or the output of the program. A line for what went wrong goes to `err`, and the status is
/// answered. `input` is what a program that runs can read.
pub fn mypyc<F: Files, I: Source, O: Sink, E: Sink>(
    alloc: Global,
    words: &[String],
    files: &mut F,
    input: &mut I,
    out: &mut O,
    err: &mut E,
) -> Status
    // Where the files tell their content, the status and what the sinks took are the answer, for the lines of the
    // input, which are those that it gave where it tells them. A sink that is to get nothing is left as it was.
    ensures answer { IsTrue F.tells → F.faults files.old < count_end → (items : Items)
        × AreGiven I.tells (I.faults input.old) (I.faults input.new) (I.left input.old) (I.left input.new) items
        × Answered (texts words.now)
        (file_meaning (has_risen (F.faults files.old) (F.faults files.new)) (F.is_open files.new)
        (named_content (F.content files.old) (texts words.now)))
        items
        (sink_call O.tells (O.taken out.old) (O.taken out.new))
        (sink_call E.tells (E.taken err.old) (E.taken err.new))
        (out.new ≡ out.old) (err.new ≡ err.old)
        result }
    ensures usage { result ≡ Status.Usage → words_of (texts words.now) ≡ Words.Usage }
    ensures usage_comes { words_of (texts words.now) ≡ Words.Usage →
        (result ≡ Status.Usage) ⊎ Yields result }
    // Which statuses the mode has: diagnostics come of modules alone, a refused text and a fault of ownership of C text
    // alone, and endings of programs that run.
    ensures allowed { IsAllowed (words_of (texts words.now)) result }
    ensures open_fault { result ≡ Status.OpenFault →
        Rose (F.faults files.old) (F.faults files.new) × (F.is_open files.new ≡ false) }
    ensures read_fault { result ≡ Status.ReadFault →
        Rose (F.faults files.old) (F.faults files.new) × (F.is_open files.new ≡ true) }
    ensures absent { IsTrue F.tells → AbsentOpens result
        (named_content (F.content files.old) (texts words.now))
        (F.absent_opens files.old) (F.absent_opens files.new) }
    ensures write_fault { result ≡ Status.WriteFault →
        Rose (O.faults out.old) (O.faults out.new) ⊎ Rose (E.faults err.old) (E.faults err.new) }
    ensures input_fault { result ≡ Status.InputFault → Rose (I.faults input.old) (I.faults input.new) }
    // The input is left as it was where no program is run.
    ensures input { IsTrue (leaves_input (words_of (texts words.now)) result) → input.new ≡ input.old }
    // Where the input tells its bytes, a run for the turns of the words took of it those of the lines that it used and at
    // most 4095 behind them, and none where it used no line, unless a line ended too far along or a read failed. Where
    // `out` tells, no line was used behind a call that it refused.
    ensures reads { IsTrue I.tells → IsTrue (runs_program (words_of (texts words.now))) → IsTrue (is_run_status result)
        → ReadBy result (input.new ≡ input.old) ((items : Items)
        × AreGiven I.tells (I.faults input.old) (I.faults input.new) (I.left input.old) (I.left input.new) items
        × RunRead items (turns_of (words_of (texts words.now)))
        (sink_call O.tells (O.taken out.old) (O.taken out.new)) (I.left input.old) (I.left input.new)
        (λ code. (bytes : List ℕ) → IsTrue F.tells → named_content (F.content files.old) (texts words.now) ≡ Some bytes
        → IsTrue (runs_text (words_of (texts words.now))) → code_text code ≡ bytes)
        (λ text lines status. IsTrue F.tells → F.faults files.old < count_end → Answer (texts words.now)
        (file_meaning (has_risen (F.faults files.old) (F.faults files.new)) (F.is_open files.new)
        (named_content (F.content files.old) (texts words.now)))
        items text lines status) result) }
    // Never is more read than one byte more than a run may use, whatever comes of it.
    ensures reads_at_most { IsTrue I.tells → GivesAtMost most_taken (I.left input.old) (I.left input.new) }
    // A file is read to its limit, and one byte further at most, whatever comes of it.
    ensures read_at_most { (bytes : List ℕ) → IsTrue F.tells → F.is_open files.old ≡ false
        → named_content (F.content files.old) (texts words.now) ≡ Some bytes → IsTrue (F.is_open files.new)
        → GivesAtMost (named_most (words_of (texts words.now)) + 1) bytes (F.left files.new) }
    // The status for a file whose bytes the files tell, where no call on them failed.
    ensures by_bytes { (bytes : List ℕ) → IsTrue F.tells → F.faults files.old < count_end
        → named_content (F.content files.old) (texts words.now) ≡ Some bytes
        → ¬ (Rose (F.faults files.old) (F.faults files.new))
        → (items : Items)
        × AreGiven I.tells (I.faults input.old) (I.faults input.new) (I.left input.old) (I.left input.new) items
        × (IsStatus (texts words.now) bytes items result ⊎ Yields result) }
    // Where no call on a sink failed either, only want of memory comes between.
    ensures complete { (bytes : List ℕ) → IsTrue F.tells → F.faults files.old < count_end
        → named_content (F.content files.old) (texts words.now) ≡ Some bytes
        → ¬ (Rose (F.faults files.old) (F.faults files.new))
        → ¬ (Rose (O.faults out.old) (O.faults out.new))
        → ¬ (Rose (E.faults err.old) (E.faults err.new))
        → (items : Items)
        × AreGiven I.tells (I.faults input.old) (I.faults input.new) (I.left input.old) (I.left input.new) items
        × (IsStatus (texts words.now) bytes items result ⊎ (result ≡ Status.Memory)) }
{
    match plan_of(alloc, words, files) {
        Ok(Plan::Send(reply)) => send_reply(&reply, false, out, err),
        Ok(Plan::Run(program)) => run_and_send(alloc, &program, input, out, err),
        Err(Memory) => out_of_memory(err),
    }
}
