ghost use Rattle.std.specs.Prelude.{◌≡◌, ◌≢◌, ◌≤◌, ◌⊎◌, [], ◌∷◌, ℕ, List, Some, None, codes};
ghost use Rattle.std.specs.Fmt.{decimal};
ghost use Rattle.logic_core.specs.Truth.{structure};
ghost use Rattle.text_core.specs.Lists.{IsAmong};
ghost use Rattle.text_core.specs.Names.{Text};
ghost use Rattle.io_core.specs.Causes.{Rose};
ghost use Rattle.io_core.specs.Held.{Held};
ghost use Rattle.io_core.specs.Fetched.{Grows};
ghost use Rattle.io_core.specs.Stream.{Puts, Breaks};
ghost use Rattle.proof_text.specs.declared.part.Edition.{Edition};
ghost use Rattle.proof_text.specs.declared.part.Edition.TheVariants.{First};
ghost use Rattle.larus_cli.specs.declared.command.Format.TheVariants.{Vernacular, Isar};
ghost use Rattle.larus_cli.specs.Words.{Aim, Asks, command_of, edition_word};
ghost use Rattle.larus_cli.specs.OwnFiles.{looked_at, AsksNoFile};
ghost use Rattle.larus_cli.specs.Complete.{IsReadable, CanBeDone, NoFault};
ghost use Rattle.larus_cli.specs.Follows.{ProblemFollows};
ghost use Rattle.larus_cli.specs.Refuted.{ProblemRefuted};
ghost use Rattle.larus_cli.specs.Printed.{ProblemPrinted, ProofPrinted, IsarPrinted};
ghost use Rattle.larus_cli.specs.Sought.{SmallestPrinted, NoneTold, LeastModelPrinted, NoModelTold};
ghost use Rattle.larus_cli.specs.Outcome.{Outcome, sinks};

use crate::command::{MOST_STEPS, read_words};
use crate::decide::reply_to;
use coherent_form::proved_task_follows;
use finite_model::countermodels_exclude_proofs;
use io_core::{Files, Sink};
use logic_core::{Bytes, World};
use model_search::MOST_SOUGHT;
use std::alloc::Global;

/// What the program prints where its words are no command.
const USAGE: &[u8] = b"44 Usage
check PROBLEM PROOF
prove PROBLEM MOST
export isar PROBLEM PROOF
export english PROBLEM PROOF
convert problem PROBLEM
convert vernacular PROBLEM PROOF
convert isar PROBLEM ISARTEXT
demo K
convert version2 PROBLEM PROOF
refute PROBLEM SIZE
confirm PROBLEM MODEL
";

/// The status for want of memory.
pub(crate) const OUT_OF_MEMORY: u8 = 71;

/// The status for a sink that failed.
const PUT_FAULT: u8 = 74;

/// Puts a whole answer to a sink: the status is the answer's, or 74 where the sink failed.
fn put_answer<S: Sink>(sink: &mut S, text: &[u8], status: u8) -> u8
    ensures { ((result ≡ status) × Puts (S.stream sink.old) (S.stream sink.new) text.now)
        ⊎ ((result ≡ PUT_FAULT) × Breaks (S.stream sink.old) (S.stream sink.new) text.now) }
{
    match sink.put(text) {
        Ok(()) => status,
        Err(_) => PUT_FAULT,
    }
}

/// Answers the words: decides what there is to say, and puts it to one sink.
fn answer<F: Files, O: Sink, E: Sink>(
    alloc: Global,
    words: &[Bytes],
    files: &mut F,
    out: &mut O,
    errs: &mut E,
) -> u8
    ensures outcome { Outcome words.now (F.known files.old) (F.known files.new)
        (sinks (O.stream out.old) (E.stream errs.old))
        (sinks (O.stream out.new) (E.stream errs.new)) result }
    ensures grows { Grows (F.known files.old) (F.known files.new) }
    ensures unasked { AsksNoFile words.now → F.known files.new ≡ F.known files.old }
{
    let Some(command) = read_words(words) else {
        return put_answer(errs, USAGE, 64);
    };
    match reply_to(alloc, words, command, files) {
        Ok(reply) => {
            if reply.is_output {
                put_answer(out, reply.text.as_slice(), reply.status)
            } else {
                put_answer(errs, reply.text.as_slice(), reply.status)
            }
        }
        Err(_) => OUT_OF_MEMORY,
    }
}

/// The program: it does what the words, those after the program's name, ask for, with these files
/// and these two sinks, and answers the status with which it ends. 0: the proof is accepted, and
/// printed where that is asked for, or a proof or a countermodel is found and printed, or the problem
/// is printed, or the structure is a countermodel. 1: the proof is not accepted, or there is no proof
/// or countermodel within the bound, or the structure is no countermodel. 2: a file or a formula of
/// the problem is refused. 3: the file of the proof or the model is refused. 64: the words are no
/// command. 66: a file could not be fetched. 71: want of memory. 74: the sink of the answer failed.
/// What is said of structures holds in each structure of every family `W`, which no code can look at.
pub fn run<W: World, F: Files, O: Sink, E: Sink>(
    alloc: Global,
    words: &[Bytes],
    files: &mut F,
    out: &mut O,
    errs: &mut E,
) -> u8
    // An accepted proof: the conjecture is true in each structure in which the axioms of the
    // problem are.
    ensures sound { (k : List ℕ) (problem proof : Text)
        → words.now ≡ codes "check" ∷ problem ∷ proof ∷ [] → result ≡ 0
        → ProblemFollows (structure (W.element k) (W.holds k) (W.place k))
        (F.known files.old) problem }
    // A proof that was sought: what is printed reads back as a script that is accepted as a proof
    // of the problem with the fewest rule applications of all, at most so many.
    ensures proved { (problem : Text) (most : ℕ) → most ≤ MOST_STEPS
        → words.now ≡ codes "prove" ∷ problem ∷ decimal most ∷ [] → result ≡ 0
        → SmallestPrinted (F.known files.old) problem most (O.stream out.old) (O.stream out.new) }
    // No proof of the problem has so many rule applications or fewer.
    ensures none { (problem : Text) (most : ℕ) → most ≤ MOST_STEPS
        → words.now ≡ codes "prove" ∷ problem ∷ decimal most ∷ [] → result ≡ 1
        → NoneTold (F.known files.old) problem most (O.stream out.old) (O.stream out.new) }
    // A converted problem: what is printed reads back as the formulas of the problem, so it is true
    // in the same structures.
    ensures printed { (problem : Text)
        → words.now ≡ codes "convert" ∷ codes "problem" ∷ problem ∷ [] → result ≡ 0
        → ProblemPrinted (F.known files.old) problem (O.stream out.old) (O.stream out.new) }
    // A converted proof: what is printed is its canonical text, and reads back as a script, of the
    // version that is asked for, which is accepted as the same body as the proof that was read.
    ensures rewritten { (edition : Edition) (problem proof : Text)
        → words.now ≡ codes "convert" ∷ edition_word edition ∷ problem ∷ proof ∷ [] → result ≡ 0
        → ProofPrinted Vernacular edition (F.known files.old) problem proof
        (O.stream out.old) (O.stream out.new) }
    // A converted Isar text: what is printed is the canonical text of the proof that it stands for.
    ensures from_isar { (problem text : Text)
        → words.now ≡ codes "convert" ∷ codes "isar" ∷ problem ∷ text ∷ [] → result ≡ 0
        → ProofPrinted Isar First (F.known files.old) problem text
        (O.stream out.old) (O.stream out.new) }
    // A proof exported in Isar: what is printed is the Isar text of a script that is accepted as the
    // same body as the proof that was read.
    ensures exported { (problem proof : Text)
        → words.now ≡ codes "export" ∷ codes "isar" ∷ problem ∷ proof ∷ [] → result ≡ 0
        → IsarPrinted (F.known files.old) problem proof (O.stream out.old) (O.stream out.new) }
    // A countermodel that was sought: what is printed is the canonical text of one with the fewest
    // elements, at most so many, and reads back as this one.
    ensures refuted { (problem : Text) (size : ℕ) → 1 ≤ size → size ≤ MOST_SOUGHT
        → words.now ≡ codes "refute" ∷ problem ∷ decimal size ∷ [] → result ≡ 0
        → LeastModelPrinted (F.known files.old) problem size (O.stream out.old) (O.stream out.new) }
    // No structure with so many elements or fewer is a countermodel of the problem.
    ensures none_sized { (problem : Text) (size : ℕ) → 1 ≤ size → size ≤ MOST_SOUGHT
        → words.now ≡ codes "refute" ∷ problem ∷ decimal size ∷ [] → result ≡ 1
        → NoModelTold (F.known files.old) problem size (O.stream out.old) (O.stream out.new) }
    // A countermodel that is confirmed: no body of any size is a proof of the problem's task.
    ensures confirmed { (problem model : Text)
        → words.now ≡ codes "confirm" ∷ problem ∷ model ∷ [] → result ≡ 0
        → ProblemRefuted (F.known files.old) problem }
    ensures outcome { Outcome words.now (F.known files.old) (F.known files.new)
        (sinks (O.stream out.old) (E.stream errs.old))
        (sinks (O.stream out.new) (E.stream errs.new)) result }
    // Where what is asked for is there, in its grammar and within its limits, and nothing outside
    // fails, the command is done or there is no such proof or countermodel, or memory ran out.
    ensures complete { (held : Held) (problem : Text) (aim : Aim) → Asks words.now problem aim
        → (looked_at words.now (F.known files.old)).held ≡ Some held
        → IsReadable (looked_at words.now (F.known files.old)) problem aim
        → NoFault (F.known files.old) (F.known files.new)
        (sinks (O.stream out.old) (E.stream errs.old))
        (sinks (O.stream out.new) (E.stream errs.new))
        → IsAmong result (0 ∷ 1 ∷ 71 ∷ []) }
    // Where besides there is such a proof or countermodel, the command is done, or memory ran out.
    ensures succeeds { (held : Held) (problem : Text) (aim : Aim) → Asks words.now problem aim
        → (looked_at words.now (F.known files.old)).held ≡ Some held
        → CanBeDone (looked_at words.now (F.known files.old)) problem aim
        → NoFault (F.known files.old) (F.known files.new)
        (sinks (O.stream out.old) (E.stream errs.old))
        (sinks (O.stream out.new) (E.stream errs.new))
        → IsAmong result (0 ∷ 71 ∷ []) }
    // Words that are no command and demonstrations ask for no file.
    ensures unasked { AsksNoFile words.now → F.known files.new ≡ F.known files.old }
    ensures no_fetch { AsksNoFile words.now → result ≢ 66 }
    ensures files_grow { Grows (F.known files.old) (F.known files.new) }
    ensures out_grows { (O.stream out.old).faults ≤ (O.stream out.new).faults }
    ensures errs_grow { (E.stream errs.old).faults ≤ (E.stream errs.new).faults }
    ensures usage_only { result ≡ 64 → command_of words.now ≡ None }
    ensures no_command { command_of words.now ≡ None → (result ≡ 64) ⊎ (result ≡ 74) }
    ensures fetch_fault { result ≡ 66 → Rose (F.known files.old).faults (F.known files.new).faults }
    ensures put_fault { result ≡ 74 → Rose (O.stream out.old).faults (O.stream out.new).faults
        ⊎ Rose (E.stream errs.old).faults (E.stream errs.new).faults }
    ensures out_of_memory { result ≡ 71
        → (O.stream out.new ≡ O.stream out.old) × (E.stream errs.new ≡ E.stream errs.old) }
    ensures statuses { IsAmong result (0 ∷ 1 ∷ 2 ∷ 3 ∷ 64 ∷ 66 ∷ 71 ∷ 74 ∷ []) }
{
    proved_task_follows::<W>();
    countermodels_exclude_proofs();
    answer(alloc, words, files, out, errs)
}
