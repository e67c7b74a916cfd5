ghost use Rattle.std.specs.Prelude.{ℕ, ◌≡◌, ◌≢◌, Some, IfOk};
ghost use Rattle.io_core.specs.Fetched.{Grows};
ghost use Rattle.larus_cli.specs.Words.{command_of, wanted_of, format_of};
ghost use Rattle.larus_cli.specs.OwnFiles.{looked_at, AsksNoFile};
ghost use Rattle.larus_cli.specs.Outcome.{IsReply};
ghost use Rattle.larus_cli.specs.Reports.{Decides};

use crate::command::{
    Command, Format, Wanted, confirm_names, convert_name, file_names, prove_name, refute_name,
};
use crate::confirm::confirm;
use crate::demo::demonstrate;
use crate::judge::judge;
use crate::reading::{Halt, read_problem, read_task};
use crate::refute::refute;
use crate::reply::{Reply, reply_of};
use crate::report::Report;
use crate::search::prove_task;
use io_core::Files;
use logic_core::{Bytes, Memory};
use proof_text::Edition;
use std::alloc::Global;
use tptp_printer::print_problem;

/// What there is to say of the proof in a second file, read in this format, of which this is
/// wanted.
fn judge_files<F: Files>(
    alloc: Global,
    words: &[Bytes],
    wanted: Wanted,
    format: Format,
    files: &mut F,
) -> Result<Report, Halt>
    requires wants { wanted_of words.now ≡ Some wanted }
    requires reads { format_of words.now ≡ format }
    ensures decides { Decides words.now (F.known files.old) (F.known files.new) result }
    ensures grows { Grows (F.known files.old) (F.known files.new) }
{
    let (problem, second) = file_names(words);
    judge(alloc, wanted, format, files, problem, second)
}

/// What there is to say of a problem of which a proof within a bound is sought.
fn prove<F: Files>(alloc: Global, words: &[Bytes], most: u32, files: &mut F) -> Result<Report, Halt>
    requires { command_of words.now ≡ Some (Command.Prove most) }
    ensures decides { Decides words.now (F.known files.old) (F.known files.new) result }
    ensures grows { Grows (F.known files.old) (F.known files.new) }
{
    let problem = prove_name(words, most);
    let task = read_task(alloc, files, problem)?;
    prove_task(alloc, &task, most)
}

/// What there is to say of a problem that is to be printed.
fn convert_problem<F: Files>(alloc: Global, words: &[Bytes], files: &mut F) -> Result<Report, Halt>
    requires { command_of words.now ≡ Some Command.ConvertProblem }
    ensures decides { Decides words.now (F.known files.old) (F.known files.new) result }
    ensures grows { Grows (F.known files.old) (F.known files.new) }
{
    let problem = read_problem(alloc, files, convert_name(words))?;
    let text = print_problem(alloc, &problem)?;
    Ok(Report::Converted(text))
}

/// What there is to say of a problem of which a countermodel with few elements is sought.
fn refute_problem<F: Files>(
    alloc: Global,
    words: &[Bytes],
    size: u32,
    files: &mut F,
) -> Result<Report, Halt>
    requires { command_of words.now ≡ Some (Command.Refute size) }
    ensures decides { Decides words.now (F.known files.old) (F.known files.new) result }
    ensures grows { Grows (F.known files.old) (F.known files.new) }
{
    let problem = refute_name(words, size);
    refute(alloc, files, problem, size)
}

/// What there is to say of the structure in a second file, against a problem.
fn confirm_files<F: Files>(alloc: Global, words: &[Bytes], files: &mut F) -> Result<Report, Halt>
    requires { command_of words.now ≡ Some Command.Confirm }
    ensures decides { Decides words.now (F.known files.old) (F.known files.new) result }
    ensures grows { Grows (F.known files.old) (F.known files.new) }
{
    let (problem, model) = confirm_names(words);
    confirm(alloc, files, problem, model)
}

/// What there is to say to words that are a command on files.
fn decide_files<F: Files>(
    alloc: Global,
    words: &[Bytes],
    command: Command,
    files: &mut F,
) -> Result<Report, Halt>
    requires is { command_of words.now ≡ Some command }
    requires named { (k : ℕ) → command ≢ Command.Demo k }
    ensures decides { Decides words.now (F.known files.old) (F.known files.new) result }
    ensures grows { Grows (F.known files.old) (F.known files.new) }
{
    match command {
        Command::Check => judge_files(alloc, words, Wanted::Size, Format::Vernacular, files),
        Command::Prove(most) => prove(alloc, words, most, files),
        Command::ExportIsar => {
            judge_files(alloc, words, Wanted::Isar, Format::Vernacular, files)
        }
        Command::ExportEnglish => {
            judge_files(alloc, words, Wanted::English, Format::Vernacular, files)
        }
        Command::ConvertProblem => convert_problem(alloc, words, files),
        Command::ConvertVernacular => judge_files(
            alloc,
            words,
            Wanted::Script(Edition::First),
            Format::Vernacular,
            files,
        ),
        Command::ConvertIsar => judge_files(
            alloc,
            words,
            Wanted::Script(Edition::First),
            Format::Isar,
            files,
        ),
        Command::ConvertVersion2 => judge_files(
            alloc,
            words,
            Wanted::Script(Edition::Second),
            Format::Vernacular,
            files,
        ),
        Command::Demo(_) => unreachable!(),
        Command::Refute(size) => refute_problem(alloc, words, size, files),
        Command::Confirm => confirm_files(alloc, words, files),
    }
}

/// What there is to say to words that are a command.
fn decide<F: Files>(
    alloc: Global,
    words: &[Bytes],
    command: Command,
    files: &mut F,
) -> Result<Report, Halt>
    requires { command_of words.now ≡ Some command }
    ensures decides { Decides words.now (looked_at words.now (F.known files.old))
        (looked_at words.now (F.known files.new)) result }
    ensures grows { Grows (F.known files.old) (F.known files.new) }
    ensures unasked { AsksNoFile words.now → F.known files.new ≡ F.known files.old }
{
    match command {
        Command::Demo(k) => demonstrate(alloc, k),
        _ => decide_files(alloc, words, command, files),
    }
}

/// The reply to words that are a command; `Memory` is want of memory.
pub(crate) fn reply_to<F: Files>(
    alloc: Global,
    words: &[Bytes],
    command: Command,
    files: &mut F,
) -> Result<Reply, Memory>
    requires { command_of words.now ≡ Some command }
    ensures answer { IfOk result (λ reply. IsReply words.now (F.known files.old)
        (F.known files.new) reply.is_output reply.text reply.status) }
    ensures grows { Grows (F.known files.old) (F.known files.new) }
    ensures unasked { AsksNoFile words.now → F.known files.new ≡ F.known files.old }
{
    match decide(alloc, words, command, files) {
        Ok(report) => reply_of(alloc, report),
        Err(Halt::Said(report)) => reply_of(alloc, report),
        Err(Halt::Memory) => Err(Memory),
    }
}
