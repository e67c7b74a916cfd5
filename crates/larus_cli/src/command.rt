ghost use Rattle.std.specs.Prelude.{◌≡◌, ◌≤◌, if◌then◌else◌, Some, None, codes};
ghost use Rattle.std.specs.Str.{bytes_eq};
ghost use Rattle.model_search.specs.declared.find.TheConstants.{MOST_SOUGHT};
ghost use Rattle.problem_suite.specs.declared.made.TheConstants.{MOST_IMPLICATIONS};
ghost use Rattle.larus_cli.specs.declared.command.Format.{Format};
ghost use Rattle.larus_cli.specs.declared.command.Wanted.{Wanted};
ghost use Rattle.larus_cli.specs.Numerals.{number_of};
ghost use Rattle.larus_cli.specs.Words.{command_of, export_of, conversion_of, search_within, demo_within, refute_within, wanted_of, format_of, to_print, to_prove, to_judge, to_refute, to_confirm, Asks};

use crate::number::read_number;
use logic_core::Bytes;
use model_search::MOST_SOUGHT;
use problem_suite::MOST_IMPLICATIONS;
use proof_text::Edition;

/// The greatest bound on the rule applications of a proof that is sought.
pub const MOST_STEPS: u32 = 200;

/// What the program is asked to do.
#[derive(Clone, Copy, PartialEq, Eq, Debug)]
pub enum Command {
    /// `check PROBLEM PROOF`: whether the proof is accepted as a proof of the problem.
    Check,
    /// `prove PROBLEM MOST`: a proof of the problem with the fewest rule applications of all, where
    /// one has at most so many, from 0 to `MOST_STEPS`.
    Prove(u32),
    /// `export isar PROBLEM PROOF`: the proof, where it is accepted, as an Isar text.
    ExportIsar,
    /// `export english PROBLEM PROOF`: the proof, where it is accepted, as an English text.
    ExportEnglish,
    /// `convert problem PROBLEM`: the problem with the files that it includes, in its canonical
    /// text.
    ConvertProblem,
    /// `convert vernacular PROBLEM PROOF`: the proof, where it is accepted, in the canonical text of
    /// version 1.
    ConvertVernacular,
    /// `convert isar PROBLEM ISARTEXT`: the proof in an Isar text, where it is accepted, in the
    /// canonical text of version 1.
    ConvertIsar,
    /// `convert version2 PROBLEM PROOF`: the proof, where it is accepted, in the canonical text of
    /// version 2.
    ConvertVersion2,
    /// `demo K`: whether the made proof for so many implications, from 1 to `MOST_IMPLICATIONS`, is
    /// accepted as a proof of the made problem.
    Demo(u32),
    /// `refute PROBLEM SIZE`: a countermodel of the problem with the fewest elements, where there is
    /// one with at most so many, from 1 to `MOST_SOUGHT`.
    Refute(u32),
    /// `confirm PROBLEM MODEL`: whether the finite structure is a countermodel of the problem.
    Confirm,
}

/// How a second file is read.
#[derive(Clone, Copy, Debug)]
pub enum Format {
    /// As a proof text of the vernacular.
    Vernacular,
    /// As an Isar text of the problem's task.
    Isar,
}

/// What is wanted of a proof that is accepted.
#[derive(Clone, Copy, Debug)]
pub enum Wanted {
    /// Its size.
    Size,
    /// The script of this version that stands for it.
    Script(Edition),
    /// Its Isar text.
    Isar,
    /// Its English text.
    English,
    /// Its size, as that of the made proof for so many implications, with the lengths of the made
    /// problem and of the made proof in bytes.
    Demo { k: u32, problem: u32, proof: u32 },
}

/// The command that the words after the program's name are, and `None` exactly where they are no
/// command. Fixed words are matched byte for byte, and any word is a file name. It takes no memory.
pub fn read_words(words: &[Bytes]) -> Option<Command>
    ensures { result ≡ command_of words.now }
{
    match words {
        [first, second] => {
            if first.as_slice() == b"demo".as_slice() {
                demonstration(second.as_slice())
            } else {
                None
            }
        }
        [first, second, third] => {
            if first.as_slice() == b"check".as_slice() {
                Some(Command::Check)
            } else if first.as_slice() == b"prove".as_slice() {
                search(third.as_slice())
            } else if first.as_slice() == b"convert".as_slice() {
                conversion(second.as_slice())
            } else if first.as_slice() == b"refute".as_slice() {
                refutation(third.as_slice())
            } else if first.as_slice() == b"confirm".as_slice() {
                Some(Command::Confirm)
            } else {
                None
            }
        }
        [first, second, _, _] => {
            if first.as_slice() == b"export".as_slice() {
                export(second.as_slice())
            } else if first.as_slice() == b"convert".as_slice() {
                proof_conversion(second.as_slice())
            } else {
                None
            }
        }
        _ => None,
    }
}

/// The command that seeks a proof within the bound that the word tells.
fn search(word: &[u8]) -> Option<Command>
    ensures { result ≡ search_within (number_of MOST_STEPS word.now) }
{
    match read_number(word, MOST_STEPS) {
        Some(most) => Some(Command::Prove(most)),
        None => None,
    }
}

/// The command that demonstrates so many implications as the word tells, one or more.
fn demonstration(word: &[u8]) -> Option<Command>
    ensures { result ≡ demo_within (number_of MOST_IMPLICATIONS word.now) }
{
    match read_number(word, MOST_IMPLICATIONS) {
        Some(0) => None,
        Some(k) => Some(Command::Demo(k)),
        None => None,
    }
}

/// The command that seeks a countermodel with at most so many elements as the word tells, one or
/// more.
fn refutation(word: &[u8]) -> Option<Command>
    ensures { result ≡ refute_within (number_of MOST_SOUGHT word.now) }
{
    match read_number(word, MOST_SOUGHT) {
        Some(0) | None => None,
        Some(size) => Some(Command::Refute(size)),
    }
}

/// The command that converts a problem, where the word names it.
fn conversion(word: &[u8]) -> Option<Command>
    ensures { result ≡ (if bytes_eq word.now (codes "problem")
        then Some Command.ConvertProblem else None) }
{
    if word == b"problem".as_slice() {
        Some(Command::ConvertProblem)
    } else {
        None
    }
}

/// The command that exports a proof in the form that the word names.
fn export(word: &[u8]) -> Option<Command>
    ensures { result ≡ export_of word.now }
{
    if word == b"isar".as_slice() {
        Some(Command::ExportIsar)
    } else if word == b"english".as_slice() {
        Some(Command::ExportEnglish)
    } else {
        None
    }
}

/// The command that converts a proof as the word names it.
fn proof_conversion(word: &[u8]) -> Option<Command>
    ensures { result ≡ conversion_of word.now }
{
    if word == b"vernacular".as_slice() {
        Some(Command::ConvertVernacular)
    } else if word == b"isar".as_slice() {
        Some(Command::ConvertIsar)
    } else if word == b"version2".as_slice() {
        Some(Command::ConvertVersion2)
    } else {
        None
    }
}

/// The names of the problem's and the second file in words that want something of the proof in it.
/// It is read as the words say.
pub(crate) fn file_names(words: &[Bytes]) -> (&[u8], &[u8])
    requires { (wanted : Wanted) × (wanted_of words.now ≡ Some wanted) }
    ensures { (wanted : Wanted) (format : Format) → wanted_of words.now ≡ Some wanted
        → format_of words.now ≡ format
        → Asks words.now result.0.now (to_judge wanted format result.1.now) }
{
    match words {
        [_, problem, second] => (problem.as_slice(), second.as_slice()),
        [_, _, problem, second] => (problem.as_slice(), second.as_slice()),
        _ => unreachable!(),
    }
}

/// The name of the problem's file in the words that seek a proof within a bound.
pub(crate) fn prove_name(words: &[Bytes], most: u32) -> &[u8]
    requires { command_of words.now ≡ Some (Command.Prove most) }
    ensures asks { Asks words.now result.now (to_prove most) }
    ensures few { most ≤ MOST_STEPS }
{
    match words {
        [_, problem, _] => problem.as_slice(),
        _ => unreachable!(),
    }
}

/// The name of the problem's file in the words of its conversion.
pub(crate) fn convert_name(words: &[Bytes]) -> &[u8]
    requires { command_of words.now ≡ Some Command.ConvertProblem }
    ensures { Asks words.now result.now to_print }
{
    match words {
        [_, _, problem] => problem.as_slice(),
        _ => unreachable!(),
    }
}

/// The name of the problem's file in the words that seek a countermodel with at most so many
/// elements.
pub(crate) fn refute_name(words: &[Bytes], size: u32) -> &[u8]
    requires { command_of words.now ≡ Some (Command.Refute size) }
    ensures asks { Asks words.now result.now (to_refute size) }
    ensures some { 1 ≤ size }
    ensures few { size ≤ MOST_SOUGHT }
{
    match words {
        [_, problem, _] => problem.as_slice(),
        _ => unreachable!(),
    }
}

/// The names of the problem's and the model's file in the words that confirm a countermodel.
pub(crate) fn confirm_names(words: &[Bytes]) -> (&[u8], &[u8])
    requires { command_of words.now ≡ Some Command.Confirm }
    ensures { Asks words.now result.0.now (to_confirm result.1.now) }
{
    match words {
        [_, problem, model] => (problem.as_slice(), model.as_slice()),
        _ => unreachable!(),
    }
}
