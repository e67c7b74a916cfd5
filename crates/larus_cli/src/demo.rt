ghost use Rattle.std.specs.Prelude.{◌≡◌, ◌≤◌, length, Some, IfSome, IfOk, refl, List as Lst};
ghost use Rattle.std.specs.FinMap as finite;
ghost use Rattle.text_core.specs.Names.{Text};
ghost use Rattle.problem_suite.specs.declared.made.TheConstants.{MOST_IMPLICATIONS};
ghost use Rattle.problem_suite.specs.MadeTexts.{made_problem_text, made_proof_text};
ghost use Rattle.larus_cli.specs.declared.command.Format.TheVariants.{Vernacular};
ghost use Rattle.larus_cli.specs.Words.{to_judge, demo_problem, demo_proof, demo_wanted, Asks};
ghost use Rattle.larus_cli.specs.OwnFiles.{two_held, two_files, made_files};
ghost use Rattle.larus_cli.specs.Reports.{Decides};

use crate::command::{Format, Wanted};
use crate::judge::judge;
use crate::reading::Halt;
use crate::report::Report;
use io_core::{FetchFault, Files};
use logic_core::{Bytes, Memory};
use problem_suite::{MOST_IMPLICATIONS, made_problem, made_proof};
use std::alloc::Global;
use text_core::MOST_FILE_BYTES;

/// The name of the made problem.
const PROBLEM: &[u8] = b"demo.p";

/// The name of the made proof.
const PROOF: &[u8] = b"demo.v";

/// A made problem and its made proof, as files. No call reaches the outside, so none ever fails.
#[derive(Debug, Drop)]
pub(crate) struct MadeFiles {
    problem: Bytes,
    proof: Bytes,
}

impl MadeFiles {
    /// The problem and the proof for so many implications. `Memory` is want of memory.
    fn new(alloc: Global, k: u32) -> Result<MadeFiles, Memory>
        requires some { 1 ≤ k }
        requires most { k ≤ MOST_IMPLICATIONS }
        ensures problem { IfOk result (λ made. made.problem ≡ made_problem_text k) }
        ensures proof { IfOk result (λ made. made.proof ≡ made_proof_text k) }
        ensures problem_fits { IfOk result (λ made. length made.problem ≤ MOST_FILE_BYTES) }
        ensures proof_fits { IfOk result (λ made. length made.proof ≤ MOST_FILE_BYTES) }
    {
        let problem = made_problem(alloc, k)?;
        let proof = made_proof(alloc, k)?;
        Ok(MadeFiles { problem, proof })
    }

    /// The text with this name.
    fn text(&self, name: &[u8]) -> Option<&[u8]>
        ensures { IfSome result (λ text. finite.get (two_held self.now.problem self.now.proof) name.now
            ≡ Some text.now) }
    {
        if name == PROOF {
            Some(self.proof.as_slice())
        } else if name == PROBLEM {
            Some(self.problem.as_slice())
        } else {
            None
        }
    }
}

impl Files for MadeFiles {
    ghost known = { λ made. two_files made.problem made.proof };

    /// As `Files` says. It answers `Memory` for any other name, and where fewer bytes are asked for
    /// than the text has; no made text asks for either.
    fn fetch(
        &mut self,
        _alloc: Global,
        name: &[u8],
        most: u32,
        into: &mut Bytes,
    ) -> Result<(), FetchFault> {
        match self.text(name) {
            Some(text) if text.len() <= most as usize => {
                into.extend_from_slice(text)?;
                Ok(())
            }
            _ => Err(FetchFault::Memory),
        }
    }

    ghost told = { λ _. refl };
}

/// What there is to say of the made proof for so many implications, as a proof of the made problem.
pub(crate) fn demonstrate(alloc: Global, k: u32) -> Result<Report, Halt>
    requires some { 1 ≤ k }
    requires most { k ≤ MOST_IMPLICATIONS }
    ensures { (words : Lst Text) → Asks words demo_problem (to_judge (demo_wanted k) Vernacular demo_proof)
        → Decides words (made_files k) (made_files k) result }
{
    let mut made = MadeFiles::new(alloc, k)?;
    let wanted = Wanted::Demo {
        k,
        problem: made.problem.len() as u32,
        proof: made.proof.len() as u32,
    };
    judge(alloc, wanted, Format::Vernacular, &mut made, PROBLEM, PROOF)
}
