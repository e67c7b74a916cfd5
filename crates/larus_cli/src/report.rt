use coherent_form::TaskRefusal;
use finite_model::{ConfirmRefusal, ModelRefusal};
use include_flat::FlatRefusal;
use isar_text::IsarRefusal;
use logic_core::Bytes;
use proof_checker::StepRefusal;
use proof_text::ScriptRefusal;

/// Why a proof's file is refused, and its name.
#[derive(Debug, Drop)]
pub struct ProofRefusal {
    pub file: Bytes,
    pub why: ProofWhy,
}

/// Why a proof's file is refused.
#[derive(Debug, Drop)]
pub enum ProofWhy {
    /// It has more than `MOST_FILE_BYTES` bytes.
    FileTooLong,
    /// Its bytes spell no script.
    Script(ScriptRefusal),
    /// Its bytes are no Isar text of the problem's task.
    Isar(IsarRefusal),
}

/// What there is to say of a problem, or of a problem and a proof or a structure. Files are told by
/// the names by which they were asked for.
#[derive(Debug, Drop)]
pub enum Report {
    /// The proof is accepted, with so many rule applications.
    Accepted(u32),
    /// A step of the proof is refused.
    Refused(StepRefusal),
    /// The canonical text of the problem, of a script that stands for the proof, or of a
    /// countermodel, or the proof's Isar or English text.
    Converted(Bytes),
    /// No proof of the problem has so many rule applications or fewer, or no countermodel of it so
    /// many elements or fewer.
    NoneUpTo(u32),
    /// The made proof for so many implications is accepted, with so many rule applications; the made
    /// problem and the made proof have so many bytes.
    Demo {
        k: u32,
        problem: u32,
        proof: u32,
        size: u32,
    },
    /// This file could not be fetched.
    FileFault(Bytes),
    /// A file of the problem is refused, for another reason than a fetch that failed.
    ProblemFile(FlatRefusal),
    /// A formula of the problem is refused.
    ProblemFormula(TaskRefusal),
    /// The proof's file is refused, for another reason than a fetch that failed, or the model's file
    /// has too many bytes.
    ProofFile(ProofRefusal),
    /// The bytes of the model's file with this name spell no structure.
    ModelFile(Bytes, ModelRefusal),
    /// The structure is a countermodel of the problem, with so many elements.
    Countermodel(u32),
    /// The structure is no countermodel of the problem.
    Confirm(ConfirmRefusal),
}
