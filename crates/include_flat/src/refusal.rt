ghost use Rattle.std.specs.Prelude.{◌≡◌};
ghost use Rattle.include_flat.specs.declared.refusal.FlatWhy.TheVariants as whys;
ghost use Rattle.include_flat.specs.Opened.{fetch_why, lex_why, syntax_why};
ghost use Rattle.include_flat.specs.Progress.{refused_file};

use io_core::FetchFault;
use logic_core::{Bytes, Memory};
use std::alloc::Global;
use tptp_grammar::SyntaxRefusal;
use tptp_lexer::LexRefusal;

/// Why a problem's files are refused, and the file that is. Want of memory comes with an empty
/// file.
#[derive(Debug, Drop)]
pub struct FlatRefusal {
    pub file: Bytes,
    pub why: FlatWhy,
}

/// Why a file is refused.
#[derive(Debug, Drop)]
pub enum FlatWhy {
    /// It has no tokens. The refusal is none for want of memory.
    Lex(LexRefusal),
    /// Its tokens are no text of items. The refusal is none for want of memory.
    Syntax(SyntaxRefusal),
    /// It could not be fetched.
    FileFault,
    /// It has more than `MOST_FILE_BYTES` bytes.
    FileTooLong,
    /// With it the files have more than `MOST_PROBLEM_BYTES` bytes, each fetch counted.
    AllTooLong,
    /// It would be one more than `MOST_FILES` files that are included one in another.
    IncludeDepth,
    /// With a formula in it more than `MOST_FORMULAS` would be kept.
    TooManyFormulas,
    /// Memory ran out.
    Memory,
}

impl FlatRefusal {
    /// The refusal of a file for this reason, of no file for want of memory. It takes no memory.
    pub(crate) fn of(alloc: Global, file: Bytes, why: FlatWhy) -> FlatRefusal
        ensures file { result.file ≡ refused_file file why }
        ensures why { result.why ≡ why }
    {
        match why {
            FlatWhy::Memory => FlatRefusal {
                file: Bytes::new(alloc),
                why: FlatWhy::Memory,
            },
            why => FlatRefusal { file, why },
        }
    }
}

impl From<Memory> for FlatWhy {
    ghost from_gives = { λ _ e. e ≡ whys.Memory };

    fn from(_memory: Memory) -> FlatWhy {
        FlatWhy::Memory
    }
}

impl From<FetchFault> for FlatWhy {
    ghost from_gives = { λ fault e. e ≡ fetch_why fault };

    fn from(fault: FetchFault) -> FlatWhy {
        match fault {
            FetchFault::Failed => FlatWhy::FileFault,
            FetchFault::TooLong => FlatWhy::FileTooLong,
            FetchFault::Memory => FlatWhy::Memory,
        }
    }
}

impl From<LexRefusal> for FlatWhy {
    ghost from_gives = { λ refusal e. e ≡ lex_why refusal };

    fn from(refusal: LexRefusal) -> FlatWhy {
        match refusal {
            LexRefusal::Memory => FlatWhy::Memory,
            refusal => FlatWhy::Lex(refusal),
        }
    }
}

impl From<SyntaxRefusal> for FlatWhy {
    ghost from_gives = { λ refusal e. e ≡ syntax_why refusal };

    fn from(refusal: SyntaxRefusal) -> FlatWhy {
        match refusal {
            SyntaxRefusal::Memory => FlatWhy::Memory,
            refusal => FlatWhy::Syntax(refusal),
        }
    }
}
