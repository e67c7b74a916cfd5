ghost use Rattle.std.specs.Prelude.{◌≡◌, Some, slice_get, length, IfOk, IsTrue};
ghost use Rattle.isar_text.specs.Effects as spec;
ghost use Rattle.isar_text.specs.Grammar as grammar;
ghost use Rattle.isar_text.specs.Marks.{marked};

use crate::mark::Token;
use crate::part::{IsarPart, Rule, Taker};
use crate::token_list::IsarTokens;
use proof_text::{BodyText, Counting, Pass, ScriptBuilder};
use std::alloc::Global;
use text_core::Memory;
use token_grammar::Builder;

/// Builds the body of a script while its text is read.
#[derive(Debug, Drop)]
pub struct IsarBuilder {
    alloc: Global,
    script: ScriptBuilder,
}

impl IsarBuilder {
    /// A builder that has read nothing.
    pub(crate) fn new(alloc: Global) -> IsarBuilder {
        IsarBuilder {
            alloc,
            script: ScriptBuilder::new(alloc),
        }
    }

    /// The body that was read.
    pub(crate) fn into_body(self) -> BodyText
        ensures { result ≡ self.script.body }
    {
        self.script.into_body()
    }
}

impl<'a> Builder<IsarPart, IsarTokens<'a>> for IsarBuilder {
    ghost use Rattle.std.proofs.Common.{refl};
    ghost use Rattle.proof_text.specs.declared.builder.ScriptBuilder.{ScriptBuilder};
    ghost use Rattle.isar_text.specs.Grammar.{isar_rests};
    ghost use Rattle.isar_text.specs.Values.{Value, isar_making};
    ghost use Rattle.isar_text.specs.Effects.{acts, passes, effect};
    ghost use Rattle.isar_text.specs.EffectsLaw.{isar_building};

    ghost grammar = { isar_rests };

    ghost Value = { Value };

    ghost making = { isar_making };

    ghost Built = { ScriptBuilder };

    ghost built = { λ builder. builder.script };

    ghost takes = { acts };

    ghost passes = { passes };

    ghost effect = { effect };

    ghost Watched = { λ part token. Unit {0} };

    fn take(
        &mut self,
        tokens: &IsarTokens<'a>,
        number: usize,
        part: IsarPart,
        token: Token,
    ) -> Result<(), Memory>
        requires at { slice_get (marked (length tokens.now.task.forms) tokens.now.tokens) number ≡
            Some token }
        requires taken { IsTrue (grammar.takes part token) }
        ensures { IfOk result (λ _. self.new.script ≡
            spec.acts tokens.now part token self.old.script) }
    {
        match part {
            IsarPart::Taken(Taker::Fixed(_, act)) => self.script.act(act),
            IsarPart::Taken(Taker::Name(naming)) => {
                let name = tokens.name(self.alloc, number, token)?;
                self.script.read_name(naming, name)
            }
            IsarPart::Taken(Taker::Form) => {
                let cite = tokens.cite(self.alloc, number, token)?;
                self.script.set_cite(cite);
                Ok(())
            }
            IsarPart::Taken(Taker::SplitLine(_)) => {
                self.script.read_number(Counting::Line, token.mark.number());
                Ok(())
            }
            IsarPart::Taken(Taker::Disjunct) => {
                self.script
                    .read_number(Counting::Disjunct, token.mark.number());
                Ok(())
            }
            _ => Ok(()),
        }
    }

    fn pass(&mut self, part: IsarPart) -> Result<(), Memory>
        ensures { IfOk result (λ _. self.new.script ≡ spec.passes part self.old.script) }
    {
        match part {
            IsarPart::Row(Rule::AfterTrue | Rule::AfterAtom) => {
                self.script.do_pass(Pass::ShowFacts)
            }
            IsarPart::Row(Rule::Bars) => self.script.do_pass(Pass::ShowCases),
            IsarPart::Row(Rule::MoreAtoms) => self.script.do_pass(Pass::KeepAtoms),
            IsarPart::Row(Rule::AfterName) => self.script.do_pass(Pass::AddPlain),
            IsarPart::Row(Rule::AfterNegated) => self.script.do_pass(Pass::AddPlainNegated),
            IsarPart::Row(Rule::MoreCases(_)) => self.script.do_pass(Pass::KeepCases),
            IsarPart::Row(Rule::Acts(act)) => self.script.act(act),
            IsarPart::Row(Rule::Does(pass)) => self.script.do_pass(pass),
            _ => Ok(()),
        }
    }

    ghost reads = { refl };

    ghost watches = { λ before after part token sees. tt };

    ghost building = { isar_building };
}
