ghost use Rattle.std.specs.Prelude.{◌≡◌, ◌++◌, reverse, IfOk, MatchResult};
ghost use Rattle.token_grammar.specs.Grammar.{Grammar};
ghost use Rattle.token_grammar.specs.Plan.{Plan, IsPredictive, is_nullable};
ghost use Rattle.token_grammar.specs.Watch.{Watcher, IsDecided};
ghost use Rattle.token_grammar.specs.Step.{Steps, IsExpand};

use text_core::Memory;

/// What the machine does with the part on top of its stack at a token.
#[derive(Debug, Drop)]
pub enum Step {
    /// The part takes the token.
    Take,
    /// The part's chosen alternative was pushed in its place.
    Expand,
    /// The part can do nothing with the token.
    Refuse,
}

/// A part of a grammar, with the grammar, the plan by which it is read, and the watcher that looks
/// at each taken token.
pub trait Part: Copy {
    /// What the machine sees of a token.
    type Token: Copy;
    /// What the watcher keeps.
    type Watch;
    /// What the watcher may find.
    type Fault: Copy;

    ghost grammar: { Grammar Self Self.Token };

    ghost plan: { Plan Self Self.Token };

    ghost Seen: { Type 0 };

    ghost seen: { Self.Watch → Seen };

    ghost watcher: { Watcher Self Self.Token Seen Self.Fault };

    /// Whether the part may stand for no tokens.
    fn may_be_empty(self) -> bool
        ensures { result ≡ is_nullable grammar self };

    /// Takes the token, or pushes the alternative that the token asks for, or refuses.
    fn step(self, token: Self::Token, stack: &mut Vec<Self>) -> Result<Step, Memory>
        ensures { IfOk result (λ step.
            Steps grammar plan self token stack.old.items stack.new.items step) };

    /// Shows the watcher a token that the part took. The inner error is the fault that it finds.
    fn note(
        self,
        token: Self::Token,
        watch: &mut Self::Watch,
    ) -> Result<Result<(), Self::Fault>, Memory>
        ensures { IfOk result (λ outcome. MatchResult outcome
            (λ _. watcher.sees (seen watch.old) self token (seen watch.new))
            (λ fault. watcher.faults (seen watch.old) self token fault)) };

    ghost predictive: { IsPredictive grammar plan };

    ghost decided: { IsDecided watcher };
}

/// Pushes the row so that its first member is on top.
pub fn expand<P: Copy>(stack: &mut Vec<P>, row: &[P]) -> Result<Step, Memory>
    ensures { IfOk result (λ step. IsExpand step row.now stack.old.items stack.new.items) }
{
    stack.reserve(row.len())?;
    for number in (0..row.len()).rev() {
        stack.push_reserved(row[number]);
    }
    Ok(Step::Expand)
}
