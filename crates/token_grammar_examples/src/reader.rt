ghost use Rattle.std.specs.Prelude.{◌≡◌, ◌≤◌, ◌↔◌, IfOk, IfErr};
ghost use Rattle.token_grammar.specs.Grammar.{IsText};
ghost use Rattle.token_grammar.specs.SpelledAs.{SpelledAs};
ghost use Rattle.token_grammar.specs.Answers.{IsRefused};
ghost use Rattle.token_grammar_examples.specs.declared.expression.Expression.{Expression};
ghost use Rattle.token_grammar_examples.specs.declared.watch.Count.{Count};
ghost use Rattle.token_grammar_examples.specs.declared.watch.TheConstants.{MOST_PIECES};
ghost use Rattle.token_grammar_examples.specs.declared.symbol.Symbol.TheVariants.{Row as row};
ghost use Rattle.token_grammar_examples.specs.declared.symbol.Rule.TheVariants.{Whole as whole};
ghost use Rattle.token_grammar_examples.specs.Grammar.{expressions};
ghost use Rattle.token_grammar_examples.specs.Values.{Value, expression_making};
ghost use Rattle.token_grammar_examples.specs.Watching.{expression_watcher, nothing_seen};
ghost use Rattle.token_grammar_examples.specs.Pieces.{pieces_in};

use crate::builder::ExpressionBuilder;
use crate::expression::Expression;
use crate::mark::Mark;
use crate::symbol::Rule::Whole;
use crate::symbol::Symbol::{self, Row};
use crate::watch::{Count, Fault};
use std::alloc::Global;
use token_grammar::{Refusal, build, seen_is_told, texts_have_one_value};

/// Reads the tokens as an expression. `Stopped` at the first number or row that is one too many or
/// too deep.
pub fn read_expression(
    alloc: Global,
    tokens: &Vec<Mark>,
) -> Result<Expression, Refusal<Symbol, Fault>>
    ensures read { IfOk result (λ expression.
        SpelledAs expressions Value expression_making (row whole) expression tokens.now.items) }
    ensures bounded { IfOk result (λ expression. pieces_in expression ≤ MOST_PIECES) }
    ensures refused { IfErr result (λ refusal. (seen : Count) × IsRefused expressions
        expression_watcher (row whole) nothing_seen tokens.now.items seen refusal) }
{
    seen_is_told::<Symbol, Vec<Mark>, ExpressionBuilder>();
    let mut count = Count {
        pieces: 0,
        level: 0,
    };
    let mut builder = ExpressionBuilder::new(alloc);
    build(alloc, Row(Whole), tokens, &mut count, &mut builder)?;
    Ok(builder.into_expression())
}

/// The tokens are an expression exactly where some value spells them, and no two values spell them.
pub fn expressions_have_one_value(tokens: &Vec<Mark>)
    ensures some { IsText expressions (row whole) tokens.now.items ↔
        ((value : Expression) ×
        SpelledAs expressions Value expression_making (row whole) value tokens.now.items) }
    ensures one { (first second : Expression) →
        SpelledAs expressions Value expression_making (row whole) first tokens.now.items →
        SpelledAs expressions Value expression_making (row whole) second tokens.now.items →
        first ≡ second }
{
    texts_have_one_value::<Symbol, Vec<Mark>, ExpressionBuilder>();
}
