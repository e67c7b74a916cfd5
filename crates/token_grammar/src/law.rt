ghost use Rattle.std.specs.Prelude.{◌≡◌, ◌↔◌, Bool, true, false, List, [], ◌∷◌, ◌++◌, Result};
ghost use Rattle.token_grammar.specs.Grammar.{IsText, BeginsText};
ghost use Rattle.token_grammar.specs.Taken.{Taken};
ghost use Rattle.token_grammar.specs.SpelledAs.{SpelledAs};
ghost use Rattle.token_grammar.specs.Building.{IsBuilding};
ghost use Rattle.token_grammar.specs.Answers.{IsAccepted, IsAnswer, AreOne};
ghost use Rattle.token_grammar.specs.Answered.{HasAnswer};
ghost use Rattle.token_grammar.specs.declared.refusal.Refusal.{Refusal};

use crate::builder::Builder;
use crate::factored::Factored;
use crate::part::Part;
use crate::source::Source;

/// The answers exclude each other: two answers for the same tokens are one answer, number, last
/// part and fault included, where neither is want of memory.
pub fn answers_agree<P: Part>()
    ensures { (start : P) (before a b : P.Seen) (ts : List P.Token)
        (first second : Result (Unit {0}) (Refusal P P.Fault)) →
        IsAnswer P.grammar P.watcher start before ts a first →
        IsAnswer P.grammar P.watcher start before ts b second → AreOne first second }
{}

/// The tokens are a text exactly where parts take them from left to right up to the end, and they
/// begin a text exactly where parts take them from left to right.
pub fn texts_are_taken<P: Part>()
    ensures texts { (start : P) (ts : List P.Token) →
        IsText P.grammar start ts ↔
        ((takers : List P) × Taken P.grammar true (start ∷ []) ts takers) }
    ensures beginnings { (start : P) (ts : List P.Token) →
        BeginsText P.grammar start ts ↔
        ((takers : List P) × Taken P.grammar false (start ∷ []) ts takers) }
{}

/// Which part takes which token is settled by the tokens.
pub fn takers_agree<P: Part>()
    ensures { (start : P) (whole other : Bool) (ts : List P.Token) (takers others : List P) →
        Taken P.grammar whole (start ∷ []) ts takers →
        Taken P.grammar other (start ∷ []) ts others → takers ≡ others }
{}

/// A text begins a text, and so do the first tokens of what begins one.
pub fn fronts_begin<P: Part>()
    ensures whole { (start : P) (ts : List P.Token) →
        IsText P.grammar start ts → BeginsText P.grammar start ts }
    ensures fronts { (start : P) (front back : List P.Token) →
        BeginsText P.grammar start (front ++ back) → BeginsText P.grammar start front }
{}

/// The tokens are a text exactly where some value of the start part spells them, and no two values
/// spell the same tokens.
pub fn texts_have_one_value<P: Part, S: Source<P::Token>, B: Builder<P, S>>()
    ensures some { (tokens : S) (start : P) (ts : List P.Token) →
        IsText P.grammar start ts ↔
        ((value : B.Value start) × SpelledAs B.grammar B.Value (B.making tokens) start value ts) }
    ensures one { (tokens : S) (start : P) (ts : List P.Token) (first second : B.Value start) →
        SpelledAs B.grammar B.Value (B.making tokens) start first ts →
        SpelledAs B.grammar B.Value (B.making tokens) start second ts → first ≡ second }
{}

/// What a watcher has seen of a text is told by the text's value: where it goes on as `looks` says,
/// and that comes to one `effect` of each part's value, it ends at the effect of the whole value.
pub fn seen_is_told<P: Part, S: Source<P::Token>, B: Builder<P, S>>()
    ensures { (tokens : S) (looks : P → P.Token → P.Seen → P.Seen)
        (effect : (p : P) → B.Value p → P.Seen → P.Seen) →
        ((before after : P.Seen) (p : P) (t : P.Token) → P.watcher.sees before p t after →
        after ≡ looks p t before) →
        IsBuilding B.grammar B.Value (B.making tokens) looks (λ p seen. seen) effect →
        (start : P) (before after : P.Seen) (ts : List P.Token) (value : B.Value start) →
        IsAccepted P.grammar P.watcher start before ts after →
        SpelledAs B.grammar B.Value (B.making tokens) start value ts →
        after ≡ effect start value before }
{}

/// The factored grammar spells and begins the same tokens as the printed one.
pub fn factored_agrees<F: Factored>()
    ensures texts { (ts : List F.Token) →
        IsText F.printed F.printed_start ts ↔ IsText F.grammar F.start ts }
    ensures beginnings { (ts : List F.Token) →
        BeginsText F.printed F.printed_start ts ↔ BeginsText F.grammar F.start ts }
{}

/// Each list of tokens has an answer: it is a text in which the watcher finds no fault, or a token
/// or the end is refused.
pub fn tokens_have_answers<P: Part>()
    ensures { (start : P) (before : P.Seen) (ts : List P.Token) →
        HasAnswer P.grammar P.watcher start before ts }
{}
