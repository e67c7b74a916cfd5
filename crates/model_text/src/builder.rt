ghost use Rattle.std.specs.Prelude.{◌≡◌, ◌<◌, length, slice_get, Some, None, IfOk, IsTrue};
ghost use Rattle.text_core.specs.Names.{Text};
ghost use Rattle.model_text.specs.Effects as spec;
ghost use Rattle.model_text.specs.Grammar.{is_word};
ghost use Rattle.model_text.specs.Marks.{marked};
ghost use Rattle.model_text.specs.Structures.{IsSound};
ghost use Rattle.model_text.specs.Values.{name_in};
ghost use Rattle.model_text.specs.Words.{names_in};

use crate::mark::Mark;
use crate::part::ModelPart::{self, Row, Taken};
use crate::part::Rule::{Facts, Places};
use crate::part::Taker::{Argument, Constant, Element, EndFact, Predicate, Size};
use crate::structure::{Fact, Model, Place};
use crate::word_tokens::WordTokens;
use std::alloc::Global;
use std::mem::replace;
use text_core::{List, Memory, Name};
use token_grammar::Builder;

/// Builds a structure while its text is read.
#[derive(Debug, Drop)]
pub struct ModelBuilder {
    alloc: Global,
    // The size, the places and the facts so far.
    size: u32,
    places: List<Place>,
    facts: List<Fact>,
    // The constant or the predicate of the sentence that is open, and the arguments of its fact.
    named: Option<Name>,
    arguments: List<u32>,
}

impl ModelBuilder {
    /// A builder of a structure; so far it has nothing.
    pub fn new(alloc: Global) -> ModelBuilder
        ensures { spec.held_in result ≡ spec.nothing_held }
    {
        ModelBuilder {
            alloc,
            size: 0,
            places: List::new(alloc),
            facts: List::new(alloc),
            named: None,
            arguments: List::new(alloc),
        }
    }

    /// The structure that was read.
    pub fn into_model(self) -> Model
        requires { IsSound (spec.held_in self) }
        ensures { result ≡ spec.held_in self }
    {
        Model::new(self.size, self.places, self.facts)
    }

    fn keep_name(&mut self, name: Name) -> Result<(), Memory>
        ensures { IfOk result (λ _. self.new ≡ spec.named_so name self.old) }
    {
        self.named = Some(name);
        Ok(())
    }

    fn add_place(&mut self, element: u32) -> Result<(), Memory>
        ensures { IfOk result (λ _. self.new ≡ spec.placed_as self.old.named element self.old) }
    {
        match replace(&mut self.named, None) {
            Some(constant) => self.places.push(Place { constant, element }),
            None => Ok(()),
        }
    }

    fn begin_fact(&mut self, name: Name) -> Result<(), Memory>
        ensures { IfOk result (λ _. self.new ≡ spec.fact_begun name self.old) }
    {
        self.named = Some(name);
        self.arguments = List::new(self.alloc);
        Ok(())
    }

    fn add_argument(&mut self, argument: u32) -> Result<(), Memory>
        ensures { IfOk result (λ _. self.new ≡ spec.argument_added argument self.old) }
    {
        self.arguments.push(argument)
    }

    fn end_fact(&mut self) -> Result<(), Memory>
        ensures { IfOk result (λ _. self.new ≡ spec.fact_ended self.old.named self.old) }
    {
        let arguments = replace(&mut self.arguments, List::new(self.alloc));
        match replace(&mut self.named, None) {
            Some(predicate) => self.facts.push(Fact {
                predicate,
                arguments,
            }),
            None => Ok(()),
        }
    }
}

// The name of the word that the token of this number is.
fn name_at(
    alloc: Global,
    tokens: &WordTokens<'_, '_>,
    number: usize,
    token: Mark,
) -> Result<Name, Memory>
    requires at { slice_get (marked tokens.now) number ≡ Some token }
    requires word { IsTrue (is_word token) }
    ensures { IfOk result (λ name. name ≡ name_in (names_in tokens.now) token) }
{
    tokens.name(alloc, token.word())
}

impl<'t, 'a> Builder<ModelPart, WordTokens<'t, 'a>> for ModelBuilder {
    ghost use Rattle.std.proofs.Common.{refl};
    ghost use Rattle.model_text.specs.Words.{names_in};
    ghost use Rattle.model_text.specs.Grammar.{models};
    ghost use Rattle.model_text.specs.Values.{Value, model_making};
    ghost use Rattle.model_text.specs.declared.builder.ModelBuilder.{ModelBuilder};
    ghost use Rattle.model_text.specs.Effects.{acts, passes, effect};
    ghost use Rattle.model_text.specs.EffectsLaw.{model_building};

    ghost grammar = { models };

    ghost Value = { Value };

    ghost making = { λ tokens. model_making tokens };

    ghost Built = { ModelBuilder };

    ghost built = { λ builder. builder };

    ghost takes = { λ tokens. acts (names_in tokens) };

    ghost passes = { passes };

    ghost effect = { λ tokens. effect (names_in tokens) };

    ghost Watched = { λ part token. Unit {0} };

    fn take(
        &mut self,
        tokens: &WordTokens<'t, 'a>,
        number: usize,
        part: ModelPart,
        token: Mark,
    ) -> Result<(), Memory> {
        match part {
            Taken(Size) => {
                self.size = token.number();
                Ok(())
            }
            Taken(Constant) => self.keep_name(name_at(self.alloc, tokens, number, token)?),
            Taken(Element) => self.add_place(token.number()),
            Taken(Predicate) => self.begin_fact(name_at(self.alloc, tokens, number, token)?),
            Taken(Argument) => self.add_argument(token.number()),
            Taken(EndFact) => self.end_fact(),
            _ => Ok(()),
        }
    }

    fn pass(&mut self, part: ModelPart) -> Result<(), Memory> {
        match part {
            Row(Places) => {
                self.named = None;
                Ok(())
            }
            Row(Facts) => {
                self.named = None;
                self.arguments = List::new(self.alloc);
                Ok(())
            }
            _ => Ok(()),
        }
    }

    ghost reads = { refl };

    ghost watches = { λ before after part token sees. tt };

    ghost building = { λ tokens. model_building tokens };
}
