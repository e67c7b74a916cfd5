ghost use Rattle.std.specs.Prelude.{◌≡◌};
ghost use Rattle.model_text.specs.Structures.{IsSound};

use text_core::{List, Name};

/// The element for which a constant stands.
#[derive(Debug, Drop)]
pub struct Place {
    pub constant: Name,
    pub element: u32,
}

/// A fact: the predicate, with so many arguments, holds of these elements.
#[derive(Debug, Drop)]
pub struct Fact {
    pub predicate: Name,
    pub arguments: List<u32>,
}

/// A finite structure: its elements are the numbers below its size, its places tell for which
/// element a constant stands, and no facts hold but its own. Contracts see these three.
///
/// It has 1 to `MOST_ELEMENTS` elements, each number of a place or a fact is an element, and no
/// constant has two places. A fact may be there twice.
#[derive(Debug, Drop)]
pub struct Model {
    size: u32,
    places: List<Place>,
    facts: List<Fact>,
}

impl std::marker::Model for Model {
    ghost use Rattle.model_text.specs.Structures.{Finite, IsSound};

    ghost Value = { Finite };

    ghost view = { λ m. record { size = m.size; places = m.places; facts = m.facts } };

    ghost invariant = { λ m.
        IsSound (record { size = m.size; places = m.places; facts = m.facts }) };
}

impl Model {
    /// The structure of this size, with these places and facts. It takes no memory.
    pub fn new(size: u32, places: List<Place>, facts: List<Fact>) -> Model
        requires { IsSound (record { size = size; places = places; facts = facts }) }
        ensures { result ≡ record { size = size; places = places; facts = facts } }
    {
        Model {
            size,
            places,
            facts,
        }
    }

    /// How many elements there are.
    pub fn size(&self) -> u32
        ensures value { result ≡ self.now.size }
        ensures sound { IsSound self.now }
    {
        self.size
    }

    /// The places, in order.
    pub fn places(&self) -> &List<Place>
        ensures { result.now ≡ self.now.places }
    {
        &self.places
    }

    /// The facts, in order.
    pub fn facts(&self) -> &List<Fact>
        ensures { result.now ≡ self.now.facts }
    {
        &self.facts
    }
}
