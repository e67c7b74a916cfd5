use crate::key::Key;
use crate::sheet::Sheet;
use indexmap::IndexSet;
use std::alloc::Global;
use text_core::Memory;

/// The structure that the solver's values tell: the element of each constant and parameter, and the
/// facts, by symbol and elements.
#[derive(Drop)]
pub(crate) struct Found<'s> {
    pub(crate) places: Vec<u32>,
    pub(crate) facts: IndexSet<(u32, &'s [u32])>,
}

impl<'s> Found<'s> {
    /// The structure, with so many constants and parameters. `Memory` is want of memory.
    pub(crate) fn new(alloc: Global, sheet: &'s Sheet, count: u32) -> Result<Found<'s>, Memory> {
        let mut places = Vec::new(alloc);
        for _ in 0..count {
            places.push(0)?;
        }
        let mut facts = IndexSet::new(alloc);
        for (variable, key) in sheet.keys().iter().enumerate() {
            if !sheet.is_chosen(variable) {
                continue;
            }
            match key {
                Key::Fact(fact) => {
                    facts.insert((fact.symbol, fact.elements.as_slice()))?;
                }
                Key::Place { constant, element } => {
                    if let Some(place) = places.get_mut(*constant as usize) {
                        *place = *element;
                    }
                }
                Key::All(_) => {}
            }
        }
        Ok(Found { places, facts })
    }

    /// Whether a symbol holds of these elements; symbol 0 is equality.
    pub(crate) fn holds(&self, symbol: u32, elements: &[u32]) -> bool {
        if symbol != 0 {
            return self.facts.contains(&(symbol, elements));
        }
        match elements {
            [left, right] => *left == *right,
            _ => false,
        }
    }
}
