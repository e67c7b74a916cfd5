ghost use Rattle.std.specs.Prelude.{◌≡◌, ◌+◌, ◌-◌, ◌<◌, [], Some, length, slice_get, IfOk, OnOk, OnErr};
ghost use Rattle.std.specs.Option.{option_map};
ghost use Rattle.signature.specs.Numbers.{AreDistinctSymbols, AreDistinctConstants, symbol_number, found_symbol, with_symbol, constant_number, found_constant, with_constant};

use crate::names;
use indexmap::IndexSet;
use std::alloc::Global;
use std::marker::Model;
use text_core::{Memory, Name};

/// The predicate symbols and the constants of a problem, numbered in order of first occurrence.
/// Contracts see two lists. Symbol 0 is equality, of arity 2, which no name gives and which is not
/// in the list: symbol `n + 1` is number `n` of the list.
#[derive(Drop)]
pub struct Tables {
    alloc: Global,
    names: IndexSet<Name>,
    pairs: IndexSet<(u32, u32)>,
    constants: IndexSet<Name>,
}

impl Model for Tables {
    ghost use Rattle.text_core.specs.Numbered.{Tables as Numbering};
    ghost use Rattle.signature.specs.Columns.{symbols_in, AreTables};

    ghost Value = { Numbering };

    ghost view = { λ t. record {
      symbols = symbols_in t.names.keys t.pairs.keys;
      constants = t.constants.keys;
    } };

    ghost invariant = { λ t. AreTables t.names.keys t.pairs.keys t.constants.keys };
}

impl Tables {
    /// Tables with equality alone. `Memory` is want of memory.
    pub fn new(alloc: Global) -> Result<Tables, Memory>
        ensures { IfOk result (λ tables. tables ≡ record { symbols = []; constants = [] }) }
    {
        Ok(Tables {
            alloc,
            names: IndexSet::new(alloc),
            pairs: IndexSet::new(alloc),
            constants: IndexSet::new(alloc),
        })
    }

    /// The number of the symbol with this name and arity, which goes last if it is new. There are
    /// fewer than 4,294,967,295 symbols. `Memory` is want of memory, and the tables are as before.
    pub fn symbol(&mut self, name: &Name, arity: u32) -> Result<u32, Memory>
        requires { length self.old.symbols + 1 < 4294967295 }
        ensures number { IfOk result (λ n. n ≡ symbol_number self.old.symbols name.now arity) }
        ensures ok { OnOk result (self.new ≡ record self.old {
          symbols = with_symbol self.old.symbols name.now arity;
        }) }
        ensures err { OnErr result (self.new ≡ self.old) }
    {
        self.pairs.reserve(1)?;
        let named = names::number_of(self.alloc, &mut self.names, name)?;
        let (pair, _) = self.pairs.insert_full((named, arity))?;
        Ok(pair as u32 + 1)
    }

    /// The number of the constant with this name, which goes last if it is new. There are fewer
    /// than 4,294,967,295 constants. `Memory` is want of memory, and the tables are as before.
    #[tactic(auto, unfolding(crate::specs::Numbers::constant_number, crate::specs::Numbers::with_constant))]
    pub fn constant(&mut self, name: &Name) -> Result<u32, Memory>
        requires { length self.old.constants < 4294967295 }
        ensures number { IfOk result (λ n. n ≡ constant_number self.old.constants name.now) }
        ensures ok { OnOk result (self.new ≡ record self.old {
          constants = with_constant self.old.constants name.now;
        }) }
        ensures err { OnErr result (self.new ≡ self.old) }
    {
        names::number_of(self.alloc, &mut self.constants, name)
    }

    /// The number of the symbol with this name and arity; `None` exactly where it is not there. It
    /// takes no memory.
    pub fn find_symbol(&self, name: &Name, arity: u32) -> Option<u32>
        ensures { result ≡ found_symbol self.now.symbols name.now arity }
    {
        let named = names::found(&self.names, name)?;
        let pair = self.pairs.get_index_of(&(named, arity))?;
        Some(pair as u32 + 1)
    }

    /// The number of the constant with this name; `None` exactly where it is not there. It takes no
    /// memory.
    #[tactic(auto, unfolding(crate::specs::Numbers::found_constant))]
    pub fn find_constant(&self, name: &Name) -> Option<u32>
        ensures { result ≡ found_constant self.now.constants name.now }
    {
        names::found(&self.constants, name)
    }

    /// The number of symbols, equality included. No symbol is there twice.
    pub fn symbols(&self) -> u32
        ensures count { result ≡ length self.now.symbols + 1 }
        ensures distinct { AreDistinctSymbols self.now.symbols }
    {
        self.pairs.len() as u32 + 1
    }

    /// The number of constants. No constant is there twice.
    pub fn constants(&self) -> u32
        ensures count { result ≡ length self.now.constants }
        ensures distinct { AreDistinctConstants self.now.constants }
    {
        self.constants.len() as u32
    }

    /// The name of a symbol other than equality.
    pub fn symbol_name(&self, number: u32) -> &Name
        requires named { 0 < number }
        requires there { number < length self.now.symbols + 1 }
        ensures { option_map (λ s. s.name) (slice_get self.now.symbols (number - 1))
            ≡ Some result.now }
    {
        let (named, _) = self.pairs.as_slice()[number as usize - 1];
        &self.names.as_slice()[named as usize]
    }

    /// The arity of a symbol; that of equality is 2.
    pub fn arity(&self, number: u32) -> u32
        requires { number < length self.now.symbols + 1 }
        ensures equality { number ≡ 0 → result ≡ 2 }
        ensures named { 0 < number
            → option_map (λ s. s.arity) (slice_get self.now.symbols (number - 1)) ≡ Some result }
    {
        if number == 0 {
            return 2;
        }
        self.pairs.as_slice()[number as usize - 1].1
    }

    /// The name of a constant.
    pub fn constant_name(&self, number: u32) -> &Name
        requires { number < length self.now.constants }
        ensures { slice_get self.now.constants number ≡ Some result.now }
    {
        &self.constants.as_slice()[number as usize]
    }
}
