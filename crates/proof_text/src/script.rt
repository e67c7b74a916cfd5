ghost use Rattle.std.specs.Prelude.{◌≡◌};
ghost use Rattle.proof_text.specs.Proper.{IsProper};

use crate::body::BodyText;
use std::marker::Model;
use text_core::{List, Name};

/// A script: its version, the names that it takes, and its body. Contracts see these three.
///
/// It has at most `MOST_APPLICATIONS` rule applications, and at most `MOST_SPLITS` splits around
/// any of them, so that recursion over it stays shallow. Of version 1 it lists the elements of each
/// instance, shows all lines and facts, and has no gaps; of version 2 it gives values by labels.
#[derive(Debug, Drop)]
pub struct Script {
    version: u32,
    take: List<Name>,
    body: BodyText,
}

impl Model for Script {
    ghost use Rattle.std.specs.Coded.{codes};
    ghost use Rattle.proof_text.specs.Values.{Written};
    ghost use Rattle.proof_text.specs.contracts.body.EndText as end_contract;
    ghost use Rattle.proof_text.specs.Proper.{IsProper};

    ghost Value = { Written };

    ghost coded = { Prim.hlevel (codes, end_contract.the_row.coded) };

    ghost view = { λ s. record { version = s.version; take = s.take; body = s.body } };

    ghost invariant = { λ s.
        IsProper (record { version = s.version; take = s.take; body = s.body }) };
}

impl Script {
    /// The script of this version, with these names and this body. It takes no memory.
    pub fn new(version: u32, take: List<Name>, body: BodyText) -> Script
        requires { IsProper (record { version = version; take = take; body = body }) }
        ensures { result ≡ record { version = version; take = take; body = body } }
    {
        Script {
            version,
            take,
            body,
        }
    }

    /// The version: 1 or 2.
    pub fn version(&self) -> u32
        ensures value { result ≡ self.now.version }
        ensures proper { IsProper self.now }
    {
        self.version
    }

    /// The names that are taken for the parameters.
    pub fn take(&self) -> &List<Name>
        ensures { result.now ≡ self.now.take }
    {
        &self.take
    }

    /// The body.
    pub fn body(&self) -> &BodyText
        ensures value { result.now ≡ self.now.body }
        ensures proper { IsProper self.now }
    {
        &self.body
    }
}
