ghost use Rattle.std.specs.Prelude.{◌≡◌, ◌≤◌, length, IfOk};
ghost use Rattle.text_core.specs.NameBytes.{bytes_of};

use crate::list::Bytes;
use crate::memory::Memory;
use std::alloc::Global;
use std::marker::Model;

/// The most bytes of a name that stand in the name itself.
const MOST_WITHIN: usize = 30;

/// At most `MOST_WITHIN` bytes, which stand in the value itself. Contracts see the list of them.
#[derive(Debug, Drop)]
pub(crate) struct Short {
    len: u8,
    bytes: [u8; MOST_WITHIN],
}

impl Model for Short {
    ghost use Rattle.std.specs.Prelude.{List, ℕ, ◌≤◌, take};

    ghost Value = { List ℕ };

    ghost view = { λ s. take s.len s.bytes };

    ghost invariant = { λ s. s.len ≤ 30 };
}

impl Short {
    fn of(bytes: &[u8]) -> Short
        requires { length bytes.now ≤ MOST_WITHIN }
        ensures { result ≡ bytes.now }
    {
        let mut all = [0; MOST_WITHIN];
        all[..bytes.len()].copy_from_slice(bytes);
        Short {
            len: bytes.len() as u8,
            bytes: all,
        }
    }

    fn as_slice(&self) -> &[u8]
        ensures { result.now ≡ self.now }
    {
        &self.bytes[..self.len as usize]
    }
}

/// The bytes of a name: a few of them stand in the name itself, so that it takes no memory.
#[derive(Debug, Drop)]
pub(crate) enum NameBytes {
    Within(Short),
    Beyond(Bytes),
}

impl NameBytes {
    /// These bytes. `Memory` is want of memory.
    pub(crate) fn from_slice(alloc: Global, bytes: &[u8]) -> Result<NameBytes, Memory>
        ensures { IfOk result (λ kept. bytes_of kept ≡ bytes.now) }
    {
        if bytes.len() <= MOST_WITHIN {
            return Ok(NameBytes::Within(Short::of(bytes)));
        }
        Ok(NameBytes::Beyond(Bytes::from_slice(alloc, bytes)?))
    }

    /// All bytes in order.
    pub(crate) fn as_slice(&self) -> &[u8]
        ensures { result.now ≡ bytes_of self.now }
    {
        match self {
            NameBytes::Within(short) => short.as_slice(),
            NameBytes::Beyond(bytes) => bytes.as_slice(),
        }
    }
}
