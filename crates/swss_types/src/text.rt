// A text of a table: a name, a value, or a key that does not read.
ghost use Rattle.std.specs.Prelude.{◌≡◌, ◌==◌, IfOk, MatchOption};
ghost use Rattle.std.specs.Str.{IsUtf8};
ghost use Rattle.std.proofs.Common.{rules};
ghost use Rattle.std.specs.Cmp.{partial_order_from_own_ties};
ghost use Rattle.std.specs.Cmp.Rules.{comparing};
ghost use Rattle.std.specs.Cmp.Lexicographic.{slice_cmp, pointwise};
ghost use Rattle.std.specs.Ordering.{nat_cmp, as_partial_cmp};
ghost use Rattle.swss_types.specs.Text.{IsHeld, bytes_in};

use crate::OutOfMemory;
use std::alloc::Global;
use std::cmp::Ordering;
use std::marker::Model;
use std::str;

/// The most bytes that stand in a text itself.
const SHORT: usize = 30;

/// A list of bytes that is valid UTF-8. Texts are ordered byte by byte. Most are short: up to 30 bytes need no allocation.
#[derive(Debug, Drop)]
pub struct Text {
    bytes: Bytes,
}

/// Few bytes stand in the value itself, at the front of an array. More have an allocation.
#[derive(Debug, Drop)]
enum Bytes {
    Short(u8, [u8; SHORT]),
    Long(Vec<u8>),
}

impl Model for Text {
    ghost use Rattle.std.specs.Prelude.{List, ℕ};
    ghost use Rattle.std.specs.Str.{IsUtf8};
    ghost use Rattle.swss_types.specs.Text.{IsHeld, bytes_in};

    ghost Value = { List ℕ };

    ghost view = { λ t. bytes_in t.bytes };

    ghost invariant = { λ t. IsHeld t.bytes × IsUtf8 (bytes_in t.bytes) };
}

impl Text {
    /// The text of these bytes: None exactly where they are not UTF-8.
    pub fn new(alloc: Global, bytes: &[u8]) -> Result<Option<Text>, OutOfMemory>
        ensures { IfOk result (λ text. MatchOption text (¬ IsUtf8 bytes.now) (λ t. (t ≡ bytes.now) × IsUtf8 bytes.now)) }
    {
        match str::from_utf8(bytes) {
            Ok(text) => Ok(Some(Text::from_str(alloc, text)?)),
            Err(_) => Ok(None),
        }
    }

    /// The text of these characters.
    pub fn from_str(alloc: Global, text: &str) -> Result<Text, OutOfMemory>
        ensures { IfOk result (λ copy. copy ≡ text.now) }
    {
        Ok(Text {
            bytes: Bytes::new(alloc, text.as_bytes())?,
        })
    }

    /// The bytes of the text.
    pub fn bytes(&self) -> &[u8]
        ensures value { result.now ≡ self.now }
        ensures utf8 { IsUtf8 result.now }
    {
        self.bytes.as_slice()
    }

    /// The same text once more.
    pub fn copy(&self) -> Result<Text, OutOfMemory>
        ensures { IfOk result (λ text. text ≡ self.now) }
    {
        Ok(Text {
            bytes: self.bytes.copy()?,
        })
    }
}

impl Bytes {
    /// These bytes.
    fn new(alloc: Global, bytes: &[u8]) -> Result<Bytes, OutOfMemory>
        ensures { IfOk result (λ copy. IsHeld copy × (bytes_in copy ≡ bytes.now)) }
    {
        if bytes.len() > SHORT {
            return Ok(Bytes::Long(Vec::from_slice(alloc, bytes)?));
        }
        let mut short = [0; SHORT];
        short[..bytes.len()].copy_from_slice(bytes);
        Ok(Bytes::Short(bytes.len() as u8, short))
    }

    /// The bytes.
    fn as_slice(&self) -> &[u8]
        requires { IsHeld self.now }
        ensures { result.now ≡ bytes_in self.now }
    {
        match self {
            Bytes::Short(len, bytes) => &bytes[..usize::from(*len)],
            Bytes::Long(bytes) => bytes.as_slice(),
        }
    }

    /// The same bytes once more.
    fn copy(&self) -> Result<Bytes, OutOfMemory>
        requires { IsHeld self.now }
        ensures { IfOk result (λ copy. IsHeld copy × (bytes_in copy ≡ bytes_in self.now)) }
    {
        Ok(match self {
            Bytes::Short(len, bytes) => Bytes::Short(*len, *bytes),
            Bytes::Long(bytes) => Bytes::Long(bytes.clone()?),
        })
    }
}

impl PartialEq for Text {
    ghost eq = { pointwise ◌==◌ };

    ghost laws = { Prim.search (comparing, rules) };

    fn eq(&self, other: &Text) -> bool {
        self.bytes() == other.bytes()
    }
}

impl Eq for Text {
    ghost laws = { Prim.search (comparing, rules) };
}

impl PartialOrd for Text {
    ghost partial_cmp = { as_partial_cmp (slice_cmp nat_cmp) };

    ghost laws = { partial_order_from_own_ties (Prim.search (comparing, rules)) (Prim.search (comparing, rules)) };

    fn partial_cmp(&self, other: &Text) -> Option<Ordering> {
        Some(self.cmp(other))
    }
}

impl Ord for Text {
    ghost cmp = { slice_cmp nat_cmp };

    ghost total = { Prim.search (comparing, rules) };

    ghost matches_partial_cmp = { Prim.search (comparing, rules) };

    ghost matches_eq = { Prim.search (comparing, rules) };

    fn cmp(&self, other: &Text) -> Ordering {
        self.bytes().cmp(other.bytes())
    }
}
