//! Arrays of the same length.
ghost use Rattle.std.specs.Prelude.{◌≡◌, ◌+◌, ◌<◌, ◌↔◌, [], List, IsTrue, IfOk, IfErr, length, All, vec_len};
ghost use Rattle.arrow_core.specs.declared.error.Error.TheVariants.{InvalidArgumentError};
ghost use Rattle.arrow_core.specs.declared.error.Reason.TheVariants.{Lengths};
ghost use Rattle.arrow_array.specs.Arrays.{array_slots};
ghost use Rattle.arrow_array.specs.Chunks.{AreSameLength};

use crate::array::Array;
use arrow_core::{Error, Reason, Result};
use std::marker::Model;

/// Arrays of the same length, the columns of a table.
#[derive(Drop)]
pub struct Chunk {
    arrays: Vec<Array>,
}

impl Model for Chunk {
    ghost use Rattle.std.specs.Prelude.{List};
    ghost use Rattle.std.specs.Coded.{coded_list};
    ghost use Rattle.arrow_array.specs.declared.array.Array.{Array};
    ghost use Rattle.arrow_array.specs.contracts.array.Array as the_arrays;

    ghost Value = { List Array };

    ghost coded = { coded_list the_arrays.the_row.coded };

    ghost use Rattle.arrow_array.specs.Chunks.{AreSameLength};

    ghost view = { λ c. c.arrays.items };

    ghost invariant = { λ c. AreSameLength c.arrays.items };
}

/// Whether the arrays have the same length.
fn are_same_length(arrays: &[Array]) -> bool
    ensures { IsTrue result ↔ AreSameLength arrays.now }
{
    for i in 1..arrays.len() {
        if arrays[i].len() != arrays[0].len() {
            return false;
        }
    }
    true
}

impl Chunk {
    /// The chunk of these arrays. It takes no memory.
    ///
    /// `InvalidArgumentError(Lengths)` where two lengths differ.
    pub fn try_new(arrays: Vec<Array>) -> Result<Chunk>
        ensures arrays { IfOk result (λ c. c ≡ arrays.items) }
        ensures lengths { IfOk result (λ _. AreSameLength arrays.items) }
        ensures err { IfErr result
            (λ e. (e ≡ InvalidArgumentError Lengths) × (AreSameLength arrays.items → ⊥)) }
    {
        if !are_same_length(&arrays) {
            return Err(Error::InvalidArgumentError(Reason::Lengths));
        }
        Ok(Chunk { arrays })
    }

    /// The length of the arrays, and 0 where there are none.
    pub fn len(&self) -> usize
        ensures all { All (λ a. length (array_slots a) ≡ result) self.now }
        ensures none { self.now ≡ [] → result ≡ 0 }
    {
        match self.arrays.first() {
            None => 0,
            Some(array) => array.len(),
        }
    }

    /// The arrays, in the order in which they were given.
    pub fn arrays(&self) -> &[Array]
        ensures arrays { result.now ≡ self.now }
        ensures lengths { AreSameLength self.now }
    {
        &self.arrays
    }

    /// The arrays, in the order in which they were given, without a copy.
    pub fn into_arrays(self) -> Vec<Array>
        ensures arrays { result.items ≡ self }
        ensures lengths { AreSameLength self }
    {
        let Chunk { arrays } = self;
        arrays
    }
}
