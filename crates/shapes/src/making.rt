//! Whole routines: their words and their rows.
ghost use Rattle.std.specs.Prelude.{◌≡◌, ◌+◌, ◌*◌, IfOk, vec_len};
ghost use Rattle.secrecy.specs.Rows.{columns};

use crate::Shape;
use crate::placing::{function, word};
use row_layout::{COLUMNS, FUNCTION};
use std::alloc::{AllocError, Global};

impl Shape {
    /// The words of a routine of this shape: as many as are asked for.
    pub fn words(self, heap: Global, len: u16) -> Result<Vec<u16>, AllocError>
        ensures { IfOk result (λ made. vec_len made ≡ len) }
    {
        (0..len).map(|at| word(self, at, len)).collect(heap)
    }

    /// The numbers of its rows and of the finish row: the functions, and nothing is secret.
    pub fn rows(self, heap: Global, len: u16) -> Result<Vec<u16>, AllocError>
        ensures { IfOk result (λ made. vec_len made ≡ (len + 1) * columns) }
    {
        let mut rows = Vec::new(heap);
        // Over rows: a closure could not hand on that memory is wanting.
        for row in 0..=len {
            let mut numbers = [0; COLUMNS];
            numbers[usize::from(FUNCTION)] = function(self, row, len);
            rows.extend_from_slice(&numbers)?;
        }
        Ok(rows)
    }
}
