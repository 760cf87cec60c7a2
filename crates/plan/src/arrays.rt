// A node's array: how many cells it has, and how far apart they lie.
ghost use Rattle.std.specs.Prelude.{◌≡◌};
ghost use Rattle.plan.specs.Steps.{shape_by};

use crate::coverage::{coverage, size, stride};
use crate::{Chains, Shape};

// From the last chain to the first: a chain's stride is the number of cells that the later chains make.
pub fn shape(ch: &Chains, counts: &[usize; 8]) -> Shape
    ensures { result ≡ shape_by ch.now counts.now }
{
    let mut cells: usize = 1;
    let mut strides = [0usize; 8];
    for k in (0..ch.count).rev() {
        let cover = coverage(counts[k], ch.totals[k]);
        strides[k] = stride(cover, ch.windows[k], cells);
        cells = size(cover, ch.windows[k]) * cells;
    }
    Shape { cells, strides }
}
