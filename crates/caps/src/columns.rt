// One column of the Legendre functions at a node: the order m for the degrees from m on. Every order asks for its own column alone, so that all columns
// together are each node's table, worked out once.
ghost use Rattle.std.specs.Prelude.{◌≡◌, ℕ, ◌+◌, ◌≤◌, ◌<◌, length};
ghost use Rattle.std.specs.Float.{nan};
ghost use Rattle.storage.specs.Elements.{from};
ghost use Rattle.storage.specs.Filled.{Filled};
ghost use Rattle.storage.specs.Triangle.{idx, row_start};
ghost use Rattle.recursion.specs.Recursion.{pmm};
ghost use Rattle.caps.specs.Columns.{column_cell};

// The numbers of the degrees m to m + k - 1, by the tables of the recursion at the front of `work`, of `total` numbers each. The column starts with its
// sectoral number, stands at index `start` of the tables, and is multiplied by `rescale`, the power of the node's cosine.
pub fn column(
    m: usize,
    k: usize,
    start: usize,
    total: usize,
    t: f64,
    rescale: f64,
    sectoral: f64,
    work: &[f64],
    col: &mut [f64],
)
    requires fact_1 { sectoral ≡ pmm m }
    requires fact_2 { start ≡ idx m m }
    requires fact_3 { k ≤ length col.old }
    requires fact_4 { m + k ≤ 2701 }
    requires fact_5 { total + row_start (m + k) + m < length work.now }
    ensures { Filled 0 (column_cell (from 0 work.now nan) (from total work.now nan) t rescale m) k
        col.old col.new }
{
    let mut q1 = sectoral;
    let mut q2 = 0.0;
    let mut at = start;
    for i in 0..k {
        col[i] = q1 * rescale;
        at = at + m + (i + 1);
        let q = work[at] * t * q1 - work[total + at] * q2;
        q2 = q1;
        q1 = q;
    }
}
