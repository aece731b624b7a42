// The functions of a polar cap: where they and their vectors stand, and the answer by their ranked places.
#![tactic(auto)]

pub mod ranked;

ghost use Rattle.std.specs.Prelude.{◌≡◌, ◌+◌, ◌*◌, ◌≤◌, length};
ghost use Rattle.std.specs.Float.{nan};
ghost use Rattle.storage.specs.Elements.{from};
ghost use Rattle.storage.specs.Filled.{Filled};
ghost use Rattle.cap_functions.specs.CapPlaces.{Square};

// The number of cells of a k by k matrix.
pub fn square(k: usize) -> usize
    requires { k ≤ 181 }
    ensures { Square k result }
{
    k * k
}

// The k numbers from index `first` of a list on, copied to index `to` of another and those behind it.
pub fn copy_run(k: usize, first: usize, src: &[f64], to: usize, dst: &mut [f64])
    requires fact_1 { first + k ≤ length src.now }
    requires fact_2 { to + k ≤ length dst.old }
    ensures { Filled to (from first src.now nan) k dst.old dst.new }
{
    for i in 0..k {
        dst[to + i] = src[first + i];
    }
}
