// Why a call is refused, and the number of it.
#![tactic(auto)]

ghost use Rattle.std.specs.Prelude.{◌≡◌};
ghost use Rattle.refusal.specs.Numbers.{refusal_number, result_number, value_after};

// Why a call is refused, in the order of document 01's numbers, 1 to 9.
#[derive(Clone, Copy, Debug, PartialEq, Eq)]
pub enum Refusal {
    // a degree, an order of a rule or a matrix, or a count of rows or longitudes is too large
    Size,
    // an input list, or one that is changed in place, has not exactly its stated length
    Length,
    // an output list is shorter than its answer, or a working list too short
    Space,
    // an entry outside the table
    Place,
    // WaterHeight without a Love number for each degree
    Love,
    // a model file ends too early
    Short,
    // a record of another kind than the one due
    Kind,
    // a byte after the end record
    After,
    // a tide system above 3
    Tide,
}

// Document 01's number of a refusal.
impl From<Refusal> for u32 {
    ghost from_gives = { λ e n. n ≡ refusal_number e };

    fn from(e: Refusal) -> u32 {
        match e {
            Refusal::Size => 1,
            Refusal::Length => 2,
            Refusal::Space => 3,
            Refusal::Place => 4,
            Refusal::Love => 5,
            Refusal::Short => 6,
            Refusal::Kind => 7,
            Refusal::After => 8,
            Refusal::Tide => 9,
        }
    }
}

// 0 where a call is done, else the number of its refusal.
pub fn result_number<T: Copy>(a: Result<T, Refusal>) -> u32
    ensures { result ≡ result_number a }
{
    match a {
        Ok(_) => 0,
        Err(e) => u32::from(e),
    }
}

// Hands the value on through `value`, which a refusal leaves alone; answers 0 or the number of the refusal.
pub fn hand_on<T: Copy>(a: Result<T, Refusal>, value: &mut T) -> u32
    ensures value { result ≡ result_number a }
    ensures value_after { value.new ≡ value_after a value.old }
{
    match a {
        Ok(x) => {
            *value = x;
            0
        }
        Err(e) => u32::from(e),
    }
}
