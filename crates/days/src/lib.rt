// A day as a model file has it: the signed count of days from 2000-01-01, as the 32 bits of its two's complement, and back.
#![tactic(auto)]

ghost use Rattle.std.specs.Prelude.{◌≡◌};
ghost use Rattle.days.specs.Days.{pattern_of, days_of};

// The 32 bits of a day count, as a number.
pub fn days_pattern(days: i32) -> u32
    ensures { result ≡ pattern_of days }
{
    days.cast_unsigned()
}

// The day count of 32 bits.
pub fn days_of(pattern: u32) -> i32
    ensures { result ≡ days_of pattern }
{
    pattern.cast_signed()
}
