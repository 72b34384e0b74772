//! Searches in numbers that stand in rising order.
ghost use Rattle.number_sets.specs.Sets.{IsRising};
ghost use Rattle.number_sets.specs.code.Places.{IsPlaceOf};

// The place of a number, or else the place where it would stand.
pub fn place_u32(numbers: &[u32], number: u32) -> Result<usize, usize>
    requires { IsRising numbers.now }
    ensures { IsPlaceOf numbers.now number result }
{
    numbers.binary_search(&number)
}

// The place of a number, or else the place where it would stand.
pub fn place_u64(numbers: &[u64], number: u64) -> Result<usize, usize>
    requires { IsRising numbers.now }
    ensures { IsPlaceOf numbers.now number result }
{
    numbers.binary_search(&number)
}
