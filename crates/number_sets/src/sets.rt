//! Calls on vectors of numbers that stand in rising order.
ghost use Rattle.std.specs.Prelude.{◌≡◌, ◌<◌, ◌∷◌, [], length, vec_capacity};
ghost use Rattle.number_sets.specs.Sets.{has, with, without_all, IsRising};

use crate::search::{place_u32, place_u64};

/// Whether a number is there. It takes as many steps as the length has binary digits.
pub fn has_u32(numbers: &[u32], number: u32) -> bool
    requires { IsRising numbers.now }
    ensures { result ≡ has numbers.now number }
{
    place_u32(numbers, number).is_ok()
}

/// Whether a number is there. It takes as many steps as the length has binary digits.
pub fn has_u64(numbers: &[u64], number: u64) -> bool
    requires { IsRising numbers.now }
    ensures { result ≡ has numbers.now number }
{
    place_u64(numbers, number).is_ok()
}

/// Adds a number, if it is not there. It takes no memory, and moves those that are higher.
pub fn add_u32(numbers: &mut Vec<u32>, number: u32)
    requires rising { IsRising numbers.old.items }
    requires room { length numbers.old.items < vec_capacity numbers.old }
    ensures numbers { numbers.new.items ≡ with numbers.old.items number }
    ensures capacity { vec_capacity numbers.new ≡ vec_capacity numbers.old }
{
    if let Err(at) = place_u32(numbers, number) {
        let _ = numbers.insert(at, number);
    }
}

/// Adds a number, if it is not there. It takes no memory, and moves those that are higher.
pub fn add_u64(numbers: &mut Vec<u64>, number: u64)
    requires rising { IsRising numbers.old.items }
    requires room { length numbers.old.items < vec_capacity numbers.old }
    ensures numbers { numbers.new.items ≡ with numbers.old.items number }
    ensures capacity { vec_capacity numbers.new ≡ vec_capacity numbers.old }
{
    if let Err(at) = place_u64(numbers, number) {
        let _ = numbers.insert(at, number);
    }
}

/// Takes a number away, if it is there. It moves those that are higher.
pub fn take_u32(numbers: &mut Vec<u32>, number: u32)
    requires rising { IsRising numbers.old.items }
    ensures numbers { numbers.new.items ≡ without_all numbers.old.items (number ∷ []) }
    ensures capacity { vec_capacity numbers.new ≡ vec_capacity numbers.old }
{
    if let Ok(at) = place_u32(numbers, number) {
        numbers.remove(at);
    }
}
