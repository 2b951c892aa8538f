//! The numbers of each item's publications.
ghost use Rattle.std.specs.Prelude.{◌≡◌, ◌++◌, [], ◌∷◌, ℕ, OnOk, nat_eq, if◌then◌else◌};
ghost use Rattle.std.specs.HashMap.{get};
ghost use Rattle.publications.specs.Numbers.{listed, last_below, HasPlace};

use news_types::Memory;
use std::alloc::Global;
use std::collections::HashMap;

/// The numbers of an item's publications, in order, with those that were withdrawn.
pub(crate) fn numbers_of(numbers: &HashMap<u32, Vec<u32>>, item: u32) -> &[u32]
    ensures { result.now ≡ listed (get nat_eq numbers.now item) }
{
    match numbers.get(&item) {
        Some(list) => list.as_slice(),
        None => &[],
    }
}

/// The last of the numbers that is below this one, or 0.
pub(crate) fn last_below(numbers: &[u32], below: u32) -> u32
    ensures { result ≡ last_below below numbers.now }
{
    let last = numbers.iter().rev().copied().find(|number| *number < below);
    last.unwrap_or(0)
}

/// Takes the memory for one more number of an item.
pub(crate) fn reserve_number(
    numbers: &mut HashMap<u32, Vec<u32>>,
    alloc: Global,
    item: u32,
) -> Result<(), Memory>
    ensures same { (other : ℕ) → listed (get nat_eq numbers.new other) ≡ listed (get nat_eq numbers.old other) }
    ensures ok { OnOk result (HasPlace numbers.new item) }
{
    if let Some(list) = numbers.get_mut(&item) {
        list.reserve(1)?;
        return Ok(());
    }
    let mut list = Vec::new(alloc);
    list.reserve(1)?;
    numbers.reserve(1)?;
    drop(numbers.insert(item, list));
    Ok(())
}

/// Gives an item's publication its number, behind the others. It takes no memory.
pub(crate) fn add_number(numbers: &mut HashMap<u32, Vec<u32>>, item: u32, number: u32)
    requires { HasPlace numbers.old item }
    ensures { (other : ℕ) → listed (get nat_eq numbers.new other) ≡ (if nat_eq item other then listed (get nat_eq numbers.old other) ++ number ∷ [] else listed (get nat_eq numbers.old other)) }
{
    if let Some(list) = numbers.get_mut(&item) {
        list.push_reserved(number);
    }
}
