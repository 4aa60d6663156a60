//! Things moved into an order, in place.
ghost use Rattle.std.specs.Prelude.{◌≡◌, ◌<◌, ℕ, Some, map, length, slice_get, slice_index, vec_len, OnOk, IfOk};
ghost use Rattle.std.specs.List.{range_with_len};
ghost use Rattle.std.specs.List.Sorted.{IsPermutation};
ghost use Rattle.reordering.specs.Inverses.{AreInverse};

use ix_base::NoMemory;
use std::alloc::Global;

/// The places of things by their numbers, from the numbers place by place.
fn places_in(alloc: Global, order: &[usize]) -> Result<Vec<usize>, NoMemory>
    requires { IsPermutation (range_with_len 0 (length order.now)) order.now }
    ensures { IfOk result (λ v. AreInverse order.now v.items) }
{
    let mut places = vec![in alloc; 0usize; order.len()]?;
    for place in 0..order.len() {
        places[order[place]] = place;
    }
    Ok(places)
}

/// Exchanges things until at each place stands the thing whose number is given for it. One that stands there already isn't
/// moved. What is given of numbers and of places is used up.
fn exchange<T>(things: &mut [T], order: &mut [usize], places: &mut [usize])
    requires inverse { AreInverse order.old places.old }
    requires len { length things.old ≡ length order.old }
    ensures { (k : ℕ) → k < length things.old → slice_get things.new k ≡ slice_get things.old (slice_index order.old k) }
{
    for place in 0..things.len() {
        let from = order[place];
        if from == place {
            continue;
        }
        let to = places[place];
        things.swap(place, from);
        order.swap(place, to);
        places.swap(place, from);
    }
}

/// Moves things into an order: at each place comes the thing whose number is given for it. None is copied.
pub fn put_in_order<T>(
    alloc: Global,
    things: &mut Vec<T>,
    mut order: Vec<usize>,
) -> Result<(), NoMemory>
    requires { IsPermutation (range_with_len 0 (vec_len things.old)) order.items }
    ensures { OnOk result (map Some things.new.items ≡ map (slice_get things.old.items) order.items) }
{
    let mut places = places_in(alloc, order.as_slice())?;
    exchange(
        things.as_mut_slice(),
        order.as_mut_slice(),
        places.as_mut_slice(),
    );
    Ok(())
}
