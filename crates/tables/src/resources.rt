// Numbers of the resources in an array that has a place for each that there may be.
ghost use Rattle.std.specs.Prelude.{◌≡◌, ℕ, ◌-◌, ◌<◌, ◌≤◌, get_or};
ghost use Rattle.rules.specs.District.{most_resources};

use rules::places::MOST_RESOURCES;

// Of each of the first resources what `number` makes of it, counted from 1; of the others 0. A loop: by array::from_fn, with 0
// behind the last, the widest district of seed 2 takes 0.55 of the reference's instructions in place of 0.50, which is its bar.
pub fn by_resource<F: Fn(usize) -> u64>(resources: usize, number: F) -> [u64; MOST_RESOURCES]
    requires few { resources ≤ most_resources }
    requires callable { (r : ℕ) → 1 ≤ r → r ≤ resources → F.pre number r }
    ensures each { (r : ℕ) → 1 ≤ r → r ≤ resources → F.post number r (get_or result (r - 1) 0) }
    ensures rest { (r : ℕ) → resources < r → r ≤ most_resources → get_or result (r - 1) 0 ≡ 0 }
{
    let mut numbers = [0u64; MOST_RESOURCES];
    for (k, place) in numbers[..resources].iter_mut().enumerate() {
        *place = number(k + 1);
    }
    numbers
}
