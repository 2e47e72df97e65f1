//! Whether a list of ids rises, and how one is made to.
ghost use Rattle.std.specs.Prelude.{◌≡◌, IsTrue, map};
ghost use Rattle.xod_base.specs.Evaluation.{rising};
ghost use Rattle.xod_base.specs.Ids.{id_of_number};
ghost use Rattle.xod_sets.specs.Rising.{rises as rises_test};

use xod_base::IdList;

/// Whether the ids of numbers rise: each number is below the next one.
fn numbers_rise(numbers: &[u64]) -> bool
    ensures { result ≡ rises_test (map id_of_number numbers.now) }
{
    let Some((first, rest)) = numbers.split_first() else {
        return true;
    };
    let mut last = *first;
    for number in rest {
        if *number <= last {
            return false;
        }
        last = *number;
    }
    true
}

/// Whether each id comes before all that stand behind it.
pub fn rises(ids: &IdList) -> bool
    ensures { result ≡ rises_test ids.now }
{
    numbers_rise(ids.as_numbers())
}

/// The numbers of a list, each once, rising.
fn sorted_once(mut numbers: Vec<u64>) -> Vec<u64>
    ensures { map id_of_number result.items ≡ rising (map id_of_number numbers.items) }
{
    numbers.sort_unstable();
    numbers.dedup();
    numbers
}

/// The ids of a list, each once, rising. It takes no memory.
pub fn rising_of(ids: IdList) -> IdList
    ensures exactly { result ≡ rising ids }
    ensures rises { IsTrue (rises_test result) }
{
    if numbers_rise(ids.as_numbers()) {
        return ids;
    }
    IdList::from_numbers(sorted_once(ids.into_numbers()))
}
