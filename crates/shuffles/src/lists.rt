// Tests on lists of numbers that places and entries share.
ghost use Rattle.std.specs.Prelude.{◌≡◌, ◌<◌, false, length, MatchOption};
ghost use Rattle.cards.specs.Lists.{distinct, member, position};

// The position of the number in the list, none where it is not there.
pub fn find(number: u8, list: &[u8]) -> Option<usize>
    ensures { MatchOption result (member number list.now ≡ false) (λ r. (r ≡ position number list.now) × (r < length list.now)) }
{
    list.iter().position(|x| *x == number)
}

// Whether the number stands in the list.
pub fn stands(number: u8, list: &[u8]) -> bool
    ensures { result ≡ member number list.now }
{
    find(number, list).is_some()
}

// Whether each number of the list lies from `low` to `high`, and none stands twice.
pub fn all_distinct(low: u8, high: u8, list: &[u8]) -> bool
    ensures { result ≡ distinct low high list.now }
{
    let mut rest = list;
    while let [x, others @ ..] = rest {
        if !(low..=high).contains(x) || stands(*x, others) {
            return false;
        }
        rest = others;
    }
    true
}
