// Places in a list of transactions: where one stands in it, and where its lowest does.
ghost use Rattle.std.specs.Prelude.{◌≡◌};
ghost use Rattle.lines.specs.Rule.{place_of, lowest_member};

// How many stand before the first t: all of them, where t is not there.
pub(crate) fn place_of(list: &[u8], t: u8) -> usize
    ensures { result ≡ place_of t list.now }
{
    list.iter().position(|x| *x == t).unwrap_or(list.len())
}

// Where the lowest number of the list first stands.
pub(crate) fn place_of_lowest(list: &[u8]) -> usize
    ensures { result ≡ place_of (lowest_member list.now) list.now }
{
    let lowest = list.iter().copied().min().unwrap_or(0);
    place_of(list, lowest)
}
