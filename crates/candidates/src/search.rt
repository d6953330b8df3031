//! Routes looked up in a list that is sorted by prefix.
ghost use Rattle.std.specs.Prelude.{◌≡◌, ◌<◌, ◌≤◌};
ghost use Rattle.candidates.specs.Borders.{Ascend, HasLengths, IsFound, IsLongest, IsMatch};
ghost use Rattle.candidates.specs.Gathering.{IsOnly};

use words::{Address, Prefix, Route};

/// The route for a prefix, by binary search.
pub fn find(routes: &[Route], prefix: Prefix) -> Option<Route>
    requires { Ascend routes.now }
    ensures { IsOnly (IsFound routes.now prefix) result }
{
    match routes.binary_search_by(|route| route.prefix.compare(&prefix)) {
        Ok(at) => Some(routes[at]),
        Err(_) => None,
    }
}

/// Marks the lengths of the routes' prefixes, so that other lengths need no search.
pub fn lengths_of(routes: &[Route]) -> [bool; 33]
    ensures { HasLengths routes.now result }
{
    let mut lengths = [false; 33];
    for route in routes {
        lengths[usize::from(route.prefix.length())] = true;
    }
    lengths
}

// The route of this length whose network contains the address; none if no route has the length.
fn match_of_length(
    routes: &[Route],
    lengths: &[bool; 33],
    address: Address,
    length: u8,
) -> Option<Route>
    requires ascend { Ascend routes.now }
    requires lengths { HasLengths routes.now lengths.now }
    requires length { length ≤ 32 }
    ensures { IsOnly (IsMatch routes.now address length) result }
{
    if !lengths[usize::from(length)] {
        return None;
    }
    let route = find(routes, Prefix::under(address, length)?)?;
    Some(route)
}

/// The route with the longest prefix that contains the address. The lengths that occur are tried,
/// the longest first.
pub fn longest_match(routes: &[Route], lengths: &[bool; 33], address: Address) -> Option<Route>
    requires ascend { Ascend routes.now }
    requires lengths { HasLengths routes.now lengths.now }
    ensures { IsOnly (IsLongest routes.now address) result }
{
    let mut length = 33;
    while length > 0 {
        length -= 1;
        match match_of_length(routes, lengths, address, length) {
            Some(route) => return Some(route),
            None => {}
        }
    }
    None
}
