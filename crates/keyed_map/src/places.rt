//! Where an item of a list in pages is.
ghost use Rattle.std.specs.Prelude.{◌<◌, ◌≤◌, MatchOption, length};
ghost use Rattle.keyed_map.specs.Places.{IsPlace, IsThere, joined};

use crate::page::SharedPage;

/// The index of the page that has the item at this index of the whole list, and the item's index in
/// that page. `None` if there is no such item.
pub fn place_of<T: Drop>(pages: &[SharedPage<T>], at: usize) -> Option<(usize, usize)>
    ensures { MatchOption result (length (joined pages.now) ≤ at)
        (λ place. IsThere pages.now at place.0 place.1) }
{
    let mut left = at;
    for index in 0..pages.len() {
        let count = pages[index].as_slice().len();
        if left < count {
            return Some((index, left));
        }
        left -= count;
    }
    None
}

/// The page into which an item is inserted that is to have this index of the whole list, and the
/// index in that page. There is a page.
pub fn gap_of<T: Drop>(pages: &[SharedPage<T>], at: usize) -> (usize, usize)
    requires some { 0 < length pages.now }
    requires within { at ≤ length (joined pages.now) }
    ensures { IsPlace pages.now at result.0 result.1 }
{
    let Some(before) = at.checked_sub(1) else {
        return (0, 0);
    };
    match place_of(pages, before) {
        Some((index, within)) => (index, within + 1),
        None => unreachable!(),
    }
}
