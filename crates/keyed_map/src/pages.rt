//! A list in pages.
ghost use Rattle.std.specs.Prelude.{◌≡◌, ◌++◌, ◌∷◌, ◌<◌, ◌≤◌, ◌^◌, [], IfOk, OnErr, OnOk, length};
ghost use Rattle.std.specs.Prelude.{slice_set};
ghost use Rattle.std.specs.List.{insert, remove};
ghost use Rattle.keyed_map.specs.Places.{IsPartFrom, joined};

use crate::page::SharedPage;
use crate::places::{gap_of, place_of};
use std::alloc::{AllocError, Global};
use std::marker::Model;

// The most items of one page: many enough that there are few pages to go through, and few enough
// that one is soon copied.
const MOST: usize = 256;

/// A list of items in pages. Copies of the list share the pages, so that they take no room for the
/// items; and an edit makes one page anew, or two, whatever other lists share it.
#[derive(Drop)]
pub struct Pages<T> {
    pages: Vec<SharedPage<T>>,
    // the number of items
    len: usize,
}

impl<T> Model for Pages<T> {
    ghost use Rattle.std.specs.Prelude.{◌≡◌, List, length};
    ghost use Rattle.std.specs.Coded.{coded_list};
    ghost use Rattle.keyed_map.specs.Places.{joined};

    ghost Value = { List T };

    ghost coded = { coded_list T.code };

    ghost view = { λ a. joined a.pages.items };

    ghost invariant = { λ a. a.len ≡ length (joined a.pages.items) };
}

// Adds a page with these items.
fn push_page<T: Drop>(pages: &mut Vec<SharedPage<T>>, items: Vec<T>) -> Result<(), AllocError>
    ensures ok { OnOk result (pages.new.items ≡ pages.old.items ++ items.items ∷ []) }
    ensures err { OnErr result (pages.new.items ≡ pages.old.items) }
{
    let page = SharedPage::new(*pages.allocator(), items)?;
    pages.push(page)?;
    Ok(())
}

impl<T: Copy> Pages<T> {
    /// A list of these items.
    ///
    /// # Errors
    /// `AllocError` if an allocation is refused.
    pub fn from_slice(alloc: Global, items: &[T]) -> Result<Self, AllocError>
        ensures { IfOk result (λ made. made ≡ items.now) }
    {
        let mut pages = Vec::new(alloc);
        let mut done = 0;
        while done < items.len() {
            let count = (items.len() - done).min(MOST);
            let page = Vec::from_slice(alloc, &items[done..done + count])?;
            push_page(&mut pages, page)?;
            done += count;
        }
        Ok(Pages { pages, len: done })
    }

    /// The allocator of the pages.
    pub fn allocator(&self) -> Global {
        *self.pages.allocator()
    }

    /// The same list, which shares the pages.
    ///
    /// # Errors
    /// `AllocError` if an allocation is refused, or a page has as many owners as can be counted.
    pub fn copy(&self) -> Result<Self, AllocError>
        ensures { IfOk result (λ copy. copy ≡ self.now) }
    {
        let mut pages = Vec::with_capacity(*self.pages.allocator(), self.pages.len())?;
        for page in &self.pages {
            let page = page.share()?;
            pages.push(page)?;
        }
        Ok(Pages {
            pages,
            len: self.len,
        })
    }

    /// The items in one piece.
    ///
    /// # Errors
    /// `AllocError` if an allocation is refused.
    pub fn to_vec(&self) -> Result<Vec<T>, AllocError>
        ensures { IfOk result (λ items. items.items ≡ self.now) }
    {
        let mut items = Vec::with_capacity(*self.pages.allocator(), self.len)?;
        for page in &self.pages {
            items.extend_from_slice(page.as_slice())?;
        }
        Ok(items)
    }

    /// The number of items.
    pub fn len(&self) -> usize
        ensures { result ≡ length self.now }
    {
        self.len
    }

    /// The items from this index on, as far as their page goes: at least one, unless there is none.
    pub fn part_from(&self, at: usize) -> &[T]
        ensures { IsPartFrom self.now at result.now }
    {
        match place_of(&self.pages, at) {
            Some((index, within)) => &self.pages[index].as_slice()[within..],
            None => &[],
        }
    }

    /// Replaces the item at this index by another.
    ///
    /// # Errors
    /// `AllocError` if an allocation is refused; the list is then unchanged.
    pub fn replace(&mut self, at: usize, item: T) -> Result<(), AllocError>
        requires { at < length self.old }
        ensures ok { OnOk result (self.new ≡ slice_set self.old at item) }
        ensures err { OnErr result (self.new ≡ self.old) }
    {
        replace_at(&mut self.pages, at, item)?;
        Ok(())
    }

    /// Removes the item at this index.
    ///
    /// # Errors
    /// `AllocError` if an allocation is refused; the list is then unchanged.
    pub fn remove(&mut self, at: usize) -> Result<(), AllocError>
        requires { at < length self.old }
        ensures ok { OnOk result (self.new ≡ remove self.old at) }
        ensures err { OnErr result (self.new ≡ self.old) }
    {
        remove_at(&mut self.pages, at)?;
        self.len -= 1;
        Ok(())
    }

    /// Inserts an item at this index. A page that would have more than 256 items becomes two.
    ///
    /// # Errors
    /// `AllocError` if an allocation is refused, or there are as many items as can be counted; the
    /// list is then unchanged.
    pub fn insert(&mut self, at: usize, item: T) -> Result<(), AllocError>
        requires { at ≤ length self.old }
        ensures ok { OnOk result (self.new ≡ insert self.old at item) }
        ensures err { OnErr result (self.new ≡ self.old) }
    {
        let Some(len) = self.len.checked_add(1) else {
            return Err(AllocError);
        };
        insert_at(&mut self.pages, at, item)?;
        self.len = len;
        Ok(())
    }
}

// Puts these items in place of a page's, as one page.
fn set_page<T: Drop>(
    pages: &mut Vec<SharedPage<T>>,
    index: usize,
    items: Vec<T>,
) -> Result<(), AllocError>
    requires { index < length pages.old.items }
    ensures ok { OnOk result (pages.new.items ≡ slice_set pages.old.items index items.items) }
    ensures err { OnErr result (pages.new.items ≡ pages.old.items) }
{
    let page = SharedPage::new(*pages.allocator(), items)?;
    pages[index] = page;
    Ok(())
}

// The items of a page, with another one at this index.
fn with_other<T: Copy>(alloc: Global, page: &[T], at: usize, item: T) -> Result<Vec<T>, AllocError>
    requires { at < length page.now }
    ensures { IfOk result (λ items. items.items ≡ slice_set page.now at item) }
{
    let mut items = Vec::from_slice(alloc, page)?;
    items[at] = item;
    Ok(items)
}

// Replaces the item at this index of the whole list.
fn replace_at<T: Copy>(pages: &mut Vec<SharedPage<T>>, at: usize, item: T) -> Result<(), AllocError>
    requires { at < length (joined pages.old.items) }
    ensures ok { OnOk result (joined pages.new.items ≡ slice_set (joined pages.old.items) at item) }
    ensures err { OnErr result (pages.new.items ≡ pages.old.items) }
{
    let Some((index, within)) = place_of(pages, at) else {
        unreachable!()
    };
    let items = with_other(*pages.allocator(), pages[index].as_slice(), within, item)?;
    set_page(pages, index, items)
}

// The items of a page without the one at this index.
fn without<T: Copy>(alloc: Global, page: &[T], at: usize) -> Result<Vec<T>, AllocError>
    requires { at < length page.now }
    ensures { IfOk result (λ items. items.items ≡ remove page.now at) }
{
    let mut items = Vec::from_slice(alloc, page)?;
    let _gone = items.remove(at);
    Ok(items)
}

// Removes the item at this index of the whole list, and its page with it if it is alone there.
fn remove_at<T: Copy>(pages: &mut Vec<SharedPage<T>>, at: usize) -> Result<(), AllocError>
    requires { at < length (joined pages.old.items) }
    ensures ok { OnOk result (joined pages.new.items ≡ remove (joined pages.old.items) at) }
    ensures err { OnErr result (pages.new.items ≡ pages.old.items) }
{
    let Some((index, within)) = place_of(pages, at) else {
        unreachable!()
    };
    let page = pages[index].as_slice();
    if page.len() == 1 {
        let _gone = pages.remove(index);
        return Ok(());
    }
    let items = without(*pages.allocator(), page, within)?;
    set_page(pages, index, items)
}

// Inserts an item at this index of the whole list.
fn insert_at<T: Copy>(pages: &mut Vec<SharedPage<T>>, at: usize, item: T) -> Result<(), AllocError>
    requires { at ≤ length (joined pages.old.items) }
    ensures ok { OnOk result (joined pages.new.items ≡ insert (joined pages.old.items) at item) }
    ensures err { OnErr result (pages.new.items ≡ pages.old.items) }
{
    let alloc = *pages.allocator();
    if pages.is_empty() {
        let items = with_item(alloc, &[], 0, item)?;
        return push_page(pages, items);
    }
    let (index, within) = gap_of(pages, at);
    let items = with_item(alloc, pages[index].as_slice(), within, item)?;
    put_page(pages, index, items)
}

// The items of a page, with one more at this index.
fn with_item<T: Copy>(alloc: Global, page: &[T], at: usize, item: T) -> Result<Vec<T>, AllocError>
    requires { at ≤ length page.now }
    ensures { IfOk result (λ items. items.items ≡ insert page.now at item) }
{
    let mut items = Vec::with_capacity(alloc, page.len().saturating_add(1))?;
    items.extend_from_slice(&page[..at])?;
    items.push(item)?;
    items.extend_from_slice(&page[at..])?;
    Ok(items)
}

// Puts these items in place of a page's: as one page, or as two if they are too many.
fn put_page<T: Copy>(
    pages: &mut Vec<SharedPage<T>>,
    index: usize,
    items: Vec<T>,
) -> Result<(), AllocError>
    requires { index < length pages.old.items }
    ensures ok { OnOk result (joined pages.new.items
        ≡ joined (slice_set pages.old.items index items.items)) }
    ensures err { OnErr result (pages.new.items ≡ pages.old.items) }
{
    let alloc = *pages.allocator();
    if items.len() <= MOST {
        let page = SharedPage::new(alloc, items)?;
        pages[index] = page;
        return Ok(());
    }
    let half = items.len() / 2;
    let first = SharedPage::new(alloc, Vec::from_slice(alloc, &items[..half])?)?;
    let second = SharedPage::new(alloc, Vec::from_slice(alloc, &items[half..])?)?;
    pages.insert(index + 1, second)?;
    pages[index] = first;
    Ok(())
}
