ghost use Rattle.std.specs.Prelude.{◌≡◌, ◌<◌, ◌≤◌, ◌++◌, ◌∷◌, [], map, length, slice_get, IfErr, IfOk, OnErr, OnOk};
ghost use Rattle.std.specs.Arc.{arc_value};
ghost use Rattle.std.specs.List.{position_from};
ghost use Rattle.std.specs.Option.{option_copied, IsSome};
ghost use Rattle.std.specs.Str.{bytes_eq};
ghost use Rattle.world_model.specs.Counts.{filled_in};
ghost use Rattle.world_model.specs.Making.{CanBeMade, bare_book, with_all_placed};
ghost use Rattle.world_model.specs.World.{book_replaced};
ghost use Rattle.dimension_ops.specs.ByName.{ReplacesByName};
ghost use Rattle.dimension_ops.specs.Creating.{HavePlaces, IsBookAdded, asked_sheets, book_id};
ghost use Rattle.dimension_ops.specs.Rules.{IsUnlessNoMemory};
ghost use Rattle.dimension_ops.specs.World.{book_with, most_books, opening_book};

use crate::book::Book;
use crate::creating::{Making, made_sheets, put_in};
use crate::rule::{Rule, RuleOr};
use cell_value::{Duplicate, Items, NoMemory, SheetProperties, Text};
use std::alloc::Global;
use std::marker::Model;
use std::sync::Arc;
use world_model::{books_made, replacements_follow};

/// The spreadsheets of a server, in the order in which they were made. A copy shares those that it
/// doesn't write to.
#[derive(Drop)]
pub struct World {
    books: Vec<Arc<Book>>,
}

impl Model for World {
    ghost use Rattle.std.specs.Prelude.{List, ◌≤◌, length, map};
    ghost use Rattle.std.specs.Arc.{arc_value};
    ghost use Rattle.std.specs.Coded.{coded_list};
    ghost use Rattle.world_model.specs.Book.{PlaceBook};
    ghost use Rattle.dimension_ops.specs.Coded.{book_code};
    ghost use Rattle.dimension_ops.specs.World.{AreNumbered, most_books};

    ghost Value = { List PlaceBook };

    ghost coded = { coded_list book_code };

    ghost view = { λ w. map arc_value w.books.items };

    ghost invariant = { λ w. AreNumbered (map arc_value w.books.items) × (length w.books.items ≤ most_books) };
}

impl World {
    /// The one spreadsheet that there is in the beginning: `book1` of `owner`, with one empty sheet `Sheet1` of
    /// 1,000 rows and 26 columns.
    ///
    /// # Errors
    ///
    /// [`NoMemory`] where memory runs out.
    pub fn opening(alloc: Global) -> Result<World, NoMemory>
        ensures { IfOk result (λ world. world ≡ opening_book ∷ []) }
    {
        let mut books = Vec::new(alloc);
        books.push(Arc::new(alloc, Book::opening(alloc)?)?)?;
        Ok(World { books })
    }

    /// Makes a spreadsheet of that title for the owner, behind all others, and gives its id: `book` and its number. Its
    /// sheets are those that [`crate::add_sheet`] would add one after another, each judged, and what isn't given
    /// chosen, beside those before it in the list alone; where none are asked for there is one.
    ///
    /// # Errors
    ///
    /// The first of these rules that is broken, each tried on all sheets before the next one: [`Rule::BadRange`] where
    /// a place is above the number of sheets before it, [`Rule::IdTaken`], [`Rule::BadName`], [`Rule::NameTaken`],
    /// [`Rule::LastLine`] where one would have no row or no column, [`Rule::LastSheet`] where all would be hidden, and
    /// [`Rule::PastLimit`] of books, sheets, rows, columns or cells; or [`RuleOr::NoMemory`]. The spreadsheets are as
    /// they were.
    pub fn add_book(
        &mut self,
        owner: &str,
        title: &str,
        sheets: &Items<SheetProperties>,
    ) -> Result<Text, RuleOr>
        ensures added { IsUnlessNoMemory
            (IsBookAdded owner.now title.now (asked_sheets sheets.now) self.old self.new) result }
        ensures unchanged { OnErr result (self.new ≡ self.old) }
    {
        let alloc = *self.books.allocator();
        if sheets.as_slice().is_empty() {
            self.add_asked(alloc, owner, title, &[ANY_SHEET])
        } else {
            self.add_asked(alloc, owner, title, sheets.as_slice())
        }
    }

    /// Makes a spreadsheet with the sheets that are asked for.
    fn add_asked(
        &mut self,
        alloc: Global,
        owner: &str,
        title: &str,
        asked: &[SheetProperties],
    ) -> Result<Text, RuleOr>
        ensures added { IsUnlessNoMemory (IsBookAdded owner.now title.now asked.now self.old self.new) result }
        ensures unchanged { OnErr result (self.new ≡ self.old) }
    {
        books_made();
        match made_sheets(alloc, self.count(), asked) {
            Ok(making) => {
                let id = self.add_made(alloc, owner, title, &making)?;
                Ok(id)
            }
            Err(refused) => Err(refused),
        }
    }

    /// Makes a spreadsheet with these sheets, and gives its id.
    fn add_made(
        &mut self,
        alloc: Global,
        owner: &str,
        title: &str,
        making: &Making,
    ) -> Result<Text, NoMemory>
        requires can { CanBeMade (bare_book (book_id (length self.old)) title.now owner.now) making.now }
        requires places { HavePlaces making.now }
        requires few { length self.old < most_books }
        ensures id { IfOk result (λ id. id ≡ book_id (length self.old)) }
        ensures added { OnOk result
            (self.new ≡ self.old
            ++ with_all_placed (bare_book (book_id (length self.old)) title.now owner.now) making.now ∷ []) }
        ensures unchanged { OnErr result (self.new ≡ self.old) }
    {
        let others = self.count();
        let book = made_book(alloc, others, owner, title, making)?;
        let id = id_of(alloc, others)?;
        self.push(book)?;
        Ok(id)
    }

    /// How many spreadsheets there are.
    pub fn count(&self) -> u64
        ensures count { result ≡ length self.now }
        ensures within { result ≤ most_books }
    {
        self.books.len() as u64
    }

    /// Puts the spreadsheet behind the others.
    ///
    /// # Errors
    ///
    /// [`NoMemory`] where memory runs out; the world is as it was.
    fn push(&mut self, book: Book) -> Result<(), NoMemory>
        requires numbered { book.id ≡ book_id (length self.old) }
        requires few { length self.old < most_books }
        ensures pushed { OnOk result (self.new ≡ self.old ++ book ∷ []) }
        ensures unchanged { OnErr result (self.new ≡ self.old) }
    {
        match book.shared() {
            Ok(shared) => {
                self.books.push(shared)?;
                Ok(())
            }
            Err((_, fault)) => Err(fault),
        }
    }

    /// The spreadsheet with the id, lent; None where there is none.
    pub fn find(&self, id: &str) -> Option<&Book>
        ensures { option_copied result ≡ book_with id.now self.now }
    {
        match self.books.iter().find(|book| book.id().as_str() == id) {
            Some(book) => Some(book),
            None => None,
        }
    }

    /// The spreadsheet that was made as the one after `at` others, lent; None where there are no more.
    pub fn at(&self, at: u32) -> Option<&Book>
        ensures { option_copied result ≡ slice_get self.now at }
    {
        match self.books.get(at as usize) {
            Some(book) => Some(book),
            None => None,
        }
    }

    /// How many cells are stored in all spreadsheets.
    pub fn filled(&self) -> u64
        ensures { result ≡ filled_in self.now }
    {
        let mut filled = 0;
        for book in &self.books {
            filled += book.filled();
        }
        filled
    }

    /// Puts the spreadsheet in the place of the one that has its id; all others stay.
    ///
    /// # Errors
    ///
    /// The spreadsheet, and [`NoMemory`] where memory runs out for what copies of the world share it by; the
    /// world is as it was.
    pub fn replace(&mut self, book: Book) -> Result<(), (Book, NoMemory)>
        requires there { IsSome (book_with book.id self.old) }
        ensures replaced { OnOk result (self.new ≡ book_replaced book self.old) }
        ensures names { OnOk result (ReplacesByName book self.old self.new) }
        ensures back { IfErr result (λ refused. refused.0 ≡ book) }
        ensures unchanged { OnErr result (self.new ≡ self.old) }
    {
        replacements_follow();
        match book.shared() {
            Ok(shared) => {
                if let Some(place) = book_place(&self.books, shared.id().as_str()) {
                    self.books[place] = shared;
                }
                Ok(())
            }
            Err(refused) => Err(refused),
        }
    }
}

/// A sheet of which nothing is asked.
const ANY_SHEET: SheetProperties = SheetProperties {
    id: None,
    title: None,
    index: None,
    hidden: None,
    rows: None,
    cols: None,
};

/// The id of the spreadsheet that is made as the one after so many others.
fn id_of(alloc: Global, others: u64) -> Result<Text, NoMemory>
    requires { others < 18446744073709551615 }
    ensures { IfOk result (λ id. id ≡ book_id others) }
{
    let number = others + 1;
    let id = format!(in alloc; "book{number}")?;
    Ok(Text::of(id))
}

/// The spreadsheet with these sheets.
fn made_book(
    alloc: Global,
    others: u64,
    owner: &str,
    title: &str,
    making: &Making,
) -> Result<Book, NoMemory>
    requires can { CanBeMade (bare_book (book_id others) title.now owner.now) making.now }
    requires places { HavePlaces making.now }
    requires few { others < 18446744073709551615 }
    ensures { IfOk result (λ book. book ≡ with_all_placed (bare_book (book_id others) title.now owner.now) making.now) }
{
    books_made();
    let sheets = put_in(alloc, making.placed())?;
    let id = id_of(alloc, others)?;
    let called = text_of(alloc, title)?;
    let owned = text_of(alloc, owner)?;
    Book::with_sheets(alloc, id, called, owned, sheets)
}

/// That text.
fn text_of(alloc: Global, text: &str) -> Result<Text, NoMemory>
    ensures { IfOk result (λ made. made ≡ text.now) }
{
    Ok(Text::of(String::from_str(alloc, text)?))
}

/// The place of the spreadsheet with the id among those.
fn book_place(books: &[Arc<Book>], id: &str) -> Option<usize>
    ensures { result ≡ position_from (λ book. bytes_eq book.id id.now) 0 (map arc_value books.now) }
{
    books.iter().position(|book| book.id().as_str() == id)
}

/// The same spreadsheets once more: nothing in them is copied.
fn share(books: &Vec<Arc<Book>>) -> Result<Vec<Arc<Book>>, NoMemory>
    ensures { IfOk result (λ copy. map arc_value copy.items ≡ map arc_value books.now.items) }
{
    let copy = books.clone()?;
    Ok(copy)
}

impl Duplicate for World {
    /// A copy that shares the spreadsheets: no cell is copied.
    fn duplicate(&self) -> Result<World, NoMemory> {
        let books = share(&self.books)?;
        Ok(World { books })
    }
}
