//! The searches of patrons and titles.

use crate::asking::title_line;
use crate::patron_page::patron_line;
use crate::searching::Searched;
use sqlite::Alter;
use std::alloc::Global;
use store::Store;
use terms::{Fault, Memory, PatronId, PatronRow, TitleId, TitleRow};

/// The patrons, by their names.
pub(crate) struct PatronsByName;

impl Searched for PatronsByName {
    ghost use Rattle.std.specs.Prelude.{◌≡◌, Some};
    ghost use Rattle.model.specs.Asking.{patrons_search};
    ghost use Rattle.model.specs.Picture.{picture};

    type Row = PatronRow;

    ghost search = { patrons_search };

    ghost number_of = { λ r. r.patron };

    ghost IsRow = { λ r H. (picture H).patrons r.patron ≡ Some r };

    fn number(row: &PatronRow) -> u32 {
        row.patron.number()
    }

    fn text(row: &PatronRow) -> &str {
        row.name.as_str()
    }

    fn line(alloc: Global, row: &PatronRow) -> Result<String, Memory> {
        patron_line(alloc, row)
    }

    fn batch<S: Alter>(
        store: &mut Store<S>,
        alloc: Global,
        after: u32,
    ) -> Result<Vec<PatronRow>, Fault> {
        store.patrons_after(alloc, PatronId::new(after))
    }
}

/// The titles, by their texts.
pub(crate) struct TitlesByText;

impl Searched for TitlesByText {
    ghost use Rattle.std.specs.Prelude.{◌≡◌, Some};
    ghost use Rattle.model.specs.Asking.{titles_search};
    ghost use Rattle.model.specs.Picture.{picture};

    type Row = TitleRow;

    ghost search = { titles_search };

    ghost number_of = { λ r. r.title };

    ghost IsRow = { λ r H. (picture H).titles r.title ≡ Some r };

    fn number(row: &TitleRow) -> u32 {
        row.title.number()
    }

    fn text(row: &TitleRow) -> &str {
        row.text.as_str()
    }

    fn line(alloc: Global, row: &TitleRow) -> Result<String, Memory> {
        title_line(alloc, row)
    }

    fn batch<S: Alter>(
        store: &mut Store<S>,
        alloc: Global,
        after: u32,
    ) -> Result<Vec<TitleRow>, Fault> {
        store.titles_after(alloc, TitleId::new(after))
    }
}
