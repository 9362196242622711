//! The first contents of the board.

ghost use Rattle.std.specs.Prelude.{◌≡◌, [], IfOk};
ghost use Rattle.board.specs.Showing.{put_page};

use crate::pages::Pages;
use desk::OwnPage;
use std::alloc::Global;
use std::marker::Model;
use std::sync::Arc;
use terms::{Memory, PatronId};

/// What the board shows before anything is handled: patrons' pages.
#[derive(Drop)]
pub struct First {
    pub(crate) pages: Pages,
    pub(crate) copy: Pages,
}

impl Model for First {
    ghost use Rattle.std.specs.Prelude.{◌≡◌, ℕ, List};
    ghost use Rattle.desk.specs.declared.showing.OwnPage.{OwnPage};

    ghost Value = { List (ℕ × OwnPage) };

    ghost view = { λ f. f.pages };

    ghost invariant = { λ f. f.copy ≡ f.pages };
}

impl First {
    /// Makes an empty set of pages.
    pub fn new(alloc: Global) -> First
        ensures { result ≡ [] }
    {
        First {
            pages: Pages::new(alloc),
            copy: Pages::new(alloc),
        }
    }

    /// Adds a patron's page.
    pub fn with(self, alloc: Global, patron: PatronId, page: OwnPage) -> Result<First, Memory>
        ensures { IfOk result (λ first. first ≡ put_page self patron page) }
    {
        let First {
            mut pages,
            mut copy,
        } = self;
        let page = Arc::new(alloc, page)?;
        pages.put(patron.number(), &page)?;
        copy.put(patron.number(), &page)?;
        Ok(First { pages, copy })
    }
}
