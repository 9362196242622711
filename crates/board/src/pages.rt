//! Patrons' pages.

ghost use Rattle.std.specs.Prelude.{◌≡◌, [], MatchResult, IfOk, option_map};
ghost use Rattle.std.specs.Arc.{arc_value};
ghost use Rattle.board.specs.Showing.{page_at, put_page};

use desk::OwnPage;
use std::alloc::{AllocError, Global};
use std::collections::BTreeMap;
use std::marker::Model;
use std::sync::Arc;
use terms::PatronId;

/// Pages, ordered by patron.
#[derive(Drop)]
pub(crate) struct Pages {
    pages: BTreeMap<u32, Arc<OwnPage, Global>, Global>,
}

impl Model for Pages {
    ghost use Rattle.std.specs.Prelude.{◌≡◌, ℕ, List, map};
    ghost use Rattle.std.specs.Arc.{arc_value};
    ghost use Rattle.desk.specs.declared.showing.OwnPage.{OwnPage};

    ghost Value = { List (ℕ × OwnPage) };

    ghost view = { λ p. map (λ e. (e.0, arc_value e.1)) p.pages.entries };
}

impl Pages {
    /// Makes an empty set of pages.
    pub(crate) fn new(alloc: Global) -> Pages
        ensures { result ≡ [] }
    {
        Pages {
            pages: BTreeMap::new(alloc),
        }
    }

    /// Puts a patron's page, replacing the old one.
    pub(crate) fn put(&mut self, patron: u32, page: &Arc<OwnPage, Global>) -> Result<(), AllocError>
        ensures { MatchResult result
            (λ _. self.new ≡ put_page self.old patron (arc_value page.now))
            (λ _. self.new ≡ self.old) }
    {
        let page = Arc::try_clone(page)?;
        match self.pages.insert(patron, page) {
            Ok(_) => Ok(()),
            Err(_) => Err(AllocError),
        }
    }

    /// Returns a patron's page, if there is one.
    pub(crate) fn page(&self, patron: PatronId) -> Result<Option<Arc<OwnPage, Global>>, AllocError>
        ensures { IfOk result (λ page. option_map arc_value page ≡ page_at self.now patron) }
    {
        match self.pages.get(&patron.number()) {
            Some(page) => Ok(Some(Arc::try_clone(page)?)),
            None => Ok(None),
        }
    }
}
