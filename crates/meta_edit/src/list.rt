//! The pages of an update.

ghost use Rattle.std.specs.Prelude.{◌≡◌, ◌<◌, [], OnOk};
ghost use Rattle.log_format.specs.PendingPages as spec;
ghost use Rattle.log_format.specs.PendingPages.{HasOnePageEach, with_page};

use log_format::place_of;
use std::alloc::{AllocError, AllocFailed, Global};
use std::marker::Model;
use vhdx_format::Page;

/// Changed pages, no two of them at one place; seen as the list of them.
#[derive(Drop)]
pub struct Updates {
    pages: Vec<Page>,
}

impl Model for Updates {
    ghost use Rattle.std.specs.Prelude.{List};
    ghost use Rattle.vhdx_format.specs.declared.log_entry.Page.{Page};
    ghost use Rattle.log_format.specs.PendingPages.{HasOnePageEach};

    ghost Value = { List Page };

    ghost view = { λ u. u.pages.items };

    ghost invariant = { λ u. HasOnePageEach u.pages.items };
}

impl Updates {
    // No pages.
    pub(crate) fn new(alloc: Global) -> Updates
        ensures { result ≡ [] }
    {
        Updates {
            pages: Vec::new(alloc),
        }
    }

    /// The pages.
    pub fn as_slice(&self) -> &[Page]
        ensures pages { result.now ≡ self.now }
        ensures apart { HasOnePageEach self.now }
    {
        self.pages.as_slice()
    }

    // Puts a page: in the stead of the one at its place, else behind all.
    pub(crate) fn put(&mut self, page: Page) -> Result<(), AllocFailed<Page>>
        ensures { OnOk result (self.new ≡ with_page self.old page) }
    {
        let i = place_of(self.pages.as_slice(), page.at);
        if i < self.pages.len() {
            self.pages[i] = page;
            Ok(())
        } else {
            self.pages.push(page)
        }
    }
}
