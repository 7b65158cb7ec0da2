//! The lists of a repository by their numbers and places.
ghost use Rattle.std.specs.Prelude.{◌≡◌, IfOk};
ghost use Rattle.std.specs.Option.{option_copied};
ghost use Rattle.cm_state.specs.Told.{object_in, series_in, name_by};

use cm_base::access::AccessList;
use cm_base::content::Content;
use cm_base::number::Oid;
use cm_base::object::Object;
use cm_base::series::Series;
use cm_content::renditions::Renditions;
use cm_link::links::Links;
use cm_log::log::Log;
use cm_map::table::Table;
use cm_objects::objects::Objects;
use std::alloc::{AllocError, Global};

/// What a repository has of each kind, but the filing. A changed list shares with the old one all that stays.
pub struct Lists {
    pub objects: Objects,
    pub series: Table<Series>,
    pub access: Table<AccessList>,
    pub applied: Links,
    pub contents: Table<Content>,
    pub renditions: Renditions,
    pub log: Log,
}

// That the lists go is proved here once, and not at each place where they go.
impl Drop for Lists {
    fn drop(self) {
        let Lists {
            objects: _,
            series: _,
            access: _,
            applied: _,
            contents: _,
            renditions: _,
            log: _,
        } = self;
    }
}

impl Lists {
    /// The same lists once more, by sharing.
    pub fn share(&self, alloc: Global) -> Result<Lists, AllocError>
        ensures { IfOk result (λ s. s ≡ self.now) }
    {
        let objects = self.objects.share(alloc)?;
        let series = self.series.share(alloc)?;
        let access = self.access.share(alloc)?;
        let applied = self.applied.share(alloc)?;
        let contents = self.contents.share(alloc)?;
        let renditions = self.renditions.share(alloc)?;
        let log = self.log.share(alloc)?;
        Ok(Lists {
            objects,
            series,
            access,
            applied,
            contents,
            renditions,
            log,
        })
    }

    /// The object of this number.
    pub fn object(&self, n: Oid) -> Option<&Object>
        ensures { option_copied result ≡ object_in self.now.objects n }
    {
        self.objects.get(n.0)
    }

    /// The series of this number.
    pub fn series(&self, n: Oid) -> Option<&Series>
        ensures { option_copied result ≡ series_in self.now.series n }
    {
        self.series.get(n.0)
    }

    /// The name of a folder, an item or a series.
    pub fn entry_text(&self, n: Oid) -> &str
        ensures { result.now ≡ name_by self.now.series self.now.objects n }
    {
        if let Some(series) = self.series(n) {
            return series.name.as_str();
        }
        if let Some(x) = self.object(n) {
            if let Some(own) = &x.name {
                return own.as_str();
            }
        }
        ""
    }

    /// The lists with these objects.
    pub fn with_objects(self, objects: Objects) -> Lists
        ensures { result ≡ record self { objects = objects } }
    {
        let mut lists = self;
        lists.objects = objects;
        lists
    }

    /// The lists with these series.
    pub fn with_series(self, series: Table<Series>) -> Lists
        ensures { result ≡ record self { series = series } }
    {
        let mut lists = self;
        lists.series = series;
        lists
    }

    /// The lists with these access control lists.
    pub fn with_access(self, access: Table<AccessList>) -> Lists
        ensures { result ≡ record self { access = access } }
    {
        let mut lists = self;
        lists.access = access;
        lists
    }

    /// The lists with these applied policies.
    pub fn with_applied(self, applied: Links) -> Lists
        ensures { result ≡ record self { applied = applied } }
    {
        let mut lists = self;
        lists.applied = applied;
        lists
    }

    /// The lists with these contents.
    pub fn with_contents(self, contents: Table<Content>) -> Lists
        ensures { result ≡ record self { contents = contents } }
    {
        let mut lists = self;
        lists.contents = contents;
        lists
    }

    /// The lists with these renditions.
    pub fn with_renditions(self, renditions: Renditions) -> Lists
        ensures { result ≡ record self { renditions = renditions } }
    {
        let mut lists = self;
        lists.renditions = renditions;
        lists
    }

    /// The lists with this log.
    pub fn with_log(self, log: Log) -> Lists
        ensures { result ≡ record self { log = log } }
    {
        let mut lists = self;
        lists.log = log;
        lists
    }
}
