//! Children that get another folder or another name.
ghost use Rattle.std.specs.Prelude.{◌≡◌, IfOk};
ghost use Rattle.cm_base.specs.Judged.{Leaves};
ghost use Rattle.cm_folder.specs.Trees.{IsTree, IsFolderAt};
ghost use Rattle.cm_folder.specs.Filings.{is_name_taken, name_under, refusal_place, refusal_shift, shifted};

use crate::filing::Filing;
use cm_base::cause::Cause;
use cm_base::fail::Fail;
use cm_base::number::Oid;
use cm_base::text::Text;
use std::alloc::Global;

impl Filing {
    // Whether another child of the target has the name of the child in the source.
    fn is_taken_there(&self, alloc: Global, child: Oid, source: Oid, target: Oid) -> bool
        ensures { result ≡ is_name_taken self.now target child (name_under self.now source child) }
    {
        match self.entry_under(source, child) {
            Some(entry) => self.is_taken(target, child, &entry.name),
            None => self.is_taken(target, child, &Text::empty(alloc)),
        }
    }

    // Moves the child into another folder, where nothing speaks against it.
    fn placed(&self, alloc: Global, child: Oid, source: Oid, target: Oid) -> Result<Filing, Fail>
        ensures { Leaves result (refusal_place self.now child source target) (shifted self.now child source target) }
    {
        if self.is_filed(target, child) {
            return Err(Fail::Refused(Cause::AlreadyFiled));
        }
        if self.is_under(target, child) {
            return Err(Fail::Refused(Cause::Below));
        }
        if self.has_deep(child, target) {
            return Err(Fail::Refused(Cause::Deep));
        }
        if self.is_taken_there(alloc, child, source, target) {
            return Err(Fail::Refused(Cause::NameTaken));
        }
        let filing = self.put_in(alloc, child, source, target)?;
        Ok(filing)
    }

    // The filing with the child in the target, or the cause.
    fn shift_judged(
        &self,
        alloc: Global,
        child: Oid,
        source: Oid,
        target: Oid,
    ) -> Result<Filing, Fail>
        ensures { Leaves result (refusal_shift self.now child source target) (shifted self.now child source target) }
    {
        if !self.is_filed(source, child) {
            return Err(Fail::Refused(Cause::NotFiled));
        }
        if source.0 == target.0 {
            let filing = self.share(alloc)?;
            return Ok(filing);
        }
        let filing = self.placed(alloc, child, source, target)?;
        Ok(filing)
    }

    /// Moves a child from one folder to another; onto its own folder it stays.
    ///
    /// It is refused as NotFiled where the child is not in the source, as AlreadyFiled where it is in the target, as Below where the target is the child or stands below it, as Deep where the child or a folder below it would stand more than 48 entries below the root, and as NameTaken where another child of the target has the name.
    pub fn shift(&self, alloc: Global, child: Oid, source: Oid, target: Oid) -> Result<Filing, Fail>
        ensures answer { Leaves result (refusal_shift self.now child source target)
            (shifted self.now child source target) }
        ensures tree { IsTree self.now → IsFolderAt self.now target → IfOk result IsTree }
    {
        let filing = self.shift_judged(alloc, child, source, target);
        filing
    }
}
