//! Paths of folders (CMIS 1.1, section 2.1.5.3).
ghost use Rattle.std.specs.Prelude.{◌≡◌, ◌++◌, IfOk, string_bytes, codes};
ghost use Rattle.cmis_spec.specs.Repository.{path_by};
ghost use Rattle.cm_folder.specs.Filings.{folder_of, name_in, path_in};

use crate::filing::{Filing, levels};
use cm_base::number::Oid;
use cm_base::text::Text;
use std::alloc::{AllocError, Global};

// The text, and then a slash and a name.
fn with_step(mut text: String, name: &str) -> Result<String, AllocError>
    ensures { IfOk result (λ t. string_bytes t ≡ string_bytes text ++ codes "/" ++ name.now) }
{
    text.push_str("/")?;
    text.push_str(name)?;
    Ok(text)
}

impl Filing {
    // The name of the child's first entry.
    fn name_of(&self, child: Oid) -> &str
        ensures { result.now ≡ name_in self.now child }
    {
        match self.first_entry(child) {
            Some(entry) => entry.name.as_str(),
            None => "",
        }
    }

    // The steps from the root to the folder, each behind a slash.
    fn path_by(&self, alloc: Global, levels: u64, folder: Oid) -> Result<String, AllocError>
        ensures { IfOk result (λ t. string_bytes t ≡ path_by levels (folder_of self.now) (name_in self.now) folder) }
    {
        if levels == 0 || folder.0 == 1 {
            return Ok(String::new(alloc));
        }
        match self.folder_of(folder) {
            Some(above) => {
                let way = self.path_by(alloc, levels - 1, above)?;
                let text = with_step(way, self.name_of(folder))?;
                Ok(text)
            }
            None => {
                let text = with_step(String::new(alloc), self.name_of(folder))?;
                Ok(text)
            }
        }
    }

    /// The path of a folder: the names from the root on, each behind a slash; of the root, a slash.
    pub fn path_of(&self, alloc: Global, folder: Oid) -> Result<Text, AllocError>
        ensures { IfOk result (λ t. t ≡ path_in self.now folder) }
    {
        if folder.0 == 1 {
            return Text::from_str(alloc, "/");
        }
        let text = self.path_by(alloc, levels(), folder)?;
        Ok(Text::from_string(text))
    }
}
