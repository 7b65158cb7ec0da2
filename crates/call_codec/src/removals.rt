//! Calls: their fields one after the other.
ghost use Rattle.std.specs.Prelude.{OnOk};
ghost use Rattle.byte_codec.specs.Codecs.{Codec, Writes, Reads};
ghost use Rattle.call_codec.specs.Calls.{delete, delete_tree};

use crate::form::CallForm;
use argument_codec::form::{put_three, put_two, take};
use byte_codec::coded::Coded;
use byte_codec::reader::Reader;
use byte_codec::stop::{DecodeStop, EncodeStop};
use call_parts::versions::Delete;
use delete_tree_parts::writes::DeleteTree;
use std::alloc::Global;

impl Coded<CallForm> for Delete {
    ghost codec = { delete };

    fn write(&self, out: &mut Vec<u8>) -> Result<(), EncodeStop> {
        put_two(&self.place, &self.all_versions, out)?;
        Ok(())
    }

    fn read(alloc: Global, from: &mut Reader<'_>) -> Result<Delete, DecodeStop> {
        let (place, all_versions) = take(alloc, from)?;
        Ok(Delete {
            place,
            all_versions,
        })
    }
}

impl Coded<CallForm> for DeleteTree {
    ghost codec = { delete_tree };

    fn write(&self, out: &mut Vec<u8>) -> Result<(), EncodeStop> {
        put_three(
            &self.place,
            &self.unfile_objects,
            &self.continue_on_failure,
            out,
        )?;
        Ok(())
    }

    fn read(alloc: Global, from: &mut Reader<'_>) -> Result<DeleteTree, DecodeStop> {
        let (place, (unfile_objects, continue_on_failure)) = take(alloc, from)?;
        Ok(DeleteTree {
            place,
            unfile_objects,
            continue_on_failure,
        })
    }
}
