//! Lists: the number of items, and then each.
ghost use Rattle.std.specs.Prelude.{◌≡◌, OnOk};
ghost use Rattle.byte_codec.specs.Codecs.{Codec, Writes, Reads};
ghost use Rattle.byte_codec.specs.Runs.{list, ItemsWritten, ItemsRead};

use crate::coded::Coded;
use crate::numbers::write_number;
use crate::reader::Reader;
use crate::stop::{DecodeStop, EncodeStop};
use cm_base::items::Items;
use std::alloc::Global;

fn write_items<F, T: Coded<F>>(items: &[T], out: &mut Vec<u8>) -> Result<(), EncodeStop>
    ensures { OnOk result (ItemsWritten T.codec items.now out.old.items out.new.items) }
{
    for item in items {
        item.write(out)?;
    }
    Ok(())
}

fn read_items<F, T: Coded<F> + Drop>(
    alloc: Global,
    count: u64,
    from: &mut Reader<'_>,
) -> Result<Items<T>, DecodeStop>
    ensures { ItemsRead T.codec count result from.old from.new }
{
    let mut items = Items::new(alloc);
    for _ in 0..count {
        let item = T::read(alloc, from)?;
        items.push(item)?;
    }
    Ok(items)
}

impl<F, T: Coded<F> + Drop> Coded<F> for Items<T> {
    ghost codec = { list T.codec };

    fn write(&self, out: &mut Vec<u8>) -> Result<(), EncodeStop> {
        write_number(self.len() as u64, out)?;
        write_items::<F, T>(self.as_slice(), out)
    }

    fn read(alloc: Global, from: &mut Reader<'_>) -> Result<Items<T>, DecodeStop> {
        let Some(count) = from.number() else {
            return Err(DecodeStop::NotAnEntry);
        };
        let items = read_items::<F, T>(alloc, count, from)?;
        Ok(items)
    }
}
