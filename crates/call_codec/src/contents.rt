//! Calls: their fields one after the other.
ghost use Rattle.std.specs.Prelude.{OnOk};
ghost use Rattle.byte_codec.specs.Codecs.{Codec, Writes, Reads};
ghost use Rattle.call_codec.specs.Calls.{set_content, append_content, delete_content, add_rendition};

use crate::form::CallForm;
use argument_codec::form::{put_five, put_four, put_three, take};
use byte_codec::coded::Coded;
use byte_codec::reader::Reader;
use byte_codec::stop::{DecodeStop, EncodeStop};
use call_parts::changes::{AppendContent, DeleteContent, SetContent};
use rendition_parts::writes::AddRendition;
use std::alloc::Global;

impl Coded<CallForm> for SetContent {
    ghost codec = { set_content };

    fn write(&self, out: &mut Vec<u8>) -> Result<(), EncodeStop> {
        put_five(
            &self.place,
            &self.succinct,
            &self.overwrite,
            &self.token,
            &self.stream,
            out,
        )?;
        Ok(())
    }

    fn read(alloc: Global, from: &mut Reader<'_>) -> Result<SetContent, DecodeStop> {
        let (place, (succinct, (overwrite, (token, stream)))) = take(alloc, from)?;
        Ok(SetContent {
            place,
            succinct,
            overwrite,
            token,
            stream,
        })
    }
}

impl Coded<CallForm> for AppendContent {
    ghost codec = { append_content };

    fn write(&self, out: &mut Vec<u8>) -> Result<(), EncodeStop> {
        put_four(&self.place, &self.succinct, &self.token, &self.stream, out)?;
        Ok(())
    }

    fn read(alloc: Global, from: &mut Reader<'_>) -> Result<AppendContent, DecodeStop> {
        let (place, (succinct, (token, stream))) = take(alloc, from)?;
        Ok(AppendContent {
            place,
            succinct,
            token,
            stream,
        })
    }
}

impl Coded<CallForm> for DeleteContent {
    ghost codec = { delete_content };

    fn write(&self, out: &mut Vec<u8>) -> Result<(), EncodeStop> {
        put_three(&self.place, &self.succinct, &self.token, out)?;
        Ok(())
    }

    fn read(alloc: Global, from: &mut Reader<'_>) -> Result<DeleteContent, DecodeStop> {
        let (place, (succinct, token)) = take(alloc, from)?;
        Ok(DeleteContent {
            place,
            succinct,
            token,
        })
    }
}

impl Coded<CallForm> for AddRendition {
    ghost codec = { add_rendition };

    fn write(&self, out: &mut Vec<u8>) -> Result<(), EncodeStop> {
        put_five(
            &self.place,
            &self.succinct,
            &self.kind,
            &self.title,
            &self.stream,
            out,
        )?;
        Ok(())
    }

    fn read(alloc: Global, from: &mut Reader<'_>) -> Result<AddRendition, DecodeStop> {
        let (place, (succinct, (kind, (title, stream)))) = take(alloc, from)?;
        Ok(AddRendition {
            place,
            succinct,
            kind,
            title,
            stream,
        })
    }
}
