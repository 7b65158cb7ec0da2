//! Bytes and texts behind their length.
ghost use Rattle.std.specs.Prelude.{◌≡◌, OnOk};
ghost use Rattle.byte_codec.specs.Codecs.{Codec, Writes, Reads};
ghost use Rattle.byte_codec.specs.Numbers.{bytes, text};
ghost use Rattle.byte_codec.specs.Base.{media};

use crate::coded::Coded;
use crate::numbers::write_number;
use crate::reader::Reader;
use crate::stop::{DecodeStop, EncodeStop};
use cm_base::media::MediaType;
use cm_base::text::Text;
use std::alloc::Global;

/// Puts the length and then the bytes.
#[tactic(auto, unfolding(crate::specs::Numbers::bytes_code))]
pub fn write_bytes(list: &[u8], out: &mut Vec<u8>) -> Result<(), EncodeStop>
    ensures { OnOk result (Writes bytes list.now out.old.items out.new.items) }
{
    write_number(list.len() as u64, out)?;
    out.extend_from_slice(list)?;
    Ok(())
}

/// Puts the length and then the characters.
pub fn write_text(words: &str, out: &mut Vec<u8>) -> Result<(), EncodeStop>
    ensures { OnOk result (Writes text words.now out.old.items out.new.items) }
{
    write_bytes(words.as_bytes(), out)?;
    Ok(())
}

impl<F> Coded<F> for Text {
    ghost codec = { text };

    fn write(&self, out: &mut Vec<u8>) -> Result<(), EncodeStop> {
        write_text(self.as_str(), out)?;
        Ok(())
    }

    fn read(alloc: Global, from: &mut Reader<'_>) -> Result<Text, DecodeStop> {
        match from.text() {
            Some(words) => {
                let text = Text::from_str(alloc, words)?;
                Ok(text)
            }
            None => Err(DecodeStop::NotAnEntry),
        }
    }
}

impl<F> Coded<F> for MediaType {
    ghost codec = { media };

    fn write(&self, out: &mut Vec<u8>) -> Result<(), EncodeStop> {
        write_text(self.as_str(), out)?;
        Ok(())
    }

    fn read(alloc: Global, from: &mut Reader<'_>) -> Result<MediaType, DecodeStop> {
        let text = <Text as Coded<F>>::read(alloc, from)?;
        match MediaType::from_text(text) {
            Some(kind) => Ok(kind),
            None => Err(DecodeStop::NotAnEntry),
        }
    }
}
