//! What calls hold.
ghost use Rattle.std.specs.Prelude.{◌≡◌, OnOk};
ghost use Rattle.byte_codec.specs.Codecs.{Codec, Writes, Reads};
ghost use Rattle.argument_codec.specs.Values.{given, ace, stream, identified, object, state, propagation, unfile, propagation_word, propagation_of, unfile_word, unfile_of};

use crate::form::{ArgumentForm, put_four, put_three, put_two, take};
use access_parts::writes::Propagation;
use bulk_parts::writes::ObjectIdAndChangeToken;
use byte_codec::coded::Coded;
use byte_codec::reader::Reader;
use byte_codec::stop::{DecodeStop, EncodeStop};
use byte_codec::texts::write_text;
use call_parts::stream::GivenStream;
use call_parts::writes::AceRequest;
use cm_base::series::VersioningState;
use cm_types::given::Given;
use create_parts::writes::ObjectRequest;
use delete_tree_parts::writes::UnfileObjects;
use std::alloc::Global;

impl Coded<ArgumentForm> for Given {
    ghost codec = { given };

    fn write(&self, out: &mut Vec<u8>) -> Result<(), EncodeStop> {
        put_three(&self.id, &self.texts, &self.several, out)?;
        Ok(())
    }

    fn read(alloc: Global, from: &mut Reader<'_>) -> Result<Given, DecodeStop> {
        let (id, (texts, several)) = take(alloc, from)?;
        Ok(Given { id, texts, several })
    }
}

impl Coded<ArgumentForm> for AceRequest {
    ghost codec = { ace };

    fn write(&self, out: &mut Vec<u8>) -> Result<(), EncodeStop> {
        put_two(&self.principal, &self.permissions, out)?;
        Ok(())
    }

    fn read(alloc: Global, from: &mut Reader<'_>) -> Result<AceRequest, DecodeStop> {
        let (principal, permissions) = take(alloc, from)?;
        Ok(AceRequest {
            principal,
            permissions,
        })
    }
}

impl Coded<ArgumentForm> for GivenStream {
    ghost codec = { stream };

    fn write(&self, out: &mut Vec<u8>) -> Result<(), EncodeStop> {
        put_three(&self.kind, &self.file, &self.pieces, out)?;
        Ok(())
    }

    fn read(alloc: Global, from: &mut Reader<'_>) -> Result<GivenStream, DecodeStop> {
        let (kind, (file, pieces)) = take(alloc, from)?;
        Ok(GivenStream { kind, file, pieces })
    }
}

impl Coded<ArgumentForm> for ObjectIdAndChangeToken {
    ghost codec = { identified };

    fn write(&self, out: &mut Vec<u8>) -> Result<(), EncodeStop> {
        put_two(&self.id, &self.token, out)?;
        Ok(())
    }

    fn read(alloc: Global, from: &mut Reader<'_>) -> Result<ObjectIdAndChangeToken, DecodeStop> {
        let (id, token) = take(alloc, from)?;
        Ok(ObjectIdAndChangeToken { id, token })
    }
}

impl Coded<ArgumentForm> for VersioningState {
    ghost codec = { state };

    fn write(&self, out: &mut Vec<u8>) -> Result<(), EncodeStop> {
        write_text(self.word(), out)?;
        Ok(())
    }

    fn read(_alloc: Global, from: &mut Reader<'_>) -> Result<VersioningState, DecodeStop> {
        match from.text() {
            Some(word) => VersioningState::of_word(word).ok_or(DecodeStop::NotAnEntry),
            None => Err(DecodeStop::NotAnEntry),
        }
    }
}

fn propagation_word(value: Propagation) -> &'static str
    ensures { result.now ≡ propagation_word value }
{
    match value {
        Propagation::RepositoryDetermined => "repositorydetermined",
        Propagation::ObjectOnly => "objectonly",
        Propagation::Propagate => "propagate",
    }
}

fn propagation_of(word: &str) -> Option<Propagation>
    ensures { result ≡ propagation_of word.now }
{
    if word == "repositorydetermined" {
        Some(Propagation::RepositoryDetermined)
    } else if word == "objectonly" {
        Some(Propagation::ObjectOnly)
    } else if word == "propagate" {
        Some(Propagation::Propagate)
    } else {
        None
    }
}

impl Coded<ArgumentForm> for Propagation {
    ghost codec = { propagation };

    fn write(&self, out: &mut Vec<u8>) -> Result<(), EncodeStop> {
        write_text(propagation_word(*self), out)?;
        Ok(())
    }

    fn read(_alloc: Global, from: &mut Reader<'_>) -> Result<Propagation, DecodeStop> {
        match from.text() {
            Some(word) => propagation_of(word).ok_or(DecodeStop::NotAnEntry),
            None => Err(DecodeStop::NotAnEntry),
        }
    }
}

fn unfile_word(value: UnfileObjects) -> &'static str
    ensures { result.now ≡ unfile_word value }
{
    match value {
        UnfileObjects::Unfile => "unfile",
        UnfileObjects::DeleteSingleFiled => "deletesinglefiled",
        UnfileObjects::Delete => "delete",
    }
}

fn unfile_of(word: &str) -> Option<UnfileObjects>
    ensures { result ≡ unfile_of word.now }
{
    if word == "unfile" {
        Some(UnfileObjects::Unfile)
    } else if word == "deletesinglefiled" {
        Some(UnfileObjects::DeleteSingleFiled)
    } else if word == "delete" {
        Some(UnfileObjects::Delete)
    } else {
        None
    }
}

impl Coded<ArgumentForm> for UnfileObjects {
    ghost codec = { unfile };

    fn write(&self, out: &mut Vec<u8>) -> Result<(), EncodeStop> {
        write_text(unfile_word(*self), out)?;
        Ok(())
    }

    fn read(_alloc: Global, from: &mut Reader<'_>) -> Result<UnfileObjects, DecodeStop> {
        match from.text() {
            Some(word) => unfile_of(word).ok_or(DecodeStop::NotAnEntry),
            None => Err(DecodeStop::NotAnEntry),
        }
    }
}

impl Coded<ArgumentForm> for ObjectRequest {
    ghost codec = { object };

    fn write(&self, out: &mut Vec<u8>) -> Result<(), EncodeStop> {
        put_four(
            &self.properties,
            &self.policies,
            &self.add,
            &self.remove,
            out,
        )?;
        Ok(())
    }

    fn read(alloc: Global, from: &mut Reader<'_>) -> Result<ObjectRequest, DecodeStop> {
        let (properties, (policies, (add, remove))) = take(alloc, from)?;
        Ok(ObjectRequest {
            properties,
            policies,
            add,
            remove,
        })
    }
}
