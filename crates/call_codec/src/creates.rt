//! Calls: their fields one after the other.
ghost use Rattle.std.specs.Prelude.{OnOk};
ghost use Rattle.byte_codec.specs.Codecs.{Codec, Writes, Reads};
ghost use Rattle.call_codec.specs.Calls.{create_document, create_from_source, create_folder, create_relationship, create_policy, create_item};

use crate::form::{CallForm, put_call, take_call};
use argument_codec::form::{put, put_four, put_three, put_two, take};
use byte_codec::coded::Coded;
use byte_codec::reader::Reader;
use byte_codec::stop::{DecodeStop, EncodeStop};
use call_parts::versions::CreateDocument;
use call_parts::writes::CreateFolder;
use create_parts::writes::{CreateItem, CreatePolicy, CreateRelationship, ObjectRequest};
use source_parts::writes::CreateDocumentFromSource;
use std::alloc::Global;

impl Coded<CallForm> for CreateDocument {
    ghost codec = { create_document };

    fn write(&self, out: &mut Vec<u8>) -> Result<(), EncodeStop> {
        put_two(&self.place, &self.succinct, out)?;
        put_four(
            &self.properties,
            &self.policies,
            &self.add,
            &self.remove,
            out,
        )?;
        put_two(&self.state, &self.stream, out)?;
        Ok(())
    }

    fn read(alloc: Global, from: &mut Reader<'_>) -> Result<CreateDocument, DecodeStop> {
        let (place, (succinct, (object, (state, stream)))) = take(alloc, from)?;
        let ObjectRequest {
            properties,
            policies,
            remove,
            add,
        } = object;
        Ok(CreateDocument {
            place,
            succinct,
            properties,
            policies,
            add,
            remove,
            state,
            stream,
        })
    }
}

impl Coded<CallForm> for CreateDocumentFromSource {
    ghost codec = { create_from_source };

    fn write(&self, out: &mut Vec<u8>) -> Result<(), EncodeStop> {
        put(&self.source, out)?;
        put_call(&self.document, out)?;
        Ok(())
    }

    fn read(alloc: Global, from: &mut Reader<'_>) -> Result<CreateDocumentFromSource, DecodeStop> {
        let source = take(alloc, from)?;
        let document = take_call(alloc, from)?;
        Ok(CreateDocumentFromSource { source, document })
    }
}

impl Coded<CallForm> for CreateFolder {
    ghost codec = { create_folder };

    fn write(&self, out: &mut Vec<u8>) -> Result<(), EncodeStop> {
        put_two(&self.place, &self.succinct, out)?;
        put_four(
            &self.properties,
            &self.policies,
            &self.add,
            &self.remove,
            out,
        )?;
        Ok(())
    }

    fn read(alloc: Global, from: &mut Reader<'_>) -> Result<CreateFolder, DecodeStop> {
        let (place, (succinct, object)) = take(alloc, from)?;
        let ObjectRequest {
            properties,
            policies,
            remove,
            add,
        } = object;
        Ok(CreateFolder {
            place,
            succinct,
            properties,
            policies,
            add,
            remove,
        })
    }
}

impl Coded<CallForm> for CreateRelationship {
    ghost codec = { create_relationship };

    fn write(&self, out: &mut Vec<u8>) -> Result<(), EncodeStop> {
        put_three(&self.place, &self.succinct, &self.object, out)?;
        Ok(())
    }

    fn read(alloc: Global, from: &mut Reader<'_>) -> Result<CreateRelationship, DecodeStop> {
        let (place, (succinct, object)) = take(alloc, from)?;
        Ok(CreateRelationship {
            place,
            succinct,
            object,
        })
    }
}

impl Coded<CallForm> for CreatePolicy {
    ghost codec = { create_policy };

    fn write(&self, out: &mut Vec<u8>) -> Result<(), EncodeStop> {
        put_three(&self.place, &self.succinct, &self.object, out)?;
        Ok(())
    }

    fn read(alloc: Global, from: &mut Reader<'_>) -> Result<CreatePolicy, DecodeStop> {
        let (place, (succinct, object)) = take(alloc, from)?;
        Ok(CreatePolicy {
            place,
            succinct,
            object,
        })
    }
}

impl Coded<CallForm> for CreateItem {
    ghost codec = { create_item };

    fn write(&self, out: &mut Vec<u8>) -> Result<(), EncodeStop> {
        put_three(&self.place, &self.succinct, &self.object, out)?;
        Ok(())
    }

    fn read(alloc: Global, from: &mut Reader<'_>) -> Result<CreateItem, DecodeStop> {
        let (place, (succinct, object)) = take(alloc, from)?;
        Ok(CreateItem {
            place,
            succinct,
            object,
        })
    }
}
