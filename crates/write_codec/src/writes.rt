//! Writes: which call it is, by its place in the table of writes, and then its fields.
ghost use Rattle.std.specs.Prelude.{◌≡◌, OnOk};
ghost use Rattle.byte_codec.specs.Codecs.{Codec, Writes, Reads};
ghost use Rattle.write_codec.specs.Writes.{call, tag_of, FieldsWritten};

use crate::fields::read_fields;
use crate::form::WriteForm;
use byte_codec::coded::Coded;
use byte_codec::reader::Reader;
use byte_codec::stop::{DecodeStop, EncodeStop};
use call_codec::form::put_call;
use cm_call::write::Write;
use std::alloc::Global;

// Which call it is.
fn tag_of(write: &Write) -> u8
    ensures { result ≡ tag_of write.now }
{
    match write {
        Write::CreateType(_) => 1,
        Write::UpdateType(_) => 2,
        Write::DeleteType(_) => 3,
        Write::CreateDocument(_) => 4,
        Write::CreateDocumentFromSource(_) => 5,
        Write::CreateFolder(_) => 6,
        Write::CreateRelationship(_) => 7,
        Write::CreatePolicy(_) => 8,
        Write::CreateItem(_) => 9,
        Write::Update(_) => 10,
        Write::BulkUpdate(_) => 11,
        Write::SetContent(_) => 12,
        Write::AppendContent(_) => 13,
        Write::DeleteContent(_) => 14,
        Write::AddRendition(_) => 15,
        Write::Delete(_) => 16,
        Write::DeleteTree(_) => 17,
        Write::Move(_) => 18,
        Write::AddToFolder(_) => 19,
        Write::RemoveFromFolder(_) => 20,
        Write::CheckOut(_) => 21,
        Write::CancelCheckOut(_) => 22,
        Write::CheckIn(_) => 23,
        Write::ApplyPolicy(_) => 24,
        Write::RemovePolicy(_) => 25,
        Write::ApplyAcl(_) => 26,
    }
}

// Puts the fields of a call.
fn put_fields(write: &Write, out: &mut Vec<u8>) -> Result<(), EncodeStop>
    ensures { OnOk result (FieldsWritten write.now out.old.items out.new.items) }
{
    match write {
        Write::CreateType(call) => put_call(call, out),
        Write::UpdateType(call) => put_call(call, out),
        Write::DeleteType(call) => put_call(call, out),
        Write::CreateDocument(call) => put_call(call, out),
        Write::CreateDocumentFromSource(call) => put_call(call, out),
        Write::CreateFolder(call) => put_call(call, out),
        Write::CreateRelationship(call) => put_call(call, out),
        Write::CreatePolicy(call) => put_call(call, out),
        Write::CreateItem(call) => put_call(call, out),
        Write::Update(call) => put_call(call, out),
        Write::BulkUpdate(call) => put_call(call, out),
        Write::SetContent(call) => put_call(call, out),
        Write::AppendContent(call) => put_call(call, out),
        Write::DeleteContent(call) => put_call(call, out),
        Write::AddRendition(call) => put_call(call, out),
        Write::Delete(call) => put_call(call, out),
        Write::DeleteTree(call) => put_call(call, out),
        Write::Move(call) => put_call(call, out),
        Write::AddToFolder(call) => put_call(call, out),
        Write::RemoveFromFolder(call) => put_call(call, out),
        Write::CheckOut(call) => put_call(call, out),
        Write::CancelCheckOut(call) => put_call(call, out),
        Write::CheckIn(call) => put_call(call, out),
        Write::ApplyPolicy(call) => put_call(call, out),
        Write::RemovePolicy(call) => put_call(call, out),
        Write::ApplyAcl(call) => put_call(call, out),
    }
}

impl Coded<WriteForm> for Write {
    ghost codec = { call };

    fn write(&self, out: &mut Vec<u8>) -> Result<(), EncodeStop> {
        out.push(tag_of(self))?;
        put_fields(self, out)?;
        Ok(())
    }

    fn read(alloc: Global, from: &mut Reader<'_>) -> Result<Write, DecodeStop> {
        match from.byte() {
            Some(tag) => read_fields(alloc, tag, from),
            None => Err(DecodeStop::NotAnEntry),
        }
    }
}
