//! The fields of a write behind its tag: a reader of its own for each call.
ghost use Rattle.write_codec.specs.Writes.{ReadsBehind};

use byte_codec::reader::Reader;
use byte_codec::stop::DecodeStop;
use call_codec::form::take_call;
use cm_call::write::Write;
use std::alloc::Global;

fn read_create_type(alloc: Global, from: &mut Reader<'_>) -> Result<Write, DecodeStop>
    ensures { ReadsBehind 1 result from.old from.new }
{
    let call = take_call(alloc, from)?;
    Ok(Write::CreateType(call))
}

fn read_update_type(alloc: Global, from: &mut Reader<'_>) -> Result<Write, DecodeStop>
    ensures { ReadsBehind 2 result from.old from.new }
{
    let call = take_call(alloc, from)?;
    Ok(Write::UpdateType(call))
}

fn read_delete_type(alloc: Global, from: &mut Reader<'_>) -> Result<Write, DecodeStop>
    ensures { ReadsBehind 3 result from.old from.new }
{
    let call = take_call(alloc, from)?;
    Ok(Write::DeleteType(call))
}

fn read_create_document(alloc: Global, from: &mut Reader<'_>) -> Result<Write, DecodeStop>
    ensures { ReadsBehind 4 result from.old from.new }
{
    let call = take_call(alloc, from)?;
    Ok(Write::CreateDocument(call))
}

fn read_create_from_source(alloc: Global, from: &mut Reader<'_>) -> Result<Write, DecodeStop>
    ensures { ReadsBehind 5 result from.old from.new }
{
    let call = take_call(alloc, from)?;
    Ok(Write::CreateDocumentFromSource(call))
}

fn read_create_folder(alloc: Global, from: &mut Reader<'_>) -> Result<Write, DecodeStop>
    ensures { ReadsBehind 6 result from.old from.new }
{
    let call = take_call(alloc, from)?;
    Ok(Write::CreateFolder(call))
}

fn read_create_relationship(alloc: Global, from: &mut Reader<'_>) -> Result<Write, DecodeStop>
    ensures { ReadsBehind 7 result from.old from.new }
{
    let call = take_call(alloc, from)?;
    Ok(Write::CreateRelationship(call))
}

fn read_create_policy(alloc: Global, from: &mut Reader<'_>) -> Result<Write, DecodeStop>
    ensures { ReadsBehind 8 result from.old from.new }
{
    let call = take_call(alloc, from)?;
    Ok(Write::CreatePolicy(call))
}

fn read_create_item(alloc: Global, from: &mut Reader<'_>) -> Result<Write, DecodeStop>
    ensures { ReadsBehind 9 result from.old from.new }
{
    let call = take_call(alloc, from)?;
    Ok(Write::CreateItem(call))
}

fn read_update(alloc: Global, from: &mut Reader<'_>) -> Result<Write, DecodeStop>
    ensures { ReadsBehind 10 result from.old from.new }
{
    let call = take_call(alloc, from)?;
    Ok(Write::Update(call))
}

fn read_bulk_update(alloc: Global, from: &mut Reader<'_>) -> Result<Write, DecodeStop>
    ensures { ReadsBehind 11 result from.old from.new }
{
    let call = take_call(alloc, from)?;
    Ok(Write::BulkUpdate(call))
}

fn read_set_content(alloc: Global, from: &mut Reader<'_>) -> Result<Write, DecodeStop>
    ensures { ReadsBehind 12 result from.old from.new }
{
    let call = take_call(alloc, from)?;
    Ok(Write::SetContent(call))
}

fn read_append_content(alloc: Global, from: &mut Reader<'_>) -> Result<Write, DecodeStop>
    ensures { ReadsBehind 13 result from.old from.new }
{
    let call = take_call(alloc, from)?;
    Ok(Write::AppendContent(call))
}

fn read_delete_content(alloc: Global, from: &mut Reader<'_>) -> Result<Write, DecodeStop>
    ensures { ReadsBehind 14 result from.old from.new }
{
    let call = take_call(alloc, from)?;
    Ok(Write::DeleteContent(call))
}

fn read_add_rendition(alloc: Global, from: &mut Reader<'_>) -> Result<Write, DecodeStop>
    ensures { ReadsBehind 15 result from.old from.new }
{
    let call = take_call(alloc, from)?;
    Ok(Write::AddRendition(call))
}

fn read_delete(alloc: Global, from: &mut Reader<'_>) -> Result<Write, DecodeStop>
    ensures { ReadsBehind 16 result from.old from.new }
{
    let call = take_call(alloc, from)?;
    Ok(Write::Delete(call))
}

fn read_delete_tree(alloc: Global, from: &mut Reader<'_>) -> Result<Write, DecodeStop>
    ensures { ReadsBehind 17 result from.old from.new }
{
    let call = take_call(alloc, from)?;
    Ok(Write::DeleteTree(call))
}

fn read_move(alloc: Global, from: &mut Reader<'_>) -> Result<Write, DecodeStop>
    ensures { ReadsBehind 18 result from.old from.new }
{
    let call = take_call(alloc, from)?;
    Ok(Write::Move(call))
}

fn read_add_to_folder(alloc: Global, from: &mut Reader<'_>) -> Result<Write, DecodeStop>
    ensures { ReadsBehind 19 result from.old from.new }
{
    let call = take_call(alloc, from)?;
    Ok(Write::AddToFolder(call))
}

fn read_remove_from_folder(alloc: Global, from: &mut Reader<'_>) -> Result<Write, DecodeStop>
    ensures { ReadsBehind 20 result from.old from.new }
{
    let call = take_call(alloc, from)?;
    Ok(Write::RemoveFromFolder(call))
}

fn read_check_out(alloc: Global, from: &mut Reader<'_>) -> Result<Write, DecodeStop>
    ensures { ReadsBehind 21 result from.old from.new }
{
    let call = take_call(alloc, from)?;
    Ok(Write::CheckOut(call))
}

fn read_cancel_check_out(alloc: Global, from: &mut Reader<'_>) -> Result<Write, DecodeStop>
    ensures { ReadsBehind 22 result from.old from.new }
{
    let call = take_call(alloc, from)?;
    Ok(Write::CancelCheckOut(call))
}

fn read_check_in(alloc: Global, from: &mut Reader<'_>) -> Result<Write, DecodeStop>
    ensures { ReadsBehind 23 result from.old from.new }
{
    let call = take_call(alloc, from)?;
    Ok(Write::CheckIn(call))
}

fn read_apply_policy(alloc: Global, from: &mut Reader<'_>) -> Result<Write, DecodeStop>
    ensures { ReadsBehind 24 result from.old from.new }
{
    let call = take_call(alloc, from)?;
    Ok(Write::ApplyPolicy(call))
}

fn read_remove_policy(alloc: Global, from: &mut Reader<'_>) -> Result<Write, DecodeStop>
    ensures { ReadsBehind 25 result from.old from.new }
{
    let call = take_call(alloc, from)?;
    Ok(Write::RemovePolicy(call))
}

fn read_apply_acl(alloc: Global, from: &mut Reader<'_>) -> Result<Write, DecodeStop>
    ensures { ReadsBehind 26 result from.old from.new }
{
    let call = take_call(alloc, from)?;
    Ok(Write::ApplyAcl(call))
}

// The call of this tag, whose fields stand at the front.
pub(crate) fn read_fields(
    alloc: Global,
    tag: u8,
    from: &mut Reader<'_>,
) -> Result<Write, DecodeStop>
    ensures { ReadsBehind tag result from.old from.new }
{
    match tag {
        1 => read_create_type(alloc, from),
        2 => read_update_type(alloc, from),
        3 => read_delete_type(alloc, from),
        4 => read_create_document(alloc, from),
        5 => read_create_from_source(alloc, from),
        6 => read_create_folder(alloc, from),
        7 => read_create_relationship(alloc, from),
        8 => read_create_policy(alloc, from),
        9 => read_create_item(alloc, from),
        10 => read_update(alloc, from),
        11 => read_bulk_update(alloc, from),
        12 => read_set_content(alloc, from),
        13 => read_append_content(alloc, from),
        14 => read_delete_content(alloc, from),
        15 => read_add_rendition(alloc, from),
        16 => read_delete(alloc, from),
        17 => read_delete_tree(alloc, from),
        18 => read_move(alloc, from),
        19 => read_add_to_folder(alloc, from),
        20 => read_remove_from_folder(alloc, from),
        21 => read_check_out(alloc, from),
        22 => read_cancel_check_out(alloc, from),
        23 => read_check_in(alloc, from),
        24 => read_apply_policy(alloc, from),
        25 => read_remove_policy(alloc, from),
        26 => read_apply_acl(alloc, from),
        _ => Err(DecodeStop::NotAnEntry),
    }
}
