//! A page of the children of a folder, written as JSON from the state (CMIS 1.1, section 2.2.3.1).
ghost use Rattle.std.specs.Prelude.{◌≡◌, ◌++◌, ◌∷◌, [], IfOk, OnOk, codes, map};
ghost use Rattle.std.specs.Bool.{OnTrue};
ghost use Rattle.serde_json.specs.Data.{boolean, number, unsigned};
ghost use Rattle.serde_json.specs.Written.{compact_text};
ghost use Rattle.json_text.specs.Build.{list_data};
ghost use Rattle.json_text.specs.Tokens.{each_tokens, field_tokens, fields_tokens, tokens_of};
ghost use Rattle.cm_map.specs.Parts.{pointee};
ghost use Rattle.cm_base.specs.Judged.{Meets};
ghost use Rattle.cmis_spec.specs.Access.{children_of};
ghost use Rattle.cm_types.specs.Types.{base_of};
ghost use Rattle.object_json.specs.Pages.{children_data};
ghost use Rattle.rd_nav.specs.ReadChildren.{answer_children, answer_children_in, page};
ghost use Rattle.show_json.specs.Columns.{answer_text, child_in, children_in, columns_in, counts_before, page_reply};

use crate::column::{Column, columns_of};
use crate::listing::Listing;
use crate::object::write_child;
use crate::sight::base_of;
use bytes::Bytes;
use call_parts::readings::ReadChildren;
use cm_base::cause::Cause;
use cm_base::fail::Fail;
use cm_base::number::Oid;
use cm_base::object::Object;
use cm_base::text::Text;
use cm_see::address::addressed;
use cm_see::child::children_of;
use cm_state::state::State;
use cm_types::definition::BaseType;
use json_text::write::Writer;
use rd_nav::page::{has_more, page};
use std::alloc::{AllocError, Global};

// The columns of an object; those of the next one are the same where its types are.
#[derive(Drop)]
struct Laid<'a> {
    of: &'a Object,
    base: Option<BaseType>,
    columns: Vec<Column<'a>>,
}

#[tactic(auto, using(cmis_laws::proofs::Kept::bytes_true))]
fn has_kind_of(x: &Object, y: &Object) -> bool
    ensures { OnTrue result (x.now.kind ≡ y.now.kind) }
{
    x.kind.is(&y.kind)
}

// Whether both have one type and no secondary types.
fn are_alike(x: &Object, y: &Object) -> bool
    ensures kind { OnTrue result (x.now.kind ≡ y.now.kind) }
    ensures secondary { OnTrue result (x.now.secondary ≡ y.now.secondary) }
{
    has_kind_of(x, y) && x.secondary.len() == 0 && y.secondary.len() == 0
}

fn lay_out<'a>(ask: &Listing<'a>, x: &'a Object) -> Result<Laid<'a>, AllocError>
    ensures own { IfOk result (λ l. l.columns.items ≡ columns_in ask.now l.of.now) }
    ensures of { IfOk result (λ l. l.columns.items ≡ columns_in ask.now x.now) }
    ensures own_base { IfOk result (λ l. l.base ≡ base_of ask.now.repository.types l.of.now.kind) }
    ensures of_base { IfOk result (λ l. l.base ≡ base_of ask.now.repository.types x.now.kind) }
{
    let columns = columns_of(ask.alloc(), ask.state(), &ask.question().filter, x)?;
    let base = base_of(ask.state(), x);
    Ok(Laid {
        of: x,
        base,
        columns,
    })
}

// The columns of x, taken from the object before where they are the same.
fn next_laid<'a>(ask: &Listing<'a>, before: Laid<'a>, x: &'a Object) -> Result<Laid<'a>, AllocError>
    requires own { before.columns.items ≡ columns_in ask.now before.of.now }
    requires own_base { before.base ≡ base_of ask.now.repository.types before.of.now.kind }
    ensures own { IfOk result (λ l. l.columns.items ≡ columns_in ask.now l.of.now) }
    ensures of { IfOk result (λ l. l.columns.items ≡ columns_in ask.now x.now) }
    ensures own_base { IfOk result (λ l. l.base ≡ base_of ask.now.repository.types l.of.now.kind) }
    ensures of_base { IfOk result (λ l. l.base ≡ base_of ask.now.repository.types x.now.kind) }
{
    if are_alike(before.of, x) {
        Ok(before)
    } else {
        let next = lay_out(ask, x)?;
        Ok(next)
    }
}

#[tactic(auto, using(crate::specs::ColumnLaws::child_seen))]
fn write_shown<'a>(
    out: &mut Writer,
    ask: &Listing<'a>,
    x: &'a Object,
    base: Option<BaseType>,
    columns: &[Column],
) -> Result<(), AllocError>
    requires columns { columns.now ≡ columns_in ask.now x.now }
    requires base { base ≡ base_of ask.now.repository.types x.now.kind }
    ensures { OnOk result (out.new ≡ out.old ++ tokens_of (child_in ask.now x.now)) }
{
    let sight = ask.sight(x, base);
    write_child(out, &sight, ask.question().succinct, columns)?;
    Ok(())
}

fn write_next<'a>(
    out: &mut Writer,
    ask: &Listing<'a>,
    before: Laid<'a>,
    x: &'a Object,
) -> Result<Laid<'a>, AllocError>
    requires own { before.columns.items ≡ columns_in ask.now before.of.now }
    requires own_base { before.base ≡ base_of ask.now.repository.types before.of.now.kind }
    ensures own { IfOk result (λ l. l.columns.items ≡ columns_in ask.now l.of.now) }
    ensures own_base { IfOk result (λ l. l.base ≡ base_of ask.now.repository.types l.of.now.kind) }
    ensures written { OnOk result (out.new ≡ out.old ++ tokens_of (child_in ask.now x.now)) }
{
    let next = next_laid(ask, before, x)?;
    write_shown(out, ask, x, next.base, &next.columns)?;
    Ok(next)
}

fn write_behind<'a>(
    out: &mut Writer,
    ask: &Listing<'a>,
    first: Laid<'a>,
    objects: &[&'a Object],
) -> Result<(), AllocError>
    requires own { first.columns.items ≡ columns_in ask.now first.of.now }
    requires own_base { first.base ≡ base_of ask.now.repository.types first.of.now.kind }
    ensures { OnOk result (out.new ≡ out.old ++ each_tokens (children_in ask.now (map pointee objects.now))) }
{
    let mut before = first;
    for x in objects {
        before = write_next(out, ask, before, x)?;
    }
    Ok(())
}

fn write_each<'a>(
    out: &mut Writer,
    ask: &Listing<'a>,
    objects: &[&'a Object],
) -> Result<(), AllocError>
    ensures { OnOk result (out.new ≡ out.old ++ each_tokens (children_in ask.now (map pointee objects.now))) }
{
    match objects {
        [] => Ok(()),
        [x, ..] => {
            let first = lay_out(ask, x)?;
            write_behind(out, ask, first, objects)?;
            Ok(())
        }
    }
}

#[tactic(auto, using(json_text::specs::TokenLaws::array_written))]
fn write_objects<'a>(
    out: &mut Writer,
    ask: &Listing<'a>,
    objects: &[&'a Object],
) -> Result<(), AllocError>
    ensures { OnOk result (out.new ≡ out.old ++ tokens_of (list_data (children_in ask.now (map pointee objects.now)))) }
{
    out.begin_array()?;
    write_each(out, ask, objects)?;
    out.end_array()?;
    Ok(())
}

fn write_more(out: &mut Writer, more: bool) -> Result<(), AllocError>
    ensures { OnOk result (out.new ≡ out.old ++ field_tokens (codes "hasMoreItems", boolean more)) }
{
    out.key("hasMoreItems")?;
    out.flag(more)?;
    Ok(())
}

fn write_count(out: &mut Writer, count: u64) -> Result<(), AllocError>
    ensures { OnOk result (out.new ≡ out.old ++ field_tokens (codes "numItems", number (unsigned count))) }
{
    out.key("numItems")?;
    out.count(count)?;
    Ok(())
}

// What stands before a page's objects.
fn write_counts(out: &mut Writer, more: bool, count: u64) -> Result<(), AllocError>
    ensures { OnOk result (out.new ≡ out.old ++ fields_tokens (counts_before more count)) }
{
    write_more(out, more)?;
    write_count(out, count)?;
    Ok(())
}

fn write_page<'a>(
    out: &mut Writer,
    alloc: Global,
    state: &'a State,
    user: &'a Text,
    q: &'a ReadChildren,
    children: &[&'a Object],
) -> Result<(), AllocError>
    ensures { OnOk result (out.new ≡ out.old
        ++ tokens_of (children_data (page_reply state.now user.now q.now (map pointee children.now)))) }
{
    let shown = page(q.skip_count, q.max_items, children);
    let more = has_more(q.skip_count, q.max_items, children);
    out.begin_object()?;
    write_counts(out, more, children.len() as u64)?;
    out.key("objects")?;
    let ask = Listing::new(alloc, state, user, q);
    write_objects(out, &ask, shown)?;
    out.end_object()?;
    Ok(())
}

fn page_text(
    alloc: Global,
    state: &State,
    user: &Text,
    q: &ReadChildren,
    children: &[&Object],
) -> Result<Bytes, AllocError>
    ensures { IfOk result (λ b. b
        ≡ compact_text (children_data (page_reply state.now user.now q.now (map pointee children.now)))) }
{
    let mut out = Writer::new(alloc);
    write_page(&mut out, alloc, state, user, q, children)?;
    let text = out.into_vec();
    let body = Bytes::from_vec(text)?;
    Ok(body)
}

fn children_in(
    alloc: Global,
    state: &State,
    user: &Text,
    q: &ReadChildren,
    folder: Oid,
) -> Result<Bytes, AllocError>
    ensures { IfOk result (λ b. b
        ≡ compact_text (children_data (page_reply state.now user.now q.now (children_of state.now user.now folder)))) }
{
    let children = children_of(alloc, state, user, folder)?;
    let text = page_text(alloc, state, user, q, &children)?;
    Ok(text)
}

fn children_of_folder(
    alloc: Global,
    state: &State,
    user: &Text,
    q: &ReadChildren,
    x: &Object,
) -> Result<Bytes, Fail>
    ensures { Meets (λ y. y) result (answer_text (answer_children_in state.now user.now q.now x.now)) }
{
    if !state.is_a(BaseType::Folder, x) {
        return Err(Fail::Refused(Cause::WrongKind));
    }
    let text = children_in(alloc, state, user, q, x.id)?;
    Ok(text)
}

/// The text of a page of the children that the caller reads: the compact text of what the reading of children answers.
pub fn children_text(
    alloc: Global,
    state: &State,
    user: &Text,
    q: &ReadChildren,
) -> Result<Bytes, Fail>
    ensures { Meets (λ y. y) result (answer_text (answer_children state.now user.now q.now)) }
{
    match addressed(state, user, &q.place) {
        Some(x) => {
            let text = children_of_folder(alloc, state, user, q, x)?;
            Ok(text)
        }
        None => Err(Fail::Refused(Cause::NotFound)),
    }
}
