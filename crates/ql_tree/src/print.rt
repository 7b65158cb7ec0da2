//! The printed form of a query.
ghost use Rattle.std.specs.Prelude.{◌≡◌, [], ◌∷◌, ◌++◌, OnOk, IfOk, Some, if◌then◌else◌, ◌+◌, ◌-◌, ◌*◌, ◌<◌, ◌≤◌};
ghost use Rattle.std.specs.List.{flat_map};
ghost use Rattle.ql_lex.specs.declared.word.Word.TheVariants as words;
ghost use Rattle.ql_lex.specs.declared.token.Kind.TheVariants as kinds;
ghost use Rattle.ql_tree.specs.Printed as printed;

use crate::printer::Printer;
use crate::tree::{Column, Comparison, Cond, Item, Key, Literal, Query, Selection, Table};
use cm_base::items::Items;
use cm_base::text::Text;
use ql_lex::word::Word;
use std::alloc::{AllocError, Global};

fn column(out: &mut Printer, column: &Column) -> Result<(), AllocError>
    ensures { OnOk result (out.new ≡ out.old ++ printed.spaced (printed.column_tokens column.now)) }
{
    if let Some(qualifier) = &column.qualifier {
        out.name(qualifier)?;
        out.word(Word::Dot)?;
    }
    out.name(&column.name)
}

fn alias(out: &mut Printer, alias: &Option<Text>) -> Result<(), AllocError>
    ensures { OnOk result (out.new ≡ out.old ++ printed.spaced (printed.alias_tokens alias.now)) }
{
    match alias {
        Some(name) => {
            out.word(Word::As)?;
            out.name(name)
        }
        None => Ok(()),
    }
}

fn literal(out: &mut Printer, literal: &Literal) -> Result<(), AllocError>
    ensures { OnOk result (out.new ≡ out.old ++ printed.spaced (printed.literal_tokens literal.now)) }
{
    match literal {
        Literal::Words(text) => out.quoted(text),
        Literal::Whole(digits) => out.number(digits),
        Literal::Flag(flag) => out.word(if *flag { Word::True } else { Word::False }),
        Literal::Time(time) => {
            out.word(Word::Timestamp)?;
            out.quoted(&time.text)
        }
    }
}

fn comparison_word(by: Comparison) -> Word
    ensures { result ≡ printed.comparison_word by }
{
    match by {
        Comparison::Equal => Word::Equal,
        Comparison::NotEqual => Word::NotEqual,
        Comparison::Less => Word::Less,
        Comparison::Greater => Word::Greater,
        Comparison::LessEqual => Word::LessEqual,
        Comparison::GreaterEqual => Word::GreaterEqual,
    }
}

fn negation(out: &mut Printer, negated: bool) -> Result<(), AllocError>
    ensures { OnOk result (out.new ≡ out.old ++ printed.spaced (printed.negation negated)) }
{
    if negated { out.word(Word::Not) } else { Ok(()) }
}

fn more_literals(out: &mut Printer, xs: &[Literal]) -> Result<(), AllocError>
    ensures { OnOk result (out.new ≡ out.old
        ++ printed.spaced (flat_map (λ x. printed.word words.Comma ++ printed.literal_tokens x) xs.now)) }
{
    for x in xs {
        out.word(Word::Comma)?;
        literal(out, x)?;
    }
    Ok(())
}

fn literals(out: &mut Printer, xs: &[Literal]) -> Result<(), AllocError>
    ensures { OnOk result (out.new ≡ out.old ++ printed.spaced (printed.separated printed.literal_tokens xs.now)) }
{
    match xs {
        [] => Ok(()),
        [x, rest @ ..] => {
            literal(out, x)?;
            more_literals(out, rest)
        }
    }
}

/// `[NOT] IN (literal, ..)`
fn in_list(out: &mut Printer, negated: bool, xs: &Items<Literal>) -> Result<(), AllocError>
    ensures { OnOk result (out.new ≡ out.old ++ printed.spaced (printed.in_tokens negated xs.now)) }
{
    negation(out, negated)?;
    out.word(Word::In)?;
    out.word(Word::Open)?;
    literals(out, xs.as_slice())?;
    out.word(Word::Close)
}

/// `([name,] text)`
fn place(out: &mut Printer, table: &Option<Text>, text: &Text) -> Result<(), AllocError>
    ensures { OnOk result (out.new ≡ out.old ++ printed.spaced (printed.place_tokens table.now text.now)) }
{
    match table {
        None => {
            out.word(Word::Open)?;
            out.quoted(text)?;
            out.word(Word::Close)
        }
        Some(name) => {
            out.word(Word::Open)?;
            out.name(name)?;
            out.word(Word::Comma)?;
            out.quoted(text)?;
            out.word(Word::Close)
        }
    }
}

fn compare(out: &mut Printer, c: &Column, by: Comparison, x: &Literal) -> Result<(), AllocError>
    ensures { OnOk result (out.new ≡ out.old
        ++ printed.spaced (printed.column_tokens c.now
        ++ (printed.word (printed.comparison_word by) ++ printed.literal_tokens x.now))) }
{
    column(out, c)?;
    out.word(comparison_word(by))?;
    literal(out, x)
}

fn equal_any(out: &mut Printer, x: &Literal, c: &Column) -> Result<(), AllocError>
    ensures { OnOk result (out.new ≡ out.old
        ++ printed.spaced (printed.literal_tokens x.now
        ++ (printed.word words.Equal ++ (printed.word words.Any ++ printed.column_tokens c.now)))) }
{
    literal(out, x)?;
    out.word(Word::Equal)?;
    out.word(Word::Any)?;
    column(out, c)
}

fn like(out: &mut Printer, c: &Column, negated: bool, text: &Text) -> Result<(), AllocError>
    ensures { OnOk result (out.new ≡ out.old
        ++ printed.spaced (printed.column_tokens c.now
        ++ (printed.negation negated ++ (printed.word words.Like ++ (kinds.Quoted text.now ∷ []))))) }
{
    column(out, c)?;
    negation(out, negated)?;
    out.word(Word::Like)?;
    out.kept(text)
}

fn null(out: &mut Printer, c: &Column, negated: bool) -> Result<(), AllocError>
    ensures { OnOk result (out.new ≡ out.old
        ++ printed.spaced (printed.column_tokens c.now
        ++ (printed.word words.Is ++ (printed.negation negated ++ printed.word words.Null)))) }
{
    column(out, c)?;
    out.word(Word::Is)?;
    negation(out, negated)?;
    out.word(Word::Null)
}

fn open(out: &mut Printer, grouped: bool) -> Result<(), AllocError>
    ensures { OnOk result (out.new ≡ out.old ++ printed.spaced (if grouped then printed.word words.Open else [])) }
{
    if grouped {
        out.word(Word::Open)
    } else {
        Ok(())
    }
}

fn close(out: &mut Printer, grouped: bool) -> Result<(), AllocError>
    ensures { OnOk result (out.new ≡ out.old ++ printed.spaced (if grouped then printed.word words.Close else [])) }
{
    if grouped {
        out.word(Word::Close)
    } else {
        Ok(())
    }
}

/// A condition where its place asks how tightly it binds.
#[tactic(auto, unfolding(crate::specs::Printed::shape))]
fn cond(out: &mut Printer, x: &Cond, at: u8) -> Result<(), AllocError>
    requires { at ≤ 3 }
    ensures { OnOk result (out.new ≡ out.old ++ printed.spaced (printed.placed at (printed.shape x.now))) }
{
    match x {
        Cond::Or(a, b) => {
            open(out, 0 < at)?;
            cond(out, a.get(), 0)?;
            out.word(Word::Or)?;
            cond(out, b.get(), 1)?;
            close(out, 0 < at)
        }
        Cond::And(a, b) => {
            open(out, 1 < at)?;
            cond(out, a.get(), 1)?;
            out.word(Word::And)?;
            cond(out, b.get(), 2)?;
            close(out, 1 < at)
        }
        Cond::Not(a) => {
            open(out, 2 < at)?;
            out.word(Word::Not)?;
            cond(out, a.get(), 3)?;
            close(out, 2 < at)
        }
        Cond::Compare(c, by, x) => compare(out, c, *by, x),
        Cond::EqualAny(x, c) => equal_any(out, x, c),
        Cond::In(c, negated, xs) => {
            column(out, c)?;
            in_list(out, *negated, xs)
        }
        Cond::AnyIn(c, negated, xs) => {
            out.word(Word::Any)?;
            column(out, c)?;
            in_list(out, *negated, xs)
        }
        Cond::Like(c, negated, text) => like(out, c, *negated, text),
        Cond::Null(c, negated) => null(out, c, *negated),
        Cond::InFolder(table, text) => {
            out.word(Word::InFolder)?;
            place(out, table, text)
        }
        Cond::InTree(table, text) => {
            out.word(Word::InTree)?;
            place(out, table, text)
        }
    }
}

fn item(out: &mut Printer, item: &Item) -> Result<(), AllocError>
    ensures { OnOk result (out.new ≡ out.old ++ printed.spaced (printed.item_tokens item.now)) }
{
    match item {
        Item::AllOf(table) => {
            out.name(table)?;
            out.word(Word::Dot)?;
            out.word(Word::Star)
        }
        Item::One(c, name) => {
            column(out, c)?;
            alias(out, name)
        }
    }
}

fn more_items(out: &mut Printer, xs: &[Item]) -> Result<(), AllocError>
    ensures { OnOk result (out.new ≡ out.old
        ++ printed.spaced (flat_map (λ x. printed.word words.Comma ++ printed.item_tokens x) xs.now)) }
{
    for x in xs {
        out.word(Word::Comma)?;
        item(out, x)?;
    }
    Ok(())
}

fn items(out: &mut Printer, xs: &[Item]) -> Result<(), AllocError>
    ensures { OnOk result (out.new ≡ out.old ++ printed.spaced (printed.separated printed.item_tokens xs.now)) }
{
    match xs {
        [] => Ok(()),
        [x, rest @ ..] => {
            item(out, x)?;
            more_items(out, rest)
        }
    }
}

fn selection(out: &mut Printer, list: &Selection) -> Result<(), AllocError>
    ensures { OnOk result (out.new ≡ out.old ++ printed.spaced (printed.selection_tokens list.now)) }
{
    match list {
        Selection::All => out.word(Word::Star),
        Selection::Columns(xs) => items(out, xs.as_slice()),
    }
}

fn table(out: &mut Printer, table: &Table) -> Result<(), AllocError>
    ensures { OnOk result (out.new ≡ out.old ++ printed.spaced (printed.table_tokens table.now)) }
{
    out.name(&table.name)?;
    alias(out, &table.alias)
}

fn filter(out: &mut Printer, filter: &Option<Cond>) -> Result<(), AllocError>
    ensures { OnOk result (out.new ≡ out.old ++ printed.spaced (printed.filter_tokens filter.now)) }
{
    match filter {
        None => Ok(()),
        Some(x) => {
            out.word(Word::Where)?;
            cond(out, x, 0)
        }
    }
}

fn key(out: &mut Printer, key: &Key) -> Result<(), AllocError>
    ensures { OnOk result (out.new ≡ out.old ++ printed.spaced (printed.key_tokens key.now)) }
{
    column(out, &key.column)?;
    if key.descending {
        out.word(Word::Desc)
    } else {
        Ok(())
    }
}

fn more_keys(out: &mut Printer, xs: &[Key]) -> Result<(), AllocError>
    ensures { OnOk result (out.new ≡ out.old
        ++ printed.spaced (flat_map (λ x. printed.word words.Comma ++ printed.key_tokens x) xs.now)) }
{
    for x in xs {
        out.word(Word::Comma)?;
        key(out, x)?;
    }
    Ok(())
}

fn order(out: &mut Printer, xs: &[Key]) -> Result<(), AllocError>
    ensures { OnOk result (out.new ≡ out.old ++ printed.spaced (printed.order_tokens xs.now)) }
{
    match xs {
        [] => Ok(()),
        [x, rest @ ..] => {
            out.word(Word::Order)?;
            out.word(Word::By)?;
            key(out, x)?;
            more_keys(out, rest)
        }
    }
}

/// Prints a query: keywords in capitals, one blank between tokens, AS written, and the fewest parentheses.
pub fn print(alloc: Global, query: &Query) -> Result<Text, AllocError>
    ensures { IfOk result (λ text. text ≡ printed.printed query.now) }
{
    let mut out = Printer::new(alloc, Word::Select)?;
    selection(&mut out, &query.list)?;
    out.word(Word::From)?;
    table(&mut out, &query.table)?;
    filter(&mut out, &query.filter)?;
    order(&mut out, query.keys.as_slice())?;
    Ok(out.into_text())
}
