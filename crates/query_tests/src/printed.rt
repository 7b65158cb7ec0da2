//! Where parentheses stand.
use cm_base::items::Items;
use cm_base::text::Text;
use ql_tree::print::print;
use ql_tree::tree::{Column, Cond, Query, Selection, Table};
use sqlite_items::Boxed;
use std::alloc::{AllocError, Global};
use std::test::Fail;

fn name(alloc: Global, text: &str) -> Result<Column, AllocError> {
    Ok(Column {
        qualifier: None,
        name: Text::from_str(alloc, text)?,
    })
}

#[test]
fn parentheses_stand_where_they_must(rt: HostRuntime) -> Result<(), Fail> {
    let alloc = rt.alloc();
    let a = Boxed::new(alloc, Cond::Null(name(alloc, "a")?, false))?;
    let b = Boxed::new(alloc, Cond::Null(name(alloc, "b")?, true))?;
    let either = Boxed::new(alloc, Cond::Or(a, b))?;
    let query = Query {
        list: Selection::All,
        table: Table {
            name: Text::from_str(alloc, "t")?,
            alias: Some(Text::from_str(alloc, "u")?),
        },
        filter: Some(Cond::Not(either)),
        keys: Items::new(alloc),
    };
    let text = print(alloc, &query)?;
    assert_eq!(rt;
        text.as_str(),
        "SELECT * FROM t AS u WHERE NOT ( a IS NULL OR b IS NOT NULL )"
    );
    Ok(())
}
