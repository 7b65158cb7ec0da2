//! Printed forms of queries, counted by hand; a printed form is printed as it is.
use cm_base::text::Text;
use ql_laws::{printed_again, says_one_thing};
use ql_parse::parse::parse;
use ql_tree::print::print;
use std::alloc::{AllocError, Global};
use std::test::Fail;

// Whether the printed form of the text's query is this.
fn prints(alloc: Global, text: &str, printed: &str) -> Result<bool, AllocError> {
    match parse(alloc, &Text::from_str(alloc, text)?) {
        Ok(query) => Ok(print(alloc, &query)?.is_str(printed)),
        Err(_) => Ok(false),
    }
}

#[test]
fn a_printed_form_is_printed_as_it_is(rt: HostRuntime) -> Result<(), Fail> {
    let alloc = rt.alloc();
    let cases = [
        "SELECT t . * , a AS b FROM t WHERE ( a = 'x\\'' OR NOT b LIKE '\\%_' ) AND c IN ( -1 , TRUE ) ORDER BY a DESC",
        "SELECT * FROM t WHERE a = TIMESTAMP 'x' AND ( b = 1 AND c = 2 ) AND IN_TREE ( t , '1' )",
    ];
    for text in cases {
        assert!(rt; prints(alloc, text, text)?, "{text}");
    }
    printed_again();
    says_one_thing();
    Ok(())
}

#[test]
fn queries_are_printed_again(rt: HostRuntime) -> Result<(), Fail> {
    let alloc = rt.alloc();
    let cases: [(&str, &str); 5] = [
        (
            "select * from cmis:document where ((cmis:name='d'))",
            "SELECT * FROM cmis:document WHERE cmis:name = 'd'",
        ),
        (
            "select a, b.c x, d.* from t u order by a desc, u.b asc",
            "SELECT a , b . c AS x , d . * FROM t AS u ORDER BY a DESC , u . b",
        ),
        (
            "select * from t where not (a = -1 or b <> 'x\\'y') and c is not null",
            "SELECT * FROM t WHERE NOT ( a = -1 OR b <> 'x\\'y' ) AND c IS NOT NULL",
        ),
        (
            "select * from t where a like 'x\\_%' or any b not in (TRUE, timestamp 'z')",
            "SELECT * FROM t WHERE a LIKE 'x\\_%' OR ANY b NOT IN ( TRUE , TIMESTAMP 'z' )",
        ),
        (
            "select * from t where 1 = any a and in_folder(t, '5') or in_tree('6')",
            "SELECT * FROM t WHERE 1 = ANY a AND IN_FOLDER ( t , '5' ) OR IN_TREE ( '6' )",
        ),
    ];
    for (text, printed) in cases {
        assert!(rt; prints(alloc, text, printed)?, "{text}");
    }
    Ok(())
}
