//! What is shown in each form.

use crate::orders::shown;
use blog_show::RowForm;
use std::process::Abort;
use std::test::Fail;

/// Lines for people.
pub(crate) const LINES: &str = "\
238 1970-01-01 00:00:00 INSERT d.t  id=7  n='a\"b,c'  p=63.48  e='y\"z'  b=b'0101'
238 1970-01-01 00:00:00 INSERT d.t  id=8  n=NULL  p=NULL  e=NULL  b=NULL
371 1970-01-01 00:00:00 UPDATE d.t  id=7  n: 'a\"b,c' -> ''  (3 columns unchanged)
";

/// The same as JSON.
pub(crate) const JSON: &str =
    r#"{"log":"b.1","position":238,"time":"1970-01-01 00:00:00","op":"insert","schema":"d","table":"t","before":null,"after":{"id":7,"n":"a\"b,c","p":"63.48","e":"y\"z","b":"0101"}}
{"log":"b.1","position":238,"time":"1970-01-01 00:00:00","op":"insert","schema":"d","table":"t","before":null,"after":{"id":8,"n":null,"p":null,"e":null,"b":null}}
{"log":"b.1","position":371,"time":"1970-01-01 00:00:00","op":"update","schema":"d","table":"t","before":{"id":7,"n":"a\"b,c","p":"63.48","e":"y\"z","b":"0101"},"after":{"id":7,"n":"","p":"63.48","e":"y\"z","b":"0101"}}
"#;

/// The same as CSV.
pub(crate) const CSV: &str = r#"position,time,op,schema,table,id,n,p,e,b
238,1970-01-01 00:00:00,insert,d,t,7,"a""b,c",63.48,"y""z",0101
238,1970-01-01 00:00:00,insert,d,t,8,,,,
371,1970-01-01 00:00:00,update-before,d,t,7,"a""b,c",63.48,"y""z",0101
371,1970-01-01 00:00:00,update-after,d,t,7,"",63.48,"y""z",0101
"#;

/// Checks what is shown in a form.
fn check(rt: &(impl AllocGlobal + Abort), form: RowForm<'_>, expected: &str) -> Result<(), Fail> {
    let text = shown(rt, rt.alloc(), form)??;
    assert_eq!(rt; str::from_utf8(text.as_slice())?, expected);
    Ok(())
}

#[test]
fn rows_are_lines_for_people(rt: HostRuntime) -> Result<(), Fail> {
    check(&rt, RowForm::Lines, LINES)
}

#[test]
fn rows_are_objects_of_json(rt: HostRuntime) -> Result<(), Fail> {
    check(&rt, RowForm::Json { log: b"b.1" }, JSON)
}

#[test]
fn rows_are_lines_of_csv_below_a_head(rt: HostRuntime) -> Result<(), Fail> {
    check(&rt, RowForm::Csv, CSV)
}
