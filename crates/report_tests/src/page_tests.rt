//! Reports as pages.

use crate::sample::{LOGS, count, has_once, small};
use jiff::tz::TimeZone;
use std::alloc::{AllocError, Allocator};
use std::test::Fail;

/// The page of the small report.
fn page<A: Allocator + Copy>(alloc: A) -> Result<Vec<u8, A>, AllocError> {
    let report = small(alloc)?;
    let mut out = Vec::new(alloc);
    report.put_html(&mut out, LOGS.as_slice(), TimeZone::UTC)?;
    Ok(out)
}

#[test]
fn a_page_has_a_beginning_and_an_end(rt: HostRuntime) -> Result<(), Fail> {
    let page = page(rt.alloc())?;
    assert!(rt;
        page.starts_with(b"<!DOCTYPE html>\n<html lang=\"en\">\n<head>\n<meta charset=\"utf-8\">\n")
    );
    assert!(rt; page.ends_with(b"})();\n</script>\n</body>\n</html>\n"));
    assert!(rt;
        has_once(
            &page,
            "<title>Binary log report: binlog.000042 and 1 more</title>"
        )
    );
    assert!(rt;
        has_once(
            &page,
            "<p>Logs: <code>binlog.000042</code> <code>it&#39;s.000043</code></p>"
        )
    );
    Ok(())
}

#[test]
fn a_page_asks_for_nothing(rt: HostRuntime) -> Result<(), Fail> {
    let page = page(rt.alloc())?;
    // the name of SVG's elements alone
    assert!(rt; count(&page, "://") == 1);
    assert!(rt; count(&page, "src=") == 0);
    assert!(rt; count(&page, "href=") == 0);
    assert!(rt; count(&page, "url(") == 0);
    Ok(())
}

#[test]
fn the_totals_of_a_page(rt: HostRuntime) -> Result<(), Fail> {
    let page = page(rt.alloc())?;
    assert!(rt; has_once(&page, "<dt>Transactions</dt><dd>3</dd>"));
    assert!(rt; has_once(&page, "Rows inserted</dt><dd>10</dd>"));
    assert!(rt; has_once(&page, "Rows updated</dt><dd>2</dd>"));
    assert!(rt; has_once(&page, "Rows deleted</dt><dd>8</dd>"));
    assert!(rt; has_once(&page, "be undone</dt><dd>1</dd>"));
    assert!(rt;
        has_once(
            &page,
            "<dt>First</dt><dd class=\"time\">2026-12-01 02:00:00</dd>"
        )
    );
    assert!(rt;
        has_once(
            &page,
            "<dt>Last</dt><dd class=\"time\">2026-12-01 02:00:06</dd>"
        )
    );
    Ok(())
}

#[test]
fn the_names_of_a_page_are_escaped(rt: HostRuntime) -> Result<(), Fail> {
    let page = page(rt.alloc())?;
    let name = "&lt;script&gt;.a&amp;&quot;b&#39;\u{FFFD}";
    assert!(rt; count(&page, name) == 2);
    // the page's data and its script
    assert!(rt; count(&page, "<script") == 2);
    assert!(rt; count(&page, "</script") == 2);
    assert!(rt; count(&page, "a&\"b") == 0);
    Ok(())
}

#[test]
fn the_bars_of_a_page(rt: HostRuntime) -> Result<(), Fail> {
    let page = page(rt.alloc())?;
    assert!(rt; count(&page, "<g><title>") == 3);
    assert!(rt;
        has_once(
            &page,
            "<g><title>2026-12-01 02:00:00: 0 deleted, 0 updated, 10 inserted</title>\
<path class=\"h\" d=\"M0 1000v-1000h.86v1000z\"/><path class=\"i\" d=\"M0 1000v-1000h.86v1000z\"/></g>"
        )
    );
    assert!(rt;
        has_once(
            &page,
            "<g><title>2026-12-01 02:00:04: 7 deleted, 2 updated, 0 inserted</title>\
<path class=\"h\" d=\"M4 1000v-1000h.86v1000z\"/><path class=\"d\" d=\"M4 1000v-700h.86v700z\"/>\
<path class=\"u\" d=\"M4 300v-200h.86v200z\"/></g>"
        )
    );
    assert!(rt;
        has_once(
            &page,
            "],\"bars\":7,\"parts\":[\n[0,0,0,0,10],\n[4,1,7,2,0],\n[5,2,1,0,0]]}</script>\n"
        )
    );
    assert!(rt; has_once(&page, "A bar stands for 1 second."));
    Ok(())
}

#[test]
fn the_tables_of_a_page(rt: HostRuntime) -> Result<(), Fail> {
    let page = page(rt.alloc())?;
    assert!(rt;
        has_once(
            &page,
            "<bdi>shop.orders</bdi></th><td>10</td><td>0</td><td>0</td></tr>"
        )
    );
    assert!(rt;
        has_once(
            &page,
            "<bdi>shop.customers</bdi></th><td>0</td><td>2</td><td>7</td></tr>"
        )
    );
    assert!(rt; has_once(&page, "</bdi></th><td>0</td><td>0</td><td>1</td></tr>"));
    assert!(rt; has_once(&page, "<option value=\"1\">shop.customers</option>"));
    Ok(())
}

#[test]
fn the_commands_of_a_page(rt: HostRuntime) -> Result<(), Fail> {
    let page = page(rt.alloc())?;
    // among the largest, and among the longest
    assert!(rt; count(&page, "<code>binlog show --at 4021 binlog.000042</code>") == 2);
    assert!(rt;
        count(
            &page,
            "<code>binlog undo --at 4021 -r undo.sql binlog.000042</code>"
        ) == 2
    );
    assert!(rt;
        has_once(
            &page,
            "<code>binlog undo --at 5300 -r undo.sql binlog.000042</code>"
        )
    );
    assert!(rt;
        count(
            &page,
            "<code>binlog undo --at 157 -r undo.sql &#39;it&#39;\\&#39;&#39;s.000043&#39;</code>"
        ) == 2
    );
    assert!(rt;
        has_once(
            &page,
            "<p class=\"why\">StatementEvent</p>\n<p class=\"command\"><code>binlog show --at 900 "
        )
    );
    assert!(rt; count(&page, "binlog undo --at 900") == 0);
    Ok(())
}
