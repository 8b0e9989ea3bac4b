//! Which tables come close to those that are asked for.

use crate::calls::{check, maps, of_choice, of_tables, of_tables_but};
use blog_choice::{TableChoice, TableName};
use blog_event::Log;
use blog_reasons::{Reason, Reasons};
use sample_logs::builder::{BEGIN, Part, XID, build, map_of};
use std::process::Abort;
use std::test::Fail;

/// Tables of a shop.
const SHOP: [(&[u8], &[u8]); 4] = [
    (b"shop", b"orders"),
    (b"shop", b"items"),
    (b"shop", b"customers"),
    (b"crm", b"visits"),
];

/// Checks what is offered where a table is asked for.
fn check_table(
    rt: &(impl AllocGlobal + Abort),
    log: &[u8],
    name: &str,
    expected: &str,
) -> Result<(), Fail> {
    let tables = [TableName::read(name.as_bytes())];
    check(rt, &[log], &of_tables(&tables), expected)
}

/// Checks what is offered where a database is asked for, and maybe tables.
fn check_database(
    rt: &(impl AllocGlobal + Abort),
    log: &[u8],
    database: &[u8],
    tables: &[TableName<'_>],
    expected: &str,
) -> Result<(), Fail> {
    let wanted = of_choice(TableChoice {
        database: Some(database),
        tables,
        excluded: &[],
    });
    check(rt, &[log], &wanted, expected)
}

#[test]
fn a_misspelt_table_is_found(rt: HostRuntime) -> Result<(), Fail> {
    let log = maps(&rt, &SHOP)?;
    for name in [
        "ordrs", "orderss", "odrers", "Orders", "ORDERS", "ordres", "0rders",
    ] {
        check_table(&rt, &log, name, "no table: shop.orders")?;
    }
    for name in ["invoices", "o", "", "orders.shop"] {
        check_table(&rt, &log, name, "no table:")?;
    }
    check_table(&rt, &log, "orders", "other")
}

#[test]
fn a_name_may_differ_in_a_third_of_its_characters(rt: HostRuntime) -> Result<(), Fail> {
    let log = maps(&rt, &SHOP)?;
    check_table(&rt, &log, "ordxyrs", "no table: shop.orders")?;
    check_table(&rt, &log, "xrdxyrs", "no table:")?;
    check_table(&rt, &log, "itxms", "no table: shop.items")?;
    check_table(&rt, &log, "ixxms", "no table:")
}

#[test]
fn a_schema_is_compared_where_it_is_given(rt: HostRuntime) -> Result<(), Fail> {
    let log = maps(&rt, &SHOP)?;
    check_table(&rt, &log, "shpo.orders", "no table: shop.orders")?;
    check_table(&rt, &log, "shop.ordrs", "no table: shop.orders")?;
    check_table(&rt, &log, "Shop.Orders", "no table: shop.orders")?;
    check_table(&rt, &log, "warehouse.orders", "no table:")
}

#[test]
fn a_misspelt_database_is_found_once(rt: HostRuntime) -> Result<(), Fail> {
    let log = maps(&rt, &SHOP)?;
    check_database(&rt, &log, b"shpo", &[], "no table: shop.orders")?;
    check_database(&rt, &log, b"CRM", &[], "no table: crm.visits")?;
    check_database(&rt, &log, b"warehouse", &[], "no table:")
}

#[test]
fn tables_of_the_database_come_first(rt: HostRuntime) -> Result<(), Fail> {
    let log = maps(
        &rt,
        &[
            (b"old", b"orders"),
            (b"shop", b"orders"),
            (b"shop", b"ordrss"),
        ],
    )?;
    let tables = [TableName::read(b"ordrs")];
    let expected = "no table: shop.orders shop.ordrss old.orders";
    check_database(&rt, &log, b"shop", &tables, expected)?;
    let tables = [TableName::read(b"orders")];
    let expected = "no table: old.orders shop.orders shop.ordrss";
    check_database(&rt, &log, b"new", &tables, expected)
}

#[test]
fn five_are_offered_and_the_nearest_first(rt: HostRuntime) -> Result<(), Fail> {
    let names: [(&[u8], &[u8]); 8] = [
        (b"d", b"ordersxy"),
        (b"d", b"orderxy"),
        (b"d", b"orderz"),
        (b"d", b"order"),
        (b"d", b"oders"),
        (b"d", b"ordersz"),
        (b"d", b"ORDERS"),
        (b"d", b"ordesrs"),
    ];
    let log = maps(&rt, &names)?;
    let expected = "no table: d.ORDERS d.orderz d.order d.oders d.ordersz";
    check_table(&rt, &log, "orders", expected)?;
    let few = maps(&rt, names.get(..4).ok_or("four names")?)?;
    let expected = "no table: d.orderz d.order d.ordersxy d.orderxy";
    check_table(&rt, &few, "orders", expected)
}

#[test]
fn a_table_is_offered_once(rt: HostRuntime) -> Result<(), Fail> {
    let log = maps(
        &rt,
        &[
            (b"d", b"orders"),
            (b"d", b"orders"),
            (b"d", b"order"),
            (b"d", b"orders"),
        ],
    )?;
    let other = maps(&rt, &[(b"e", b"orders"), (b"d", b"orders")])?;
    let tables = [TableName::read(b"ordrs"), TableName::read(b"ordr")];
    let expected = "no table: d.orders d.order e.orders";
    check(&rt, &[&log, &other, &log], &of_tables(&tables), expected)
}

#[test]
fn a_table_that_is_left_out_is_not_offered(rt: HostRuntime) -> Result<(), Fail> {
    let log = maps(&rt, &[(b"d", b"orders"), (b"d", b"order")])?;
    let tables = [TableName::read(b"orders")];
    let excluded = [TableName::read(b"d.orders")];
    let wanted = of_tables_but(&tables, &excluded);
    check(&rt, &[&log], &wanted, "no table: d.order")
}

#[test]
fn a_chosen_table_may_be_in_a_later_log(rt: HostRuntime) -> Result<(), Fail> {
    let log = maps(&rt, &SHOP)?;
    let other = maps(&rt, &[(b"d", b"t"), (b"d", b"ordrs"), (b"d", b"u")])?;
    let tables = [TableName::read(b"ordrs")];
    check(&rt, &[&log, &other], &of_tables(&tables), "other")?;
    check(&rt, &[&other, &log], &of_tables(&tables), "other")?;
    check(&rt, &[&log], &of_tables(&tables), "no table: shop.orders")
}

#[test]
fn names_that_are_no_text_are_handed_out(rt: HostRuntime) -> Result<(), Fail> {
    let name = b"caf\xE9_orders".as_slice();
    let log = maps(&rt, &[(b"d\xFF", name)])?;
    let tables = [TableName::read(b"cafe_orders")];
    let mut reasons = Reasons::new(rt.alloc(), &of_tables(&tables))?;
    reasons.look(&Log::open(&log)?, None, None)?;
    let Reason::NoTable { near } = reasons.reason() else {
        return Err("a table is found".into());
    };
    let first = near.first().ok_or("no near table")?;
    assert!(rt; first.schema() == b"d\xFF".as_slice());
    assert!(rt; first.table() == name);
    assert!(rt; near.len() == 1);
    Ok(())
}

#[test]
fn bodies_that_cannot_be_read_are_left_out(rt: HostRuntime) -> Result<(), Fail> {
    let cut = Part::Other {
        kind: 19,
        flags: 0,
        body: &[1, 0, 0, 0, 0, 0, 1, 0, 4, b's', b'h'],
    };
    let log = build(&rt, &[BEGIN, cut, map_of(1, b"orders"), cut, XID])?;
    check_table(&rt, &log, "order", "no table: d.orders")?;
    check_table(&rt, &log, "orders", "other")
}

#[test]
fn a_log_of_many_tables_is_gone_through(rt: HostRuntime) -> Result<(), Fail> {
    let mut log = build(&rt, &[BEGIN])?;
    for n in 0..3000_u32 {
        let name = format!(in rt.alloc(); "orders_{}", n % 1000)?;
        sample_logs::builder::put(&mut log, &map_of(1, name.as_bytes()))?;
    }
    sample_logs::builder::put(&mut log, &XID)?;
    check_table(
        &rt,
        &log,
        "order_17",
        "no table: d.orders_17 d.orders_1 d.orders_7 d.orders_10 d.orders_11",
    )?;
    check_table(&rt, &log, "orders_999", "other")
}
