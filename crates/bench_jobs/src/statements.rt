//! Transactions as a server writes them with `binlog_format=MIXED`: most as the text of a statement, some as rows.

use crate::events::Events;
use crate::random::Source;
use crate::rows::{Action, Bodies, Sizes};
use crate::shapes::table_of;
use crate::tables::Table;
use std::alloc::{AllocError, Global};

/// What statements are made of.
struct Language {
    /// The name of a schema.
    schema: &'static str,
    /// Names of tables and columns.
    names: [&'static str; 8],
    /// Words of values, as they stand between quotes.
    words: [&'static str; 8],
    /// What is around values.
    quote: &'static str,
}

static LANGUAGES: [Language; 3] = [
    Language {
        schema: "shop",
        names: [
            "orders",
            "customers",
            "name",
            "address",
            "city",
            "price",
            "remark",
            "phone",
        ],
        words: [
            "O\\'Brien",
            "tomorrow",
            "2\\\" pipe",
            "paid",
            "Main Street",
            "third floor",
            "urgent",
            "Springfield",
        ],
        quote: "\"",
    },
    Language {
        schema: "магазин",
        names: [
            "заказы",
            "клиенты",
            "имя",
            "адрес",
            "город",
            "цена",
            "примечание",
            "телефон",
        ],
        words: [
            "Анна",
            "завтра",
            "труба",
            "оплачено",
            "улица Мира",
            "третий этаж",
            "срочно",
            "Москва",
        ],
        quote: "'",
    },
    Language {
        schema: "店",
        names: ["注文", "顧客", "氏名", "住所", "都市", "価格", "備考", "電話番号"],
        words: ["山田", "明日", "二インチの管", "支払い済み", "本町通り", "三階", "至急", "東京都"],
        quote: "'",
    },
];

/// Appends texts.
fn put_texts(out: &mut Vec<u8>, texts: &[&str]) -> Result<(), AllocError> {
    for text in texts {
        out.extend_from_slice(text.as_bytes())?;
    }
    Ok(())
}

impl Language {
    /// The name of a table or a column.
    fn name(&self, source: &mut Source) -> &'static str {
        self.names[source.index(8) % 8]
    }

    /// Appends a value of two to five words.
    fn put_value(&self, source: &mut Source, out: &mut Vec<u8>) -> Result<(), AllocError> {
        put_texts(out, &[self.quote, self.words[source.index(8) % 8]])?;
        for _ in 0..source.index(4).wrapping_add(1) {
            put_texts(out, &[" ", self.words[source.index(8) % 8]])?;
        }
        put_texts(out, &[self.quote])
    }

    /// Appends two values, each after a comma.
    fn put_values(&self, source: &mut Source, out: &mut Vec<u8>) -> Result<(), AllocError> {
        for _ in 0..2 {
            put_texts(out, &[", "])?;
            self.put_value(source, out)?;
        }
        Ok(())
    }
}

/// The text of a statement, but for a number in it.
#[derive(Drop)]
struct Statement {
    /// What is before the number.
    head: Vec<u8>,
    /// What is after it.
    tail: Vec<u8>,
    /// Whether it is outside of transactions.
    is_alone: bool,
}

impl Statement {
    /// An `INSERT` of one to eight rows.
    fn insert(
        alloc: Global,
        source: &mut Source,
        language: &Language,
    ) -> Result<Statement, AllocError> {
        let (mut head, mut tail) = (Vec::new(alloc), Vec::new(alloc));
        put_texts(&mut head, &["INSERT INTO `", language.name(source)])?;
        put_texts(&mut head, &["` (`id`, `", language.name(source)])?;
        put_texts(&mut head, &["`, `", language.name(source), "`) VALUES ("])?;
        language.put_values(source, &mut tail)?;
        for _ in 0..source.index(8) {
            let id = format!(in alloc; "{}", source.below(1_000_000_000))?;
            put_texts(&mut tail, &["), (", id.as_str()])?;
            language.put_values(source, &mut tail)?;
        }
        put_texts(&mut tail, &[")"])?;
        Ok(Statement {
            head,
            tail,
            is_alone: false,
        })
    }

    /// An `UPDATE` of two columns.
    fn update(
        alloc: Global,
        source: &mut Source,
        language: &Language,
    ) -> Result<Statement, AllocError> {
        let mut head = Vec::new(alloc);
        put_texts(&mut head, &["UPDATE `", language.name(source), "` SET"])?;
        for between in [" ", ", "] {
            put_texts(&mut head, &[between, "`", language.name(source), "` = "])?;
            language.put_value(source, &mut head)?;
        }
        put_texts(&mut head, &[" WHERE `id` = "])?;
        Ok(Statement {
            head,
            tail: Vec::new(alloc),
            is_alone: false,
        })
    }

    /// A `CREATE TABLE` of three to nine columns.
    fn create(
        alloc: Global,
        source: &mut Source,
        language: &Language,
    ) -> Result<Statement, AllocError> {
        let (mut head, mut tail) = (Vec::new(alloc), Vec::new(alloc));
        put_texts(&mut head, &["CREATE TABLE `", language.name(source), "_"])?;
        put_texts(&mut tail, &["` (`id` int NOT NULL PRIMARY KEY"])?;
        let columns = source.index(7).wrapping_add(2);
        for name in language.names.iter().take(columns) {
            put_texts(&mut tail, &[",\n  `", *name, "` varchar(80) COMMENT "])?;
            language.put_value(source, &mut tail)?;
        }
        put_texts(&mut tail, &["\n) COMMENT="])?;
        language.put_value(source, &mut tail)?;
        Ok(Statement {
            head,
            tail,
            is_alone: true,
        })
    }

    /// Appends it with a number, as a transaction of its own or outside of transactions.
    fn put(
        &self,
        alloc: Global,
        source: &mut Source,
        events: &mut Events,
        number: u64,
    ) -> Result<(), AllocError> {
        let row = format!(in alloc; "{}", source.below(1_000_000_000))?;
        let text = [self.head.as_slice(), row.as_bytes(), self.tail.as_slice()];
        if self.is_alone {
            events.put_gtid(number)?;
            return events.put_query(7, 0, text);
        }
        events.begin(number, 7)?;
        events.put_query(7, 0, text)?;
        events.end(number)
    }
}

/// Transactions in three languages.
#[derive(Drop)]
pub struct Mixed {
    statements: Vec<Statement>,
    /// Rows events of one row, of tables whose names are in these languages.
    rows: Vec<Bodies>,
}

impl Mixed {
    /// Makes statements and rows events.
    pub fn new(alloc: Global, source: &mut Source, sizes: Sizes) -> Result<Mixed, AllocError> {
        let mut mixed = Mixed {
            statements: Vec::new(alloc),
            rows: Vec::new(alloc),
        };
        for language in &LANGUAGES {
            for number in 0..32 {
                let statement = match number % 8 {
                    0 => Statement::create(alloc, source, language)?,
                    1 | 2 => Statement::update(alloc, source, language)?,
                    _ => Statement::insert(alloc, source, language)?,
                };
                mixed.statements.push(statement)?;
            }
            for number in 0..4 {
                let table = Table {
                    schema: language.schema.as_bytes(),
                    name: language.name(source).as_bytes(),
                    ..table_of(number)
                };
                let bodies = Bodies::new(alloc, source, &table, Action::Insert, sizes)?;
                mixed.rows.push(bodies)?;
            }
        }
        Ok(mixed)
    }

    /// Appends transactions till the log has so many bytes. One of four is of rows.
    pub fn put_transactions(
        &self,
        alloc: Global,
        source: &mut Source,
        events: &mut Events,
        end: usize,
    ) -> Result<(), AllocError> {
        for number in 0..end as u64 {
            if events.len() >= end {
                break;
            }
            if source.below(4) == 0 {
                events.begin(number, 7)?;
                if let Some(bodies) = self.rows.as_slice().get(source.index(self.rows.len())) {
                    bodies.put_statement(source, events, 0)?;
                }
                events.end(number)?;
            } else if let Some(statement) = self
                .statements
                .as_slice()
                .get(source.index(self.statements.len()))
            {
                statement.put(alloc, source, events, number)?;
            }
        }
        Ok(())
    }
}
