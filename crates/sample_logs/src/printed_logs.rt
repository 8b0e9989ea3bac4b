//! What is printed of small logs.

/// What is printed of a log: its changes, those of the log that undoes it, and its summary.
pub struct Printed {
    pub forward: &'static [u8],
    pub backward: &'static [u8],
    pub summary: &'static [u8],
}

pub static OF_TWO_TRANSACTIONS: Printed = Printed {
    forward: b"BEGIN\n### INSERT INTO `d`.`t`\n### SET\n###   @1=X'07000000'\nCOMMIT\nBEGIN\n### DELETE FROM `d`.`t`\n### WHERE\n###   @1=X'08000000'\nCOMMIT\n",
    backward: b"BEGIN\n### INSERT INTO `d`.`t`\n### SET\n###   @1=X'08000000'\nCOMMIT\nBEGIN\n### DELETE FROM `d`.`t`\n### WHERE\n###   @1=X'07000000'\nCOMMIT\n",
    summary: b"transactions 2\nstatements 2\n`d`.`t` inserts 1 updates 0 deletes 1\n",
};

pub static OF_TWO_TABLES: Printed = Printed {
    forward: b"BEGIN\n### INSERT INTO `d`.`t1`\n### SET\n###   @1=X'01000000'\n### INSERT INTO `d`.`t2`\n### SET\n###   @1=X'02000000'\n### INSERT INTO `d`.`t1`\n### SET\n###   @1=X'03000000'\nCOMMIT\n",
    backward: b"BEGIN\n### DELETE FROM `d`.`t1`\n### WHERE\n###   @1=X'03000000'\n### DELETE FROM `d`.`t2`\n### WHERE\n###   @1=X'02000000'\n### DELETE FROM `d`.`t1`\n### WHERE\n###   @1=X'01000000'\nCOMMIT\n",
    summary: b"transactions 1\nstatements 1\n`d`.`t1` inserts 2 updates 0 deletes 0\n`d`.`t2` inserts 1 updates 0 deletes 0\n",
};

pub static OF_NEWER_SERVER: Printed = Printed {
    forward: b"BEGIN\n### INSERT INTO `d`.`t`\n### SET\n###   @1=X'05000000'\nCOMMIT\n",
    backward: b"BEGIN\n### DELETE FROM `d`.`t`\n### WHERE\n###   @1=X'05000000'\nCOMMIT\n",
    summary: b"transactions 1\nstatements 1\n`d`.`t` inserts 1 updates 0 deletes 0\n",
};
