//! What an event is, the bodies of table maps and rows events, and the images of rows in them.
#![tactic(auto)]

mod column;
mod constants;
mod event_kinds;
mod fault;
mod image;
mod image_walks;
mod kind;
mod laws;
mod layout;
mod names;
mod order;
mod packed;
mod rows;
mod rows_event;
mod rows_parts;
mod same_nulls;
mod steady_nulls;
mod storages;
mod stored_layout;
mod stored_values;
mod table_map;
mod type_tables;
mod typed_walk;
mod values;

pub use event_kinds::{EventKind, event_kind, query_text};
pub use fault::RowFault;
pub use kind::{RowsAction, RowsKind, RowsVersion};
pub use laws::{
    images_stand_alone, reading_is_exact, reversed_rows_have_their_images_from_the_last,
    written_rows_are_read,
};
pub use layout::{Layout, metadata_len};
pub use order::Order;
pub use rows::{RowChange, Rows};
pub use rows_event::{RowsEvent, RowsHead, written_len};
pub use stored_layout::StoredLayout;
pub use stored_values::StoredValues;
pub use table_map::TableMap;
pub use values::Values;
