//! Small logs, spelled byte by byte, and the answers that the definitions give for them: each by computation.
#![tactic(auto, unfolding(blog_event::specs::Event::event_text, blog_event::specs::Event::event_at, blog_event::specs::File::events_from, blog_event::specs::File::read, blog_event::specs::Format::version_of, blog_event::specs::Format::description_fault, blog_event::specs::Format::format_fault, blog_row::specs::Packed::packed_front, blog_row::specs::Column::column_types, blog_row::specs::Column::metadata_len_of, blog_row::specs::Column::storage_by, blog_row::specs::Column::value_front, blog_row::specs::Image::values_front, blog_row::specs::Image::image_front, blog_row::specs::Image::images_up_to, blog_row::specs::TableMap::name_front, blog_row::specs::TableMap::names_of, blog_row::specs::TableMap::layout_fields, blog_row::specs::TableMap::layout_of, blog_row::specs::RowsEvent::rows_of, blog_row::specs::Kinds::query_text, blog_row::specs::Kinds::query_kind, blog_row::specs::Kinds::kind_of, blog_trans::specs::Acceptance::fault, blog_trans::specs::Groups::placed_groups, blog_trans::specs::Groups::groups, blog_trans::specs::Shown::shown, blog_row::specs::RowsWriting::written_body, blog_flash::specs::Texts::rows_event, blog_flash::specs::Texts::laid_out, blog_flash::specs::Texts::normal_text, blog_flash::specs::Texts::flashback_text))]

ghost use Rattle.std.specs.Prelude.{◌≡◌, ℕ, ◌≤◌, ◌^◌, Some, None, List, [], ◌∷◌, ◌++◌, length, take, drop, slice_set, codes};
ghost use Rattle.blog_event.specs.declared.fault.Fault.TheVariants.{NotABinlog, CutEvent, BadFormat, OldServer, Checksums, NoEventAt, Statement, RolledBack, OutOfPlace, Unended, NoMap, MapClash, PartialImage, UnknownType, BadBody, UnknownEvent, TooLong};
ghost use Rattle.blog_trans.specs.Selection.{Selection, all};
ghost use Rattle.blog_trans.specs.Acceptance.{fault};
ghost use Rattle.blog_trans.specs.Groups.{groups};
ghost use Rattle.blog_trans.specs.Changes.{changes};
ghost use Rattle.blog_flash.specs.States.{inverse_all};
ghost use Rattle.blog_trans.specs.Shown.{shown_positions};
ghost use Rattle.blog_flash.specs.Reversal.{reversed};
ghost use Rattle.blog_flash.specs.Texts.{normal_text, flashback_text};
ghost use Rattle.blog_flash.specs.Printed.{sql_text, summary_text};
ghost use Rattle.blog_examples.specs.MapPositions.{map_positions};
ghost use Rattle.blog_examples.specs.Logs.{no_changes, one_insert, two_inserts, no_rows, two_updates, two_columns, nine_columns, backtick_in_name, two_tables, extra_bytes, map_twice, two_statements, two_transactions};
ghost use Rattle.blog_examples.specs.Surroundings.{map_alone, savepoint_inside, newer_server, longer_format, ignorable_after, drop_after};
ghost use Rattle.blog_examples.specs.Refused.{no_begin, gtid_twice, rotate_after_gtid, commit_after_gtid, short_xid, rollback_inside, one_map_for_two};
ghost use Rattle.blog_examples.specs.Versions.{insert_of_version_1, updates_of_version_1, updates_of_version_1_undone, old_log, lengths_24, lengths_25, old_server};
ghost use Rattle.blog_examples.specs.Written.{two_updates_undone, nine_columns_undone, two_tables_undone, second_table_undone, two_statements_undone, two_transactions_undone, first_transaction_undone, second_transaction_undone, newer_server_undone};
ghost use Rattle.blog_examples.specs.Lines.{two_updates_lines, two_updates_undone_lines, two_columns_undone_lines, nine_columns_lines, backtick_lines, two_transactions_lines, two_tables_undone_lines, no_rows_lines, no_changes_summary, two_inserts_undone_summary, two_updates_summary, two_transactions_summary, two_tables_summary, no_rows_summary};

/// By the definitions these small logs, spelled byte by byte, are accepted, and these logs undo them. A log that differs
/// from a spelled one in a byte or two stands as its edit: with a 32 at 200, `one_insert` is a delete.
pub fn worked_outputs()
    ensures one_insert_accepted { fault one_insert all ≡ None }
    ensures one_insert_undone { flashback_text one_insert all ≡ slice_set one_insert 200 32 }
    ensures no_changes_accepted { fault no_changes all ≡ None }
    ensures no_changes_undone { flashback_text no_changes all ≡ no_changes }
    ensures two_inserts_accepted { fault two_inserts all ≡ None }
    ensures two_inserts_undone { flashback_text two_inserts all ≡ slice_set two_inserts 200 32 }
    ensures no_rows_accepted { fault no_rows all ≡ None }
    ensures no_rows_undone { flashback_text no_rows all ≡ slice_set no_rows 200 32 }
    ensures two_updates_accepted { fault two_updates all ≡ None }
    ensures two_updates_undone { flashback_text two_updates all ≡ two_updates_undone }
    ensures bitmaps_accepted { fault (slice_set two_updates 227 1) all ≡ None }
    ensures bitmaps_undone { flashback_text (slice_set two_updates 227 1) all ≡ slice_set two_updates_undone 226 1 }
    ensures free_bits_accepted { fault (slice_set one_insert 226 1) all ≡ None }
    ensures free_bits_undone { flashback_text (slice_set one_insert 226 1) all ≡ slice_set (slice_set one_insert 226 1) 200 32 }
    ensures timestamps_undone { flashback_text (slice_set (slice_set (slice_set (slice_set one_insert 120 1) 159 2) 196 3) 232 4) all ≡ slice_set (slice_set (slice_set (slice_set (slice_set one_insert 120 1) 159 2) 196 3) 232 4) 200 32 }
    ensures server_ids_undone { flashback_text (slice_set (slice_set (slice_set (slice_set one_insert 125 2) 164 3) 201 4) 237 5) all ≡ slice_set (slice_set (slice_set (slice_set (slice_set one_insert 125 2) 164 3) 201 4) 237 5) 200 32 }
    ensures header_flags_undone { flashback_text (slice_set (slice_set (slice_set (slice_set one_insert 137 8) 176 4) 213 2) 249 1) all ≡ slice_set (slice_set (slice_set (slice_set (slice_set one_insert 137 8) 176 4) 213 2) 249 1) 200 32 }
    ensures format_undone { flashback_text (slice_set (slice_set one_insert 4 6) 17 9) all ≡ slice_set (slice_set (slice_set one_insert 4 6) 17 9) 200 32 }
    ensures rows_flags_undone { flashback_text (slice_set one_insert 221 7) all ≡ slice_set (slice_set one_insert 221 7) 200 32 }
    ensures two_transactions_accepted { fault two_transactions all ≡ None }
    ensures two_transactions_undone { flashback_text two_transactions all ≡ two_transactions_undone }
    ensures backtick_accepted { fault backtick_in_name all ≡ None }
    ensures backtick_undone { flashback_text backtick_in_name all ≡ slice_set backtick_in_name 202 32 }
    ensures two_tables_accepted { fault two_tables all ≡ None }
    ensures two_tables_undone { flashback_text two_tables all ≡ two_tables_undone }
    ensures map_twice_accepted { fault map_twice all ≡ None }
    ensures map_twice_undone { flashback_text map_twice all ≡ slice_set one_insert 200 32 }
    ensures rows_query_outside_accepted { fault (no_changes ++ slice_set (drop 232 one_insert) 4 29) all ≡ None }
    ensures name_in_another_schema_accepted { fault (slice_set (slice_set two_transactions 427 101) 433 7) all ≡ None }
    ensures id_of_another_table_accepted { fault (slice_set two_transactions 430 117) all ≡ None }
    ensures two_statements_accepted { fault two_statements all ≡ None }
    ensures two_statements_undone { flashback_text two_statements all ≡ two_statements_undone }
    ensures two_columns_accepted { fault two_columns all ≡ None }
    ensures two_columns_undone { flashback_text two_columns all ≡ slice_set two_columns 201 30 }
    ensures nine_columns_accepted { fault nine_columns all ≡ None }
    ensures nine_columns_undone { flashback_text nine_columns all ≡ nine_columns_undone }
    ensures extra_bytes_accepted { fault extra_bytes all ≡ None }
    ensures extra_bytes_undone { flashback_text extra_bytes all ≡ two_tables_undone }
    ensures map_alone_accepted { fault map_alone all ≡ None }
    ensures map_alone_undone { flashback_text map_alone all ≡ no_changes }
    ensures savepoint_accepted { fault savepoint_inside all ≡ None }
    ensures savepoint_undone { flashback_text savepoint_inside all ≡ slice_set one_insert 200 32 }
    ensures newer_server_accepted { fault newer_server all ≡ None }
    ensures newer_server_undone { flashback_text newer_server all ≡ newer_server_undone }
    ensures longer_format_accepted { fault longer_format all ≡ None }
    ensures longer_format_undone { flashback_text longer_format all ≡ slice_set longer_format 206 32 }
    ensures ignorable_accepted { fault ignorable_after all ≡ None }
    ensures ignorable_undone { flashback_text ignorable_after all ≡ slice_set one_insert 200 32 }
{}

/// By the definitions these selections of small logs are accepted, and these logs undo them. What stands at or after the
/// stop isn't looked at, and a table that isn't selected isn't judged.
pub fn worked_selections()
    ensures one_table_accepted { fault two_tables (record all { table = Some (codes "t2") }) ≡ None }
    ensures one_table_undone { flashback_text two_tables (record all { table = Some (codes "t2") }) ≡ second_table_undone }
    ensures from_gtid_accepted { fault two_transactions (record all { start = 316 }) ≡ None }
    ensures from_gtid_undone { flashback_text two_transactions (record all { start = 316 }) ≡ second_transaction_undone }
    ensures from_begin_accepted { fault two_transactions (record all { start = 360 }) ≡ None }
    ensures from_begin_undone { flashback_text two_transactions (record all { start = 360 }) ≡ second_transaction_undone }
    ensures up_to_stop_accepted { fault two_transactions (record all { stop = Some 316 }) ≡ None }
    ensures up_to_stop_undone { flashback_text two_transactions (record all { stop = Some 316 }) ≡ first_transaction_undone }
    ensures before_drop_accepted { fault drop_after (record all { stop = Some 259 }) ≡ None }
    ensures before_drop_undone { flashback_text drop_after (record all { stop = Some 259 }) ≡ slice_set one_insert 200 32 }
    ensures other_database_accepted { fault one_insert (record all { database = Some (codes "e") }) ≡ None }
    ensures other_database_undone { flashback_text one_insert (record all { database = Some (codes "e") }) ≡ no_changes }
    ensures upper_case_accepted { fault one_insert (record all { database = Some (codes "D") }) ≡ None }
    ensures upper_case_undone { flashback_text one_insert (record all { database = Some (codes "D") }) ≡ no_changes }
    ensures type_unjudged_accepted { fault (slice_set one_insert 193 6) (record all { database = Some (codes "e") }) ≡ None }
    ensures type_unjudged_undone { flashback_text (slice_set one_insert 193 6) (record all { database = Some (codes "e") }) ≡ no_changes }
    ensures from_end_accepted { fault one_insert (record all { start = 259 }) ≡ None }
    ensures from_end_undone { flashback_text one_insert (record all { start = 259 }) ≡ no_changes }
    ensures from_zero_accepted { fault one_insert (record all { start = 0 }) ≡ None }
    ensures from_zero_undone { flashback_text one_insert (record all { start = 0 }) ≡ slice_set one_insert 200 32 }
    ensures start_past_stop_accepted { fault one_insert (record all { start = 160; stop = Some 100 }) ≡ None }
    ensures start_inside_past_stop_accepted { fault one_insert (record all { start = 110; stop = Some 100 }) ≡ None }
    ensures start_past_end_past_stop_accepted { fault one_insert (record all { start = 300; stop = Some 100 }) ≡ None }
    ensures start_past_stop_undone { flashback_text one_insert (record all { start = 160; stop = Some 100 }) ≡ no_changes }
{}

/// By the definitions these are the answers where the start or the stop lies inside the event at 4 of a small log or
/// before it, and where a rest that is no event follows the last event. At the stop or past it neither is looked at.
pub fn worked_starts()
    ensures start_inside_first { fault one_insert (record all { start = 60 }) ≡ Some (NoEventAt 60) }
    ensures start_at_last_byte_of_first { fault one_insert (record all { start = 119 }) ≡ Some (NoEventAt 119) }
    ensures start_inside_below_stop { fault one_insert (record all { start = 60; stop = Some 61 }) ≡ Some (NoEventAt 60) }
    ensures start_inside_at_stop_accepted { fault one_insert (record all { start = 60; stop = Some 60 }) ≡ None }
    ensures start_inside_at_stop_undone { flashback_text one_insert (record all { start = 60; stop = Some 60 }) ≡ no_changes }
    ensures stop_inside_first_accepted { fault one_insert (record all { stop = Some 60 }) ≡ None }
    ensures stop_inside_first_undone { flashback_text one_insert (record all { stop = Some 60 }) ≡ no_changes }
    ensures stop_at_zero_accepted { fault one_insert (record all { stop = Some 0 }) ≡ None }
    ensures stop_at_zero_undone { flashback_text one_insert (record all { stop = Some 0 }) ≡ no_changes }
    ensures from_three_accepted { fault one_insert (record all { start = 3 }) ≡ None }
    ensures from_three_undone { flashback_text one_insert (record all { start = 3 }) ≡ slice_set one_insert 200 32 }
    ensures rest_below_stop { fault (one_insert ++ 7 ∷ []) (record all { stop = Some 260 }) ≡ Some (CutEvent 259) }
    ensures rest_at_stop_accepted { fault (one_insert ++ 7 ∷ []) (record all { stop = Some 259 }) ≡ None }
    ensures rest_at_stop_undone { flashback_text (one_insert ++ 7 ∷ []) (record all { stop = Some 259 }) ≡ slice_set one_insert 200 32 }
{}

/// By the definitions rows events of version 1 are undone as such, and logs of servers before 5.6.1 are accepted, whatever
/// stands behind the 25th post-header length of their format description.
pub fn worked_versions()
    ensures insert_accepted { fault insert_of_version_1 all ≡ None }
    ensures insert_undone { flashback_text insert_of_version_1 all ≡ slice_set insert_of_version_1 200 25 }
    ensures insert_normal { normal_text insert_of_version_1 all ≡ insert_of_version_1 }
    ensures updates_accepted { fault updates_of_version_1 all ≡ None }
    ensures updates_undone { flashback_text updates_of_version_1 all ≡ updates_of_version_1_undone }
    ensures updates_undone_twice { flashback_text updates_of_version_1_undone all ≡ updates_of_version_1 }
    ensures length_unread_accepted { fault (slice_set one_insert 102 10) all ≡ None }
    ensures old_server_accepted { fault old_server all ≡ None }
    ensures old_server_undone { flashback_text old_server all ≡ slice_set old_server 187 25 }
    ensures old_server_normal { normal_text old_server all ≡ old_server }
    ensures lengths_25_accepted { fault (old_log 101 lengths_25) all ≡ None }
    ensures lengths_25_undone { flashback_text (old_log 101 lengths_25) all ≡ slice_set (slice_set (slice_set (slice_set (slice_set (old_log 101 lengths_25) 118 144) 157 181) 194 215) 228 242) 185 25 }
    ensures version_5_6_0_accepted { fault (take 25 one_insert ++ codes "5.6.0" ++ 0 ∷ drop 31 one_insert) all ≡ None }
    ensures version_5_5_62_undone { flashback_text (take 25 one_insert ++ codes "5.5.62" ++ drop 31 one_insert) all ≡ slice_set (take 25 one_insert ++ codes "5.5.62" ++ drop 31 one_insert) 200 32 }
{}

/// By the definitions the groups of these small logs have the events at these positions, and their rows events go by the
/// maps at these. Of two maps of one table id in a statement it is the first.
pub fn worked_groups()
    ensures two_tables_shown { shown_positions two_tables all ≡ 120 ∷ 159 ∷ 197 ∷ 235 ∷ 271 ∷ 307 ∷ 343 ∷ [] }
    ensures two_tables_maps { map_positions two_tables all ≡ 159 ∷ 197 ∷ 159 ∷ [] }
    ensures one_table_shown { shown_positions two_tables (record all { table = Some (codes "t2") }) ≡ 120 ∷ 197 ∷ 271 ∷ 343 ∷ [] }
    ensures map_twice_shown { shown_positions map_twice all ≡ 120 ∷ 159 ∷ 233 ∷ 269 ∷ [] }
    ensures map_twice_maps { map_positions map_twice all ≡ 159 ∷ [] }
    ensures map_alone_shown { shown_positions map_alone all ≡ [] }
{}

/// By the definitions the changes of what undoes these small logs are the inverses of theirs, the last first.
pub fn worked_inverses()
    ensures two_updates_inverse { changes (flashback_text two_updates all) all ≡ inverse_all (changes two_updates all) }
    ensures two_tables_inverse { changes (flashback_text two_tables all) all ≡ inverse_all (changes two_tables all) }
    ensures nine_columns_inverse { changes (flashback_text nine_columns all) all ≡ inverse_all (changes nine_columns all) }
{}

/// By the definitions these small logs have these normal forms. Undoing twice gives the normal form.
pub fn worked_normal_forms()
    ensures one_insert_normal { normal_text one_insert all ≡ one_insert }
    ensures no_changes_normal { normal_text no_changes all ≡ no_changes }
    ensures extra_bytes_normal { normal_text extra_bytes all ≡ two_tables }
    ensures undone_twice { flashback_text (flashback_text extra_bytes all) all ≡ two_tables }
    ensures two_tables_normal { normal_text two_tables all ≡ two_tables }
    ensures nine_columns_normal { normal_text nine_columns all ≡ nine_columns }
    ensures newer_server_normal { normal_text (normal_text newer_server all) all ≡ normal_text newer_server all }
    ensures first_written { normal_text two_transactions_undone (record all { stop = Some 259 }) ≡ second_transaction_undone }
{}

/// By the definitions each fault but `OutOfMemory` is that of a log, at its position: `TooLong` of every file of 4 GiB
/// and more, and each other one of a small log.
pub fn worked_faults()
    ensures not_a_binlog { fault (take 3 no_changes) all ≡ Some (NotABinlog 0) }
    ensures cut_event { fault (take 258 one_insert) all ≡ Some (CutEvent 232) }
    ensures bad_format { fault (slice_set one_insert 98 6) all ≡ Some (BadFormat 4) }
    ensures old_server { fault (take 25 one_insert ++ codes "abc" ++ 0 ∷ 0 ∷ 0 ∷ drop 31 one_insert) all ≡ Some (OldServer 4) }
    ensures checksums { fault (slice_set one_insert 115 1) all ≡ Some (Checksums 4) }
    ensures no_event_at { fault one_insert (record all { start = 160 }) ≡ Some (NoEventAt 160) }
    ensures statement { fault drop_after all ≡ Some (Statement 259) }
    ensures rolled_back { fault rollback_inside all ≡ Some (RolledBack 232) }
    ensures out_of_place { fault no_begin all ≡ Some (OutOfPlace 120) }
    ensures unended { fault (slice_set one_insert 221 0) all ≡ Some (Unended 232) }
    ensures no_map { fault (slice_set one_insert 215 2) all ≡ Some (NoMap 196) }
    ensures map_clash { fault (slice_set two_transactions 433 2) all ≡ Some (MapClash 399) }
    ensures partial_image { fault (slice_set one_insert 226 254) all ≡ Some (PartialImage 196) }
    ensures unknown_type { fault (slice_set one_insert 193 6) all ≡ Some (UnknownType 159) }
    ensures bad_body { fault (slice_set one_insert 225 2) all ≡ Some (BadBody 196) }
    ensures unknown_event { fault (slice_set ignorable_after 263 162) all ≡ Some (UnknownEvent 259) }
    ensures too_long { (bytes : List ℕ) (sel : Selection) → 2 ^ 32 ≤ length bytes → fault bytes sel ≡ Some (TooLong 0) }
{}

/// By the definitions the first of several faults is the one of a log: that of the format description, then those of the
/// events, then that of a cut rest, then that of the start. Of one event it is the first in the order of its checks.
pub fn worked_first_faults()
    ensures format_before_event { fault (slice_set drop_after 115 1) all ≡ Some (Checksums 4) }
    ensures event_before_rest { fault (take 258 (slice_set one_insert 215 2)) all ≡ Some (NoMap 196) }
    ensures rest_before_start { fault (take 258 one_insert) (record all { start = 300 }) ≡ Some (CutEvent 232) }
    ensures xid_body_before_place { fault (no_changes ++ drop 232 short_xid) all ≡ Some (BadBody 120) }
    ensures map_place_before_names { fault (slice_set no_begin 147 200) all ≡ Some (OutOfPlace 120) }
    ensures map_names_before_id { fault (slice_set map_twice 223 200) all ≡ Some (BadBody 196) }
    ensures map_id_before_layout { fault (slice_set map_twice 230 6) all ≡ Some (MapClash 196) }
    ensures map_layout_before_table { fault (slice_set two_transactions 433 6) all ≡ Some (UnknownType 399) }
    ensures rows_place_before_length { fault (no_changes ++ slice_set (take 28 (drop 196 one_insert)) 9 28) all ≡ Some (OutOfPlace 120) }
    ensures rows_length_before_map { fault (take 159 one_insert ++ slice_set (take 28 (drop 196 one_insert)) 9 28 ++ drop 232 one_insert) all ≡ Some (BadBody 159) }
    ensures earlier_event { fault (slice_set drop_after 215 2) all ≡ Some (NoMap 196) }
{}

/// By the definitions these small logs are refused too, with these faults at these positions: for the framing, the
/// format description, the start or the stop.
pub fn worked_file_faults()
    ensures no_bytes { fault [] all ≡ Some (NotABinlog 0) }
    ensures magic_alone { fault (take 4 no_changes) all ≡ Some (CutEvent 4) }
    ensures lengths_24 { fault (old_log 100 lengths_24) all ≡ Some (BadFormat 4) }
    ensures two_numbers { fault (take 25 one_insert ++ codes "5.6" ++ 0 ∷ 0 ∷ 0 ∷ drop 31 one_insert) all ≡ Some (OldServer 4) }
    ensures from_map { fault one_insert (record all { start = 159 }) ≡ Some (OutOfPlace 159) }
    ensures from_second_map { fault two_transactions (record all { start = 203 }) ≡ Some (OutOfPlace 203) }
    ensures from_past_end { fault one_insert (record all { start = 300 }) ≡ Some (NoEventAt 300) }
    ensures up_to_end_event { fault one_insert (record all { stop = Some 232 }) ≡ Some (Unended 232) }
    ensures up_to_gtid { fault two_transactions (record all { stop = Some 360 }) ≡ Some (Unended 360) }
{}

/// By the definitions these small logs are refused too, for one of their events, with these faults at its position.
pub fn worked_event_faults()
    ensures clash_of_names { fault (slice_set map_twice 227 117) all ≡ Some (MapClash 196) }
    ensures partial_rows { fault (slice_set one_insert 200 39) all ≡ Some (PartialImage 196) }
    ensures no_map_since_begin { fault (map_alone ++ take 39 (drop 120 one_insert) ++ drop 196 one_insert) all ≡ Some (NoMap 275) }
    ensures no_second_map { fault one_map_for_two all ≡ Some (NoMap 232) }
    ensures xid_length { fault short_xid all ≡ Some (BadBody 232) }
    ensures type_22 { fault (slice_set one_insert 200 22) all ≡ Some (UnknownEvent 196) }
    ensures columns_of_version_2 { fault (slice_set one_insert 200 23) all ≡ Some (BadBody 196) }
    ensures not_ignorable { fault (slice_set ignorable_after 276 0) all ≡ Some (UnknownEvent 259) }
    ensures query_layout { fault (slice_set one_insert 147 200) all ≡ Some (BadBody 120) }
    ensures variable_of_a_statement { fault (one_insert ++ slice_set (drop 232 one_insert) 4 5) all ≡ Some (Statement 259) }
    ensures map_names { fault (slice_set one_insert 186 200) all ≡ Some (BadBody 159) }
    ensures rows_length { fault (take 196 one_insert ++ slice_set (take 28 (drop 196 one_insert)) 9 28 ++ drop 232 one_insert) all ≡ Some (BadBody 196) }
    ensures rows_outside { fault (no_changes ++ drop 196 one_insert) all ≡ Some (OutOfPlace 120) }
    ensures savepoint_outside { fault (no_changes ++ take 47 (drop 232 savepoint_inside)) all ≡ Some (OutOfPlace 120) }
    ensures second_begin { fault (take 159 one_insert ++ drop 120 one_insert) all ≡ Some (OutOfPlace 159) }
    ensures second_gtid { fault gtid_twice all ≡ Some (OutOfPlace 164) }
    ensures rotate_behind_gtid { fault rotate_after_gtid all ≡ Some (OutOfPlace 164) }
    ensures commit_behind_gtid { fault commit_after_gtid all ≡ Some (OutOfPlace 164) }
    ensures second_format { fault (one_insert ++ take 116 (drop 4 one_insert)) all ≡ Some (OutOfPlace 259) }
{}

/// By the definitions this is the pseudo-SQL and these are the summaries of small logs, and of what undoes them.
pub fn worked_printed()
    ensures sql_of_no_changes { sql_text (groups no_changes all) ≡ [] }
    ensures sql_of_no_changes_undone { sql_text (reversed (groups no_changes all)) ≡ [] }
    ensures sql_of_two_updates { sql_text (groups two_updates all) ≡ two_updates_lines }
    ensures sql_of_two_updates_undone { sql_text (reversed (groups two_updates all)) ≡ two_updates_undone_lines }
    ensures sql_of_two_columns_undone { sql_text (reversed (groups two_columns all)) ≡ two_columns_undone_lines }
    ensures sql_of_nine_columns { sql_text (groups nine_columns all) ≡ nine_columns_lines }
    ensures sql_of_backtick { sql_text (groups backtick_in_name all) ≡ backtick_lines }
    ensures sql_of_two_transactions { sql_text (groups two_transactions all) ≡ two_transactions_lines }
    ensures sql_of_two_tables_undone { sql_text (reversed (groups two_tables all)) ≡ two_tables_undone_lines }
    ensures sql_of_no_rows { sql_text (groups no_rows all) ≡ no_rows_lines }
    ensures summary_of_no_changes { summary_text (groups no_changes all) ≡ no_changes_summary }
    ensures summary_of_map_alone { summary_text (groups map_alone all) ≡ no_changes_summary }
    ensures summary_of_two_inserts_undone { summary_text (groups (flashback_text two_inserts all) all) ≡ two_inserts_undone_summary }
    ensures summary_of_two_updates { summary_text (groups two_updates all) ≡ two_updates_summary }
    ensures summary_of_two_transactions { summary_text (groups two_transactions all) ≡ two_transactions_summary }
    ensures summary_of_two_tables { summary_text (groups two_tables all) ≡ two_tables_summary }
    ensures summary_of_no_rows { summary_text (groups no_rows all) ≡ no_rows_summary }
{}
