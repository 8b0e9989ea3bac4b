//! Parts of a log, and other logs than one inserting transaction.

/// Scripts, each behind its name.
pub(super) const SCRIPTS: &str = "
## each_selection_has_its_output
file log INSERT_ONE_ROW
$ -B -j 0 @log
>+ INSERT_ONE_ROW 200=32
>* written
$ -B -j 0 -r @new @log
same new @written
remove new
file old long
$ -B -j 0 -r @old @log
same old @written
$ -B -j 4 @log
>+ INSERT_ONE_ROW 200=32
>* written
$ -B -j 4 -r @new @log
same new @written
remove new
file old long
$ -B -j 4 -r @old @log
same old @written
$ -B -j 120 @log
>+ INSERT_ONE_ROW 200=32
>* written
$ -B -j 120 -r @new @log
same new @written
remove new
file old long
$ -B -j 120 -r @old @log
same old @written
$ -B --stop-position 259 @log
>+ INSERT_ONE_ROW 200=32
>* written
$ -B --stop-position 259 -r @new @log
same new @written
remove new
file old long
$ -B --stop-position 259 -r @old @log
same old @written
$ -B -d d @log
>+ INSERT_ONE_ROW 200=32
>* written
$ -B -d d -r @new @log
same new @written
remove new
file old long
$ -B -d d -r @old @log
same old @written
$ -B -T t @log
>+ INSERT_ONE_ROW 200=32
>* written
$ -B -T t -r @new @log
same new @written
remove new
file old long
$ -B -T t -r @old @log
same old @written
$ --forward @log
>+ INSERT_ONE_ROW
>* written
$ --forward -r @new @log
same new @written
remove new
file old long
$ --forward -r @old @log
same old @written
$ --forward -d d -T t @log
>+ INSERT_ONE_ROW
>* written
$ --forward -d d -T t -r @new @log
same new @written
remove new
file old long
$ --forward -d d -T t -r @old @log
same old @written
$ -B -j 259 @log
>+ INSERT_ONE_ROW ..120
>* written
$ -B -j 259 -r @new @log
same new @written
remove new
file old long
$ -B -j 259 -r @old @log
same old @written
$ -B -d e @log
>+ INSERT_ONE_ROW ..120
>* written
$ -B -d e -r @new @log
same new @written
remove new
file old long
$ -B -d e -r @old @log
same old @written
$ -B -d D @log
>+ INSERT_ONE_ROW ..120
>* written
$ -B -d D -r @new @log
same new @written
remove new
file old long
$ -B -d D -r @old @log
same old @written
$ -B -d '' @log
>+ INSERT_ONE_ROW ..120
>* written
$ -B -d '' -r @new @log
same new @written
remove new
file old long
$ -B -d '' -r @old @log
same old @written
$ -B -T d @log
>+ INSERT_ONE_ROW ..120
>* written
$ -B -T d -r @new @log
same new @written
remove new
file old long
$ -B -T d -r @old @log
same old @written
$ -B -j 160 --stop-position 100 @log
>+ INSERT_ONE_ROW ..120
>* written
$ -B -j 160 --stop-position 100 -r @new @log
same new @written
remove new
file old long
$ -B -j 160 --stop-position 100 -r @old @log
same old @written

## each_selection_has_its_fault
file log INSERT_ONE_ROW
$ -B -j 159 @log
! flashback: OutOfPlace at 159
= 1
$ -B -j 159 -r @new @log
! flashback: OutOfPlace at 159
= 1
none new
file old long
$ -B -j 159 -r @old @log
! flashback: OutOfPlace at 159
= 1
same old long
$ -B -j 160 @log
! flashback: NoEventAt at 160
= 1
$ -B -j 160 -r @new @log
! flashback: NoEventAt at 160
= 1
none new
file old long
$ -B -j 160 -r @old @log
! flashback: NoEventAt at 160
= 1
same old long
$ -B -j 300 @log
! flashback: NoEventAt at 300
= 1
$ -B -j 300 -r @new @log
! flashback: NoEventAt at 300
= 1
none new
file old long
$ -B -j 300 -r @old @log
! flashback: NoEventAt at 300
= 1
same old long
$ -B --stop-position 232 @log
! flashback: Unended at 232
= 1
$ -B --stop-position 232 -r @new @log
! flashback: Unended at 232
= 1
none new
file old long
$ -B --stop-position 232 -r @old @log
! flashback: Unended at 232
= 1
same old long
$ --forward --stop-position 232 @log
! flashback: Unended at 232
= 1
$ --forward --stop-position 232 -r @new @log
! flashback: Unended at 232
= 1
none new
file old long
$ --forward --stop-position 232 -r @old @log
! flashback: Unended at 232
= 1
same old long

## a_cut_log_leaves_the_file_alone
file log INSERT_ONE_ROW ..258
$ -B @log
! flashback: CutEvent at 232
= 1
$ -B -r @new @log
! flashback: CutEvent at 232
= 1
none new
file old long
$ -B -r @old @log
! flashback: CutEvent at 232
= 1
same old long

## a_stop_leaves_out_what_cannot_be_undone
# an event that can't be undone is at 259
file log dropped
$ -B @log
! flashback: Statement at 259
= 1
$ -B -r @new @log
! flashback: Statement at 259
= 1
none new
file old long
$ -B -r @old @log
! flashback: Statement at 259
= 1
same old long
$ -B --stop-position 259 @log
>+ INSERT_ONE_ROW 200=32
>* written
$ -B --stop-position 259 -r @new @log
same new @written
remove new
file old long
$ -B --stop-position 259 -r @old @log
same old @written

## other_tables_are_not_judged
# the type of the column can't be undone
file log INSERT_ONE_ROW 193=6
$ -B @log
! flashback: UnknownType at 159
= 1
$ -B -r @new @log
! flashback: UnknownType at 159
= 1
none new
file old long
$ -B -r @old @log
! flashback: UnknownType at 159
= 1
same old long
$ -B -d e @log
>+ @log ..120
>* written
$ -B -d e -r @new @log
same new @written
remove new
file old long
$ -B -d e -r @old @log
same old @written
";
