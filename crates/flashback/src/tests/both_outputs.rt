//! Runs that write the same bytes to standard output and to a result file, or to neither.

/// Scripts, each behind its name.
pub(super) const SCRIPTS: &str = "
## prints_each_mode
file log INSERT_ONE_ROW
$ -B --sql @log
> BEGIN
> ### DELETE FROM `d`.`t`
> ### WHERE
> ###   @1=X'05000000'
> COMMIT
>* written
$ -B --sql -r @new @log
same new @written
remove new
file old long
$ -B --sql -r @old @log
same old @written
$ --forward --sql @log
> BEGIN
> ### INSERT INTO `d`.`t`
> ### SET
> ###   @1=X'05000000'
> COMMIT
>* written
$ --forward --sql -r @new @log
same new @written
remove new
file old long
$ --forward --sql -r @old @log
same old @written
$ --summary @log
> transactions 1
> statements 1
> `d`.`t` inserts 1 updates 0 deletes 0
>* written
$ --summary -r @new @log
same new @written
remove new
file old long
$ --summary -r @old @log
same old @written
$ -B --sql -T t @log
> BEGIN
> ### DELETE FROM `d`.`t`
> ### WHERE
> ###   @1=X'05000000'
> COMMIT
>* written
$ -B --sql -T t -r @new @log
same new @written
remove new
file old long
$ -B --sql -T t -r @old @log
same old @written
$ -B --sql -d e @log
>* written
$ -B --sql -d e -r @new @log
same new @written
remove new
file old long
$ -B --sql -d e -r @old @log
same old @written
$ --forward --sql -j 259 @log
>* written
$ --forward --sql -j 259 -r @new @log
same new @written
remove new
file old long
$ --forward --sql -j 259 -r @old @log
same old @written
$ --summary -d d @log
> transactions 1
> statements 1
> `d`.`t` inserts 1 updates 0 deletes 0
>* written
$ --summary -d d -r @new @log
same new @written
remove new
file old long
$ --summary -d d -r @old @log
same old @written
$ --summary -T d @log
> transactions 0
> statements 0
>* written
$ --summary -T d -r @new @log
same new @written
remove new
file old long
$ --summary -T d -r @old @log
same old @written

## pseudo_sql_goes_by_the_log
# a log that deletes the row
file log INSERT_ONE_ROW 200=32
$ -B --sql @log
> BEGIN
> ### INSERT INTO `d`.`t`
> ### SET
> ###   @1=X'05000000'
> COMMIT
>* written
$ -B --sql -r @new @log
same new @written
remove new
file old long
$ -B --sql -r @old @log
same old @written
$ --forward --sql @log
> BEGIN
> ### DELETE FROM `d`.`t`
> ### WHERE
> ###   @1=X'05000000'
> COMMIT
>* written
$ --forward --sql -r @new @log
same new @written
remove new
file old long
$ --forward --sql -r @old @log
same old @written
";
