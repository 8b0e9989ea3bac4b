//! Logs with rows events of version 1, and of a server before 5.6.1.

/// Scripts, each behind its name.
pub(super) const SCRIPTS: &str = "
## rows_of_version_1_are_undone
log log begin map:1:t insert:1:5+old xid
$ -B @log
>+ @log 200=25
>* written
$ -B -r @new @log
same new @written
remove new
file old long
$ -B -r @old @log
same old @written
$ --forward @log
>+ @log
>* written
$ --forward -r @new @log
same new @written
remove new
file old long
$ --forward -r @old @log
same old @written
$ -B --sql @log
> BEGIN
> ### DELETE FROM `d`.`t`
> ### WHERE
> ###   @1=X'05000000'
> COMMIT
>* written
$ -B --sql -r @new @log
same new @written
remove new
file old long
$ -B --sql -r @old @log
same old @written
$ --forward --sql @log
> BEGIN
> ### INSERT INTO `d`.`t`
> ### SET
> ###   @1=X'05000000'
> COMMIT
>* written
$ --forward --sql -r @new @log
same new @written
remove new
file old long
$ --forward --sql -r @old @log
same old @written
$ --summary @log
> transactions 1
> statements 1
> `d`.`t` inserts 1 updates 0 deletes 0
>* written
$ --summary -r @new @log
same new @written
remove new
file old long
$ --summary -r @old @log
same old @written

## a_log_of_an_old_server_is_undone
file log OLD_SERVER
$ -B @log
>+ OLD_SERVER 187=25
>* written
$ -B -r @new @log
same new @written
remove new
file old long
$ -B -r @old @log
same old @written
$ --forward @log
>+ OLD_SERVER
>* written
$ --forward -r @new @log
same new @written
remove new
file old long
$ --forward -r @old @log
same old @written
$ -B --sql @log
> BEGIN
> ### DELETE FROM `d`.`t`
> ### WHERE
> ###   @1=X'05000000'
> COMMIT
>* written
$ -B --sql -r @new @log
same new @written
remove new
file old long
$ -B --sql -r @old @log
same old @written
$ --forward --sql @log
> BEGIN
> ### INSERT INTO `d`.`t`
> ### SET
> ###   @1=X'05000000'
> COMMIT
>* written
$ --forward --sql -r @new @log
same new @written
remove new
file old long
$ --forward --sql -r @old @log
same old @written
$ --summary @log
> transactions 1
> statements 1
> `d`.`t` inserts 1 updates 0 deletes 0
>* written
$ --summary -r @new @log
same new @written
remove new
file old long
$ --summary -r @old @log
same old @written
";
