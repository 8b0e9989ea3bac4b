//! The arguments of the program.

/// What is done.
#[derive(Clone, Copy)]
pub enum Job {
    /// Lists of logs of small transactions, with checksums.
    List,
    /// Logs that undo a large DELETE or UPDATE, normal forms and summaries.
    Undo,
    /// Logs that are cut, and printed as SQL.
    Apply,
    /// Pseudo-SQL of a large transaction.
    Rows,
    /// Lists and plain logs of large events, with checksums.
    Sums,
    /// Statements of many events of one row, many tables, and tables of many columns.
    Awkward,
    /// Events of one row and of 8 KB, of tables with optional columns.
    Optional,
    /// Statements and names in three languages, as JSON.
    Statements,
}

impl Job {
    /// The job of this name.
    fn of_word(word: &str) -> Option<Job> {
        match word {
            "list" => Some(Job::List),
            "undo" => Some(Job::Undo),
            "apply" => Some(Job::Apply),
            "rows" => Some(Job::Rows),
            "sums" => Some(Job::Sums),
            "awkward" => Some(Job::Awkward),
            "optional" => Some(Job::Optional),
            "statements" => Some(Job::Statements),
            _ => None,
        }
    }
}

/// What the arguments ask for.
#[derive(Clone, Copy)]
pub struct Task {
    /// What is done.
    pub job: Job,
    /// What the contents of the logs come from.
    pub seed: u32,
    /// On how many logs it is done.
    pub logs: u32,
    /// About how large each log is, in KB (1,000 bytes).
    pub kilobytes: u32,
}

/// Reads `JOB SEED LOGS KB` after the program's name.
pub fn read_words(words: &[String]) -> Option<Task> {
    if words.len() > 5 {
        return None;
    }
    Some(Task {
        job: Job::of_word(words.get(1)?.as_str())?,
        seed: words.get(2)?.as_str().parse().ok()?,
        logs: words.get(3)?.as_str().parse().ok()?,
        kilobytes: words.get(4)?.as_str().parse().ok()?,
    })
}
