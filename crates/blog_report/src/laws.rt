//! What is promised of reports.

ghost use Rattle.std.specs.Prelude.{◌≡◌, List, false, ℕ};
ghost use Rattle.std.specs.List.{list_any};
ghost use Rattle.blog_report.specs.Html.{escaped_html, is_syntax};
ghost use Rattle.blog_report.specs.Ranking.{IsRanked, kept};
ghost use Rattle.blog_report.specs.Shell.{shell_word};
ghost use Rattle.blog_report.specs.ShellReads.{word_read};
ghost use Rattle.blog_report.specs.declared.ranking.Ranked.{Ranked};

/// Ranked units stay in the order of their numbers, the greatest first, where a new one is put among them. The call does
/// nothing.
pub fn rankings_are_sorted()
    ensures { (u : Ranked) (us : List Ranked) → IsRanked us → IsRanked (kept u us) }
{}

/// A shell reads the word that is printed for a name as that name. The call does nothing.
pub fn words_are_read_as_names()
    ensures { (name : List ℕ) → word_read (shell_word name) ≡ name }
{}

/// What is put into a page for a name has no byte that begins or ends a tag, or the value of an attribute. The call does nothing.
pub fn names_make_no_tags()
    ensures { (name : List ℕ) → list_any is_syntax (escaped_html name) ≡ false }
{}
