//! What is promised of lists.

ghost use Rattle.std.specs.Prelude.{◌++◌, ◌∷◌, [], Bool, List, length, ℕ};
ghost use Rattle.jiff.specs.Types.{TimeZone};
ghost use Rattle.blog_list.specs.Columns.{IsHeading};
ghost use Rattle.blog_list.specs.Lines.{LogList};
ghost use Rattle.blog_list.specs.Texts.{AreLogTexts, IsListText, IsLogText, header_of, totals_of};
ghost use Rattle.blog_list.specs.declared.listing.Form.{Form};

/// The parts that a `ListWriter` writes of logs are a list of them: the header, what is listed of each log in turn, and the
/// totals. The call does nothing.
pub fn parts_are_a_list()
    ensures more { (form : Form) (zone : TimeZone) (gtids : Bool) (width : ℕ) (ls : List LogList) (l : LogList) (texts text : List ℕ) → AreLogTexts form zone gtids width ls texts → IsLogText form zone gtids width l text → AreLogTexts form zone gtids width (ls ++ l ∷ []) (texts ++ text) }
    ensures whole { (form : Form) (zone : TimeZone) (gtids : Bool) (heading : List ℕ) (ls : List LogList) (texts : List ℕ) → IsHeading zone heading → AreLogTexts form zone gtids (length heading) ls texts → IsListText form zone gtids ls (header_of form gtids heading ++ (texts ++ totals_of form ls)) }
{}
