//! The two forms in which a log without checksums is put.

ghost use Rattle.std.specs.Prelude.{◌≡◌, ◌≤◌, length};
ghost use Rattle.blog_source.specs.code.Walk.{cut_as, pos_as};

/// How many bytes of the body of a Gtid event are in front of a tag.
const GTID_LEN: usize = 25;

/// In which form a log without checksums is put.
#[derive(Clone, Copy, Debug)]
pub(crate) enum Form {
    /// The log_pos of an event is where the event of the server's log begins for which it stands. A Gtid event has its tag.
    Places,
    /// The log_pos of an event is where it ends. A Gtid event has no tag.
    Plain,
}

impl Form {
    /// The log_pos of an event that was at `at` and ends at `end` now.
    pub(crate) fn log_pos(self, at: u32, end: u32) -> u32
        ensures { result ≡ pos_as self at end }
    {
        match self {
            Form::Places => at,
            Form::Plain => end,
        }
    }

    /// The body of a Gtid event that was a tagged one.
    pub(crate) fn body(self, gtid: &[u8]) -> &[u8]
        requires { 25 ≤ length gtid.now }
        ensures body { result.now ≡ cut_as self gtid.now }
        ensures within { length result.now ≤ length gtid.now }
    {
        match self {
            Form::Places => gtid,
            Form::Plain => &gtid[..GTID_LEN],
        }
    }
}
