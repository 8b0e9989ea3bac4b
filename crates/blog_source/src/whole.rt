//! Sources that have to be whole, and faults at their places.

ghost use Rattle.std.specs.Prelude.{◌≡◌, IfOk, None, option_map};
ghost use Rattle.std.specs.Result.{result_err};
ghost use Rattle.blog_event.specs.Fault.{name_of, position_of as fault_position};
ghost use Rattle.blog_source.specs.Appended.{format_time};
ghost use Rattle.blog_source.specs.Found.{found_of};
ghost use Rattle.blog_source.specs.Handed.{handed_log};
ghost use Rattle.blog_source.specs.Laws.{whole_reading};
ghost use Rattle.blog_source.specs.Places.{place_of};
ghost use Rattle.blog_source.specs.Whole.{reading_fault};
ghost use Rattle.blog_source.specs.code.SourceView.{end_of, log_of, time_of};

use crate::reading::Reading;
use crate::source::Source;
use blog_event::Fault;
use blog_sum::SumFault;
use std::alloc::Allocator;

impl<A: Allocator> Source<A> {
    /// Reads a server's log to its end, in the bytes themselves, as `open` does. Fails as `open`, and with the fault that ends
    /// the reading too: so each checksum is right, and the events reach to the end of the log.
    #[tactic(auto, using(crate::proofs::WholeReading::reading_whole, crate::proofs::WholeReading::reading_refused))]
    pub fn open_whole(bytes: Vec<u8, A>) -> Result<Self, SumFault>
        ensures exact { result_err result ≡ reading_fault bytes.items }
        ensures log { IfOk result (λ source. log_of source ≡ handed_log whole_reading bytes.items) }
        ensures end { IfOk result (λ source. end_of source ≡ (found_of whole_reading bytes.items).end) }
        ensures time { IfOk result (λ source. time_of source ≡ format_time (handed_log whole_reading bytes.items)) }
    {
        let source = Source::open(bytes, Reading::ALL)?;
        match source.fault() {
            None => Ok(source),
            Some(fault) => Err(fault),
        }
    }

    /// Returns a fault of the log without checksums at its place in the server's log.
    pub fn at_place(&self, fault: &Fault) -> Fault
        ensures name { name_of result ≡ name_of fault.now }
        ensures place { fault_position result ≡ option_map (place_of (log_of self.now) (end_of self.now)) (fault_position fault.now) }
    {
        match fault.at() {
            Some(pos) => fault.moved_to(self.place(pos)),
            None => *fault,
        }
    }
}
